//! What ends a check.
use crate::Reason;
use field_core::WideAt;

/// What ends the check of a step or of a keep.
#[derive(Clone, Copy)]
pub enum CheckEvent {
    /// A condition is broken.
    Broken(Reason),
    /// A written operation is undefined.
    Undefined(WideAt),
}

/// What ends a check, and the step or keep at which it does.
#[derive(Clone, Copy)]
pub struct CheckEventAt {
    pub number: usize,
    pub event: CheckEvent,
}
