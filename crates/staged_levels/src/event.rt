//! What may happen to a study, and why it is refused.
use field_core::WideAt;
use fraction::Fraction;

/// What may happen to a study: a p-value of a hypothesis arrives at a stage, or a hypothesis is rejected. Hypotheses are
/// given by their positions from 0, stages from 1.
#[derive(Clone, Copy)]
pub enum Event {
    /// The hypothesis, the stage and the p-value.
    Arrive(usize, usize, Fraction),
    /// The hypothesis.
    Reject(usize),
}

/// Why an event is refused.
#[derive(Clone, Copy, PartialEq, Eq, Debug)]
pub enum StepFault {
    /// A p-value of this hypothesis has arrived at this stage.
    Known(usize, usize),
    /// There is no such stage.
    StageRange(usize),
    /// The p-value isn't from 0 to 1, or its denominator is above 10^30.
    PRange,
    /// The hypothesis was rejected before.
    Rejected(usize),
    /// The hypothesis isn't legal.
    NotLegal(usize),
    /// The first operation of the removal that is undefined.
    Wide(WideAt),
}

/// Why a settling stopped part way.
#[derive(Clone, Copy, PartialEq, Eq, Debug)]
pub enum SettleFault {
    /// The first operation of the next removal that is undefined.
    Wide(WideAt),
}

/// A rejection: the hypothesis, by its position from 0, and the least stage, from 1, that met the test at that moment. Also the
/// weight at that moment, as a fraction of alpha.
#[derive(Clone, Copy, PartialEq, Eq, Debug)]
pub struct Settled {
    pub hypothesis: usize,
    pub stage: usize,
    pub weight: Fraction,
}
