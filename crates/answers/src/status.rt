//! How calls end.
ghost use Rattle.std.specs.Prelude.{◌≡◌};

use crate::cause::Cause;

/// How a call ended that had no fault.
#[derive(Clone, Copy, PartialEq, Eq, Debug)]
pub enum Status {
    /// The call is done.
    Done,
    /// What was to be checked doesn't hold.
    No,
    Refused(Cause),
}

impl Status {
    ghost use Rattle.answers.specs.Codes.{status_code};

    /// Returns the status of the program for this ending.
    pub fn code(self) -> u8
        ensures { result ≡ status_code self }
    {
        match self {
            Status::Done => 0,
            Status::No => 1,
            Status::Refused(cause) => cause.code(),
        }
    }
}
