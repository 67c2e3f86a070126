//! Causes of refusals.
ghost use Rattle.std.specs.Prelude.{◌≡◌};

/// Why words or an input are refused.
#[derive(Clone, Copy, PartialEq, Eq, Debug)]
pub enum Cause {
    Usage,
    Malformed,
    Limit,
    TooWide,
}

impl Cause {
    ghost use Rattle.answers.specs.Codes.{cause_code};

    /// Returns the status of the program for this cause.
    pub fn code(self) -> u8
        ensures { result ≡ cause_code self }
    {
        match self {
            Cause::Usage => 2,
            Cause::Malformed => 3,
            Cause::Limit => 4,
            Cause::TooWide => 5,
        }
    }
}
