//! What commands need of their cases.
ghost use Rattle.std.specs.Prelude.{◌≡◌};

use crate::kind::InputKind;

/// The p-values that a command needs, and the most hypotheses that it takes. No case has more than 64.
#[derive(Clone, Copy, PartialEq, Eq, Debug)]
pub struct Needs {
    pub kind: InputKind,
    pub most: usize,
}

impl Needs {
    /// Returns the needs of a command that takes p-values of the kind `kind` and at most `most` hypotheses.
    pub fn new(kind: InputKind, most: usize) -> Needs
        ensures { result ≡ record { kind = kind; most = most } }
    {
        Needs { kind, most }
    }
}
