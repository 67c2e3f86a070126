//! How many calls were made, as proofs count them.
ghost use Rattle.std.specs.Prelude.{◌≡◌, ℕ, ◌+◌};
ghost use Rattle.std.specs.Borrow.{ftrue};

use std::marker::Model;

/// How many calls were made. Only proofs read the number, and it takes no memory.
#[derive(Drop)]
pub struct CallCount {
    pub ghost made: { ℕ },
}

impl Model for CallCount {
    ghost also_owns = { λ _. ftrue };
}

impl CallCount {
    /// Returns the count before any call.
    pub fn new() -> CallCount
        ensures { result.made ≡ 0 }
    {
        CallCount {}
    }

    /// Returns the count after one call more.
    fn next(&self) -> CallCount
        ensures { result.made ≡ self.now.made + 1 }
    {
        CallCount {}
    }

    /// Counts a call.
    pub fn rise(&mut self)
        ensures { self.new.made ≡ self.old.made + 1 }
    {
        *self = self.next();
    }
}
