//! Why there is no table of all sets.
use field_core::{NoMemory, WideAt};
use std::alloc::AllocError;

/// Why there is no table of all sets.
#[derive(Clone, Copy, PartialEq, Eq, Debug)]
pub enum ClosedFault {
    /// There are more than 16 hypotheses; the number is theirs.
    TooMany(u64),
    /// The first set, in the order of sets, whose run is undefined, and the first undefined operation of this run.
    Wide(u32, WideAt),
    /// Out of memory.
    NoMemory,
}

impl From<NoMemory> for ClosedFault {
    ghost use Rattle.std.specs.Prelude.{◌≡◌};
    ghost use Rattle.closed_test.specs.declared.fault.ClosedFault.TheVariants.{NoMemory as OutOfMemory};

    ghost from_gives = { λ _ fault. fault ≡ OutOfMemory };

    fn from(_: NoMemory) -> ClosedFault {
        ClosedFault::NoMemory
    }
}

impl From<AllocError> for ClosedFault {
    ghost use Rattle.std.specs.Prelude.{◌≡◌};
    ghost use Rattle.closed_test.specs.declared.fault.ClosedFault.TheVariants.{NoMemory as OutOfMemory};

    ghost from_gives = { λ _ fault. fault ≡ OutOfMemory };

    fn from(_: AllocError) -> ClosedFault {
        ClosedFault::NoMemory
    }
}
