//! Why there is no table of Simes' test.
use field_core::{NoMemory, WideAt};

/// Why there is no table of Simes' test.
#[derive(Clone, Copy, PartialEq, Eq, Debug)]
pub enum SimesFault {
    /// The first set, in the order of sets, with a sum that isn't defined, and its first member whose sum isn't. The sum is
    /// over all components; the reported component is 0.
    Wide(u32, WideAt),
    /// Out of memory.
    NoMemory,
}

impl From<NoMemory> for SimesFault {
    ghost use Rattle.std.specs.Prelude.{◌≡◌};
    ghost use Rattle.simes_test.specs.declared.fault.SimesFault.TheVariants.{NoMemory as OutOfMemory};

    ghost from_gives = { λ _ fault. fault ≡ OutOfMemory };

    fn from(_: NoMemory) -> SimesFault {
        SimesFault::NoMemory
    }
}
