//! Why no row is decided.
use entangled::OpenFault;
use field_core::{NoMemory, WideAt};
use std::alloc::AllocError;

/// Why no row is decided.
#[derive(Clone, Copy, PartialEq, Eq, Debug)]
pub enum RowsFault {
    /// There are not exactly one double and one byte for each hypothesis in each row.
    Lengths,
    /// The first operation of the opening that is undefined.
    Wide(WideAt),
    /// Out of memory.
    NoMemory,
}

impl From<OpenFault> for RowsFault {
    ghost use Rattle.std.specs.Prelude.{◌≡◌};
    ghost use Rattle.trial_rows.specs.Rows.{of_opening};

    ghost from_gives = { λ opening fault. fault ≡ of_opening opening };

    fn from(fault: OpenFault) -> RowsFault {
        match fault {
            OpenFault::Wide(wide) => RowsFault::Wide(wide),
            OpenFault::NoMemory => RowsFault::NoMemory,
        }
    }
}

impl From<AllocError> for RowsFault {
    ghost use Rattle.std.specs.Prelude.{◌≡◌};
    ghost use Rattle.trial_rows.specs.declared.fault.RowsFault.TheVariants.{NoMemory as OutOfMemory};

    ghost from_gives = { λ _ fault. fault ≡ OutOfMemory };

    fn from(_: AllocError) -> RowsFault {
        RowsFault::NoMemory
    }
}
