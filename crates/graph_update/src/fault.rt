//! Why no graph is returned.
use entangled::OpenFault;
use field_core::{NoMemory, WideAt};

/// Why no graph is returned.
#[derive(Clone, Copy, PartialEq, Eq, Debug)]
pub enum UpdateFault {
    /// A position is not that of a hypothesis, or is there twice.
    Positions,
    /// The first operation that is undefined, and the number of its removal, counted from 1; 0 is the opening.
    Wide(usize, WideAt),
    /// Out of memory.
    NoMemory,
}

impl From<NoMemory> for UpdateFault {
    ghost use Rattle.std.specs.Prelude.{◌≡◌};
    ghost use Rattle.graph_update.specs.declared.fault.UpdateFault.TheVariants.{NoMemory as OutOfMemory};

    ghost from_gives = { λ _ fault. fault ≡ OutOfMemory };

    fn from(_: NoMemory) -> UpdateFault {
        UpdateFault::NoMemory
    }
}

impl From<OpenFault> for UpdateFault {
    ghost use Rattle.std.specs.Prelude.{◌≡◌};
    ghost use Rattle.graph_update.specs.Updates.{of_opening};

    ghost from_gives = { λ opening fault. fault ≡ of_opening opening };

    fn from(fault: OpenFault) -> UpdateFault {
        match fault {
            OpenFault::Wide(wide) => UpdateFault::Wide(0, wide),
            OpenFault::NoMemory => UpdateFault::NoMemory,
        }
    }
}
