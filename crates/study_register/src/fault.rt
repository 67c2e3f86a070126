//! Why a register isn't opened, and why a look isn't added.
use entangled::OpenFault;
use field_core::WideAt;
use graph_io::{KeeperFault, Look};
use staged_levels::StepFault;

/// Why a register isn't opened.
#[derive(Clone, Copy, PartialEq, Eq, Debug)]
pub enum RegisterFault {
    /// The first look that names no hypothesis of the case or is refused, and its place, counted from 1.
    BadLook(usize, Look),
    /// The first undefined operation: at 0 of the opening of the case, and else of the settling after the look at this place.
    Wide(usize, WideAt),
    /// The keeper failed, and counted it.
    Fault,
    /// Out of memory.
    NoMemory,
}

impl From<OpenFault> for RegisterFault {
    ghost use Rattle.std.specs.Prelude.{◌≡◌};
    ghost use Rattle.study_register.specs.RegisterView.{of_opening};

    ghost from_gives = { λ opening fault. fault ≡ of_opening opening };

    fn from(fault: OpenFault) -> RegisterFault {
        match fault {
            OpenFault::Wide(wide) => RegisterFault::Wide(0, wide),
            OpenFault::NoMemory => RegisterFault::NoMemory,
        }
    }
}

impl From<KeeperFault> for RegisterFault {
    ghost use Rattle.std.specs.Prelude.{◌≡◌};
    ghost use Rattle.study_register.specs.RegisterView.{of_loading};

    ghost from_gives = { λ loading fault. fault ≡ of_loading loading };

    fn from(fault: KeeperFault) -> RegisterFault {
        match fault {
            KeeperFault::Fault => RegisterFault::Fault,
            KeeperFault::NoMemory => RegisterFault::NoMemory,
        }
    }
}

/// Why a look isn't added.
#[derive(Clone, Copy, PartialEq, Eq, Debug)]
pub enum AddFault {
    /// Why its arrival is refused.
    Refused(StepFault),
    /// The first operation of the settling that is undefined.
    Wide(WideAt),
    /// The keeper failed, and counted it.
    Fault,
    /// Out of memory.
    NoMemory,
}

impl From<KeeperFault> for AddFault {
    ghost use Rattle.std.specs.Prelude.{◌≡◌};
    ghost use Rattle.study_register.specs.RegisterView.{of_appending};

    ghost from_gives = { λ appending fault. fault ≡ of_appending appending };

    fn from(fault: KeeperFault) -> AddFault {
        match fault {
            KeeperFault::Fault => AddFault::Fault,
            KeeperFault::NoMemory => AddFault::NoMemory,
        }
    }
}
