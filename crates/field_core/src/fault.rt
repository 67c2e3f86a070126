//! Why a written run returns no value: an operation is too wide, or the call is out of memory.
use crate::{NoMemory, Wide, WideAt};
use std::alloc::AllocError;

/// Why a written run returns no value.
#[derive(Clone, Copy, PartialEq, Eq, Debug)]
pub enum Fault<W> {
    /// The first operation of the run that has a part past its size.
    Wide(W),
    /// Out of memory.
    NoMemory,
}

impl<W> From<NoMemory> for Fault<W> {
    ghost use Rattle.std.specs.Prelude.{◌≡◌};
    ghost use Rattle.field_core.specs.declared.fault.Fault.TheVariants.{NoMemory as OutOfMemory};

    ghost from_gives = { λ _ fault. fault ≡ OutOfMemory };

    fn from(_: NoMemory) -> Fault<W> {
        Fault::NoMemory
    }
}

impl<W> From<AllocError> for Fault<W> {
    ghost use Rattle.std.specs.Prelude.{◌≡◌};
    ghost use Rattle.field_core.specs.declared.fault.Fault.TheVariants.{NoMemory as OutOfMemory};

    ghost from_gives = { λ _ fault. fault ≡ OutOfMemory };

    fn from(_: AllocError) -> Fault<W> {
        Fault::NoMemory
    }
}

impl From<Wide> for Fault<Wide> {
    ghost use Rattle.std.specs.Prelude.{◌≡◌};
    ghost use Rattle.field_core.specs.declared.fault.Fault.TheVariants.{Wide as TooWide};

    ghost from_gives = { λ wide fault. fault ≡ TooWide wide };

    fn from(wide: Wide) -> Fault<Wide> {
        Fault::Wide(wide)
    }
}

impl From<WideAt> for Fault<WideAt> {
    ghost use Rattle.std.specs.Prelude.{◌≡◌};
    ghost use Rattle.field_core.specs.declared.fault.Fault.TheVariants.{Wide as TooWide};

    ghost from_gives = { λ wide fault. fault ≡ TooWide wide };

    fn from(wide: WideAt) -> Fault<WideAt> {
        Fault::Wide(wide)
    }
}

impl Fault<Wide> {
    ghost use Rattle.std.specs.Prelude.{◌≡◌};
    ghost use Rattle.field_core.specs.Made.{fault_in};

    /// Returns the fault in a run on the component `component`, from 0.
    pub fn in_component(self, component: usize) -> Fault<WideAt>
        ensures { result ≡ fault_in component self }
    {
        match self {
            Fault::Wide(wide) => Fault::Wide(wide.in_component(component)),
            Fault::NoMemory => Fault::NoMemory,
        }
    }
}
