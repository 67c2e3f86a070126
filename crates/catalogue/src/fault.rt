//! Why a named graph isn't made.
ghost use Rattle.std.specs.Prelude.{◌≡◌, ◌⊎◌};

use case_model::CaseFault;
use field_core::NoMemory;

/// Why a case isn't made. Sizes are tested first, then the seed, then the draft.
#[derive(Clone, Copy, PartialEq, Eq)]
pub enum CatalogueFault {
    /// A size is 0, or there are more than 64 hypotheses. The number is 0, or that of the hypotheses, or 2^64 - 1 if it is above that.
    Size(u64),
    /// The seed is 2^48 or more.
    Seed(u64),
    /// The draft of the graph at this level and with these p-values is refused.
    Case(CaseFault),
    /// Out of memory.
    NoMemory,
}

impl CatalogueFault {
    ghost use Rattle.catalogue.specs.declared.fault.CatalogueFault.TheVariants.{Case as OfCase, NoMemory as OutOfMemory};

    /// Returns the fault of a refused draft as a fault of a named graph.
    pub(crate) fn of_case(fault: CaseFault) -> CatalogueFault
        ensures memory { fault ≡ CaseFault.NoMemory → result ≡ OutOfMemory }
        ensures case { (fault ≡ CaseFault.NoMemory) ⊎ (result ≡ OfCase fault) }
    {
        match fault {
            CaseFault::NoMemory => CatalogueFault::NoMemory,
            other => CatalogueFault::Case(other),
        }
    }
}

impl From<NoMemory> for CatalogueFault {
    ghost use Rattle.std.specs.Prelude.{◌≡◌};
    ghost use Rattle.catalogue.specs.declared.fault.CatalogueFault.TheVariants.{NoMemory as OutOfMemory};

    ghost from_gives = { λ _ fault. fault ≡ OutOfMemory };

    fn from(_: NoMemory) -> CatalogueFault {
        CatalogueFault::NoMemory
    }
}
