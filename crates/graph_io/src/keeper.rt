//! Looks, and keepers of them.
ghost use Rattle.std.specs.Prelude.{◌≡◌, ℕ, ◌<◌, ◌+◌, ◌^◌, List as Seq, OnOk, OnErr};
ghost use Rattle.std.specs.declared.option.Option.{Option};
ghost use Rattle.graph_io.specs.Keeping.{Loads, with_look, IsCaused};

use field_core::{List, NoMemory, Ratio};
use std::alloc::Global;

/// A p-value of a hypothesis that came at a stage. Hypotheses are named by their positions from 0, and stages are counted from 1.
/// A keeper may hold any numbers; the study decides whether it takes them.
#[derive(Clone, Copy, PartialEq, Eq, Debug)]
pub struct Look {
    pub hypothesis: u32,
    pub stage: u32,
    pub p: Ratio,
}

/// Why a call of a keeper was refused.
#[derive(Clone, Copy, PartialEq, Eq, Debug)]
pub enum KeeperFault {
    /// A failure that was counted.
    Fault,
    /// Out of memory.
    NoMemory,
}

impl From<NoMemory> for KeeperFault {
    ghost use Rattle.graph_io.specs.declared.keeper.KeeperFault.TheVariants.{NoMemory};

    ghost from_gives = { λ _ e. e ≡ NoMemory };

    fn from(_: NoMemory) -> KeeperFault {
        KeeperFault::NoMemory
    }
}

/// A keeper of looks, in their order. It may expose them to contracts. It counts its calls, and its faults: those that failed.
/// Neither count falls.
pub trait Keeper {
    ghost use Rattle.graph_io.specs.declared.keeper.Look.{Look};

    /// The looks, if contracts know them; else `None`.
    ghost looks: { Self → Option (Seq Look) };

    /// How often a call failed.
    ghost faults: { Self → ℕ };

    /// How many calls were made.
    ghost calls: { Self → ℕ };

    /// Appends all looks in their order to `into`. It is refused with `Fault` only if the count of faults rose. After a
    /// refusal, `into` stays as it was. The looks stay in each case.
    fn load(&mut self, alloc: Global, into: &mut List<Look>) -> Result<(), KeeperFault>
        ensures loaded { OnOk result (Loads (looks self.old) into.old into.new) }
        ensures unchanged { OnErr result (into.new ≡ into.old) }
        ensures kept { looks self.new ≡ looks self.old }
        ensures cause { IsCaused (faults self.old) (faults self.new) result }
        ensures turn { calls self.new ≡ calls self.old + 1 };

    /// Appends a look. It is refused with `Fault` only if the count of faults rose. After a refusal the looks stay as they were.
    fn append(&mut self, alloc: Global, look: &Look) -> Result<(), KeeperFault>
        ensures appended { OnOk result (looks self.new ≡ with_look (looks self.old) look.now) }
        ensures kept { OnErr result (looks self.new ≡ looks self.old) }
        ensures cause { IsCaused (faults self.old) (faults self.new) result }
        ensures turn { calls self.new ≡ calls self.old + 1 };

    /// The count of faults stays below 2^64.
    ghost counted: { (k : Self) → faults k < 2 ^ 64 };
}
