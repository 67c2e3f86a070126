//! Why steps give nothing.

use crate::refusal::Refusal;
use field_core::NoMemory;

/// Why a step gives nothing: it is refused, a source that it reads had a fault, its keeper had one, or it is out of memory.
#[derive(Drop)]
pub enum Stop {
    Refused(Refusal),
    ReadFault,
    KeeperFault,
    NoMemory,
}

impl Stop {
    ghost use Rattle.std.specs.Prelude.{◌≡◌};
    ghost use Rattle.answers.specs.Codes.{stop_code};
    ghost use Rattle.answers.specs.Lines.{stop_line};

    /// Returns the line that is printed for it.
    #[tactic(auto, unfolding(crate::specs::Lines::read_fault, crate::specs::Lines::keeper_fault, crate::specs::Lines::no_memory))]
    pub fn line(&self) -> &[u8]
        ensures { result.now ≡ stop_line self.now }
    {
        match self {
            Stop::Refused(refusal) => refusal.line.as_slice(),
            Stop::ReadFault => b"read fault\n",
            Stop::KeeperFault => b"keeper fault\n",
            Stop::NoMemory => b"no memory\n",
        }
    }

    /// Returns the status of the program for this stop.
    pub fn code(&self) -> u8
        ensures { result ≡ stop_code self.now }
    {
        match self {
            Stop::Refused(refusal) => refusal.cause.code(),
            Stop::ReadFault => 6,
            Stop::NoMemory => 8,
            Stop::KeeperFault => 9,
        }
    }
}

impl From<NoMemory> for Stop {
    ghost use Rattle.std.specs.Prelude.{◌≡◌};
    ghost use Rattle.answers.specs.declared.stop.Stop.TheVariants.{NoMemory};

    ghost from_gives = { λ _ e. e ≡ NoMemory };

    fn from(_: NoMemory) -> Stop {
        Stop::NoMemory
    }
}
