//! Why a text denotes no commands.
use edge_text::LineKind;
use field_core::NoMemory;

/// Why a text denotes no commands.
#[derive(Clone, Copy, PartialEq, Eq, Debug)]
pub enum CommandsFault {
    /// The first line that denotes no command, counted from 1 over all lines, and what is wrong with it.
    Line(usize, LineKind),
    /// Out of memory.
    NoMemory,
}

impl From<NoMemory> for CommandsFault {
    ghost use Rattle.std.specs.Prelude.{◌≡◌};
    ghost use Rattle.study_cli.specs.declared.fault.CommandsFault.TheVariants.{NoMemory as OutOfMemory};

    ghost from_gives = { λ _ fault. fault ≡ OutOfMemory };

    fn from(_: NoMemory) -> CommandsFault {
        CommandsFault::NoMemory
    }
}
