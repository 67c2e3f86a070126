//! Arguments of commands.

/// What a command may be given, without its value: by an option `--name`, or by a word without a name.
#[derive(Clone, Copy, PartialEq, Eq, Debug)]
pub(crate) enum Argument {
    Format,
    Alpha,
    Priority,
    To,
    Size,
    Seed,
    Graph,
    Second,
    File,
    Store,
}

impl Argument {
    ghost use Rattle.std.specs.Prelude.{◌≡◌};
    ghost use Rattle.command_words.specs.Table.{argument_name};

    /// Returns the name of the argument.
    #[tactic(auto, unfolding(crate::specs::Table::argument_name))]
    pub(crate) fn name(self) -> &'static str
        ensures { result.now ≡ argument_name self }
    {
        match self {
            Argument::Format => "form",
            Argument::Alpha => "alpha",
            Argument::Priority => "priority",
            Argument::To => "to",
            Argument::Size => "size",
            Argument::Seed => "seed",
            Argument::Graph => "graph",
            Argument::Second => "second",
            Argument::File => "file",
            Argument::Store => "store",
        }
    }
}
