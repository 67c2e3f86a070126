//! The table of commands.

use crate::argument::Argument;
use crate::format::Format;

/// A command, by its name alone.
#[derive(Clone, Copy, PartialEq, Eq, Debug)]
pub(crate) enum Verb {
    Test,
    Weights,
    Bounds,
    Simes,
    Evidence,
    Stages,
    Check,
    Canon,
    Catalogue,
    Sample,
    Study,
    Help,
}

impl Verb {
    ghost use Rattle.std.specs.Prelude.{◌≡◌};
    ghost use Rattle.std.specs.Option.{option_map};
    ghost use Rattle.command_words.specs.Table.{verb_named, options_of, operand_of, option_named, argument_of, reads, format_read};

    /// Returns the command of a name, but for `study`, which is done by a top call of its own.
    #[tactic(auto, unfolding(crate::specs::Table::verb_named))]
    pub(crate) fn named(name: &str) -> Option<Verb>
        ensures { result ≡ verb_named name.now }
    {
        match name {
            "test" => Some(Verb::Test),
            "weights" => Some(Verb::Weights),
            "bounds" => Some(Verb::Bounds),
            "simes" => Some(Verb::Simes),
            "evidence" => Some(Verb::Evidence),
            "stages" => Some(Verb::Stages),
            "check" => Some(Verb::Check),
            "canon" => Some(Verb::Canon),
            "catalogue" => Some(Verb::Catalogue),
            "sample" => Some(Verb::Sample),
            "help" => Some(Verb::Help),
            _ => None,
        }
    }

    /// Returns the options that the command takes.
    #[tactic(auto, unfolding(crate::specs::Table::options_of))]
    fn options(self) -> &'static [Argument]
        ensures { result.now ≡ options_of self }
    {
        match self {
            Verb::Test => &[Argument::Format, Argument::Alpha, Argument::Priority],
            Verb::Weights => &[Argument::Format, Argument::Alpha],
            Verb::Bounds => &[Argument::Format, Argument::Alpha],
            Verb::Simes => &[Argument::Format, Argument::Alpha],
            Verb::Evidence => &[Argument::Format, Argument::Alpha, Argument::Priority],
            Verb::Stages => &[Argument::Format],
            Verb::Check => &[Argument::Format, Argument::Alpha],
            Verb::Canon => &[Argument::Format, Argument::Alpha, Argument::To],
            Verb::Catalogue => &[Argument::Size, Argument::Second],
            Verb::Sample => &[Argument::Size, Argument::Seed],
            Verb::Study => &[Argument::Format, Argument::Store],
            Verb::Help => &[],
        }
    }

    /// Returns what a word without a name gives, if the command takes one.
    #[tactic(auto, unfolding(crate::specs::Table::operand_of))]
    fn operand(self) -> Option<Argument>
        ensures { result ≡ operand_of self }
    {
        match self {
            Verb::Catalogue => Some(Argument::Graph),
            Verb::Check | Verb::Study => Some(Argument::File),
            _ => None,
        }
    }

    /// Returns the option of a name, if the command takes it.
    #[tactic(auto, unfolding(crate::specs::Table::option_named))]
    fn option(self, name: &str) -> Option<Argument>
        ensures { result ≡ option_named self name.now }
    {
        self.options()
            .iter()
            .copied()
            .find(|argument| argument.name() == name)
    }

    /// Returns what the command is given by an option of a name, or by a word without one.
    pub(crate) fn argument(self, name: Option<&str>) -> Option<Argument>
        ensures { result ≡ argument_of self (option_map (λ text. text.now) name.entry) }
    {
        match name {
            Some(name) => self.option(name),
            None => self.operand(),
        }
    }

    /// Whether the command may read its case in a format.
    #[tactic(auto, unfolding(crate::specs::Table::reads))]
    fn reads(self, format: Format) -> bool
        ensures { result ≡ reads self format }
    {
        !matches!((self, format), (Verb::Stages | Verb::Study, Format::Csv))
    }

    /// Returns the format of a name, if the command may read its case in it.
    pub(crate) fn format(self, name: &str) -> Option<Format>
        ensures { result ≡ format_read self name.now }
    {
        let format = Format::named(name)?;
        if self.reads(format) {
            Some(format)
        } else {
            None
        }
    }
}
