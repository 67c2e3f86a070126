//! Formats of documents.

use fraction::Fraction;

/// How a document is written.
#[derive(Clone, Copy, PartialEq, Eq, Debug)]
pub enum Format {
    Text,
    Csv,
    Json,
}

impl Format {
    ghost use Rattle.std.specs.Prelude.{◌≡◌};
    ghost use Rattle.command_words.specs.Table.{format_named};

    /// Returns the format of a name.
    #[tactic(auto, unfolding(crate::specs::Table::format_named))]
    pub(crate) fn named(name: &str) -> Option<Format>
        ensures { result ≡ format_named name.now }
    {
        match name {
            "text" => Some(Format::Text),
            "csv" => Some(Format::Csv),
            "json" => Some(Format::Json),
            _ => None,
        }
    }
}

/// How a case is written. A sheet doesn't have its level.
#[derive(Clone, Copy)]
pub enum CaseFormat {
    Text,
    Csv(Fraction),
    Json,
}
