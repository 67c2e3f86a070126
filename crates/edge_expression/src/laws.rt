//! Laws of edge expressions: what they mean, and that the texts of entries are expressions of these entries.
ghost use Rattle.edge_expression.specs.ExpressionStatements.{EntriesAreMeant, EntryTextsReadBack};

/// An entry is the number that its expression means: the sum, the product and the quotient of numbers and of powers of
/// epsilon.
#[tactic(auto, using(crate::proofs::EntryMeanings::entry_is_meant))]
pub fn entries_are_meant()
    ensures { EntriesAreMeant }
{}

/// The text of an entry with parts of at most 10^18 is an expression of that entry.
#[tactic(auto, using(crate::proofs::EntriesReadBack::entry_reads_back))]
pub fn entry_texts_read_back()
    ensures { EntryTextsReadBack }
{}
