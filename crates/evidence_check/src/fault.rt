//! Why a text denotes no evidence.
use field_core::NoMemory;

/// What is wrong with a line of evidence.
#[derive(Clone, Copy, PartialEq, Eq, Debug)]
pub enum ProofKind {
    /// The first word isn't allowed here, or the name of a `keep` isn't the one that must be here, or the line is after `end`.
    Unexpected,
    /// The document ends before `end`.
    Ended,
    /// Too few or too many words.
    WordCount,
    /// The version is neither `1` nor `2`.
    Version,
    /// The name of a step isn't that of a hypothesis.
    UnknownName,
    /// The component or the name of a flow isn't the one that must be here.
    FlowPlace,
    /// The component or the name of an exit isn't the one that must be here.
    ExitPlace,
    /// The number isn't one of its form.
    Number,
}

/// Why a text denotes no evidence.
#[derive(Clone, Copy, Debug)]
pub enum ProofText {
    /// The number of the first line that isn't allowed at its place, from 1, and what is wrong with it. If the document ends
    /// too early it is the number of lines plus 1.
    Line(usize, ProofKind),
    /// Out of memory.
    NoMemory,
}

impl From<NoMemory> for ProofText {
    ghost use Rattle.std.specs.Prelude.{◌≡◌};
    ghost use Rattle.evidence_check.specs.declared.fault.ProofText.TheVariants.{NoMemory as OutOfMemory};

    ghost from_gives = { λ _ fault. fault ≡ OutOfMemory };

    fn from(_: NoMemory) -> ProofText {
        ProofText::NoMemory
    }
}
