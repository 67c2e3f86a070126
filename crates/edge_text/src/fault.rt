//! Why a text gives no case.
use crate::ExprFault;
use case_model::Refused;
use field_core::NoMemory;
use fraction::NumberFault;

/// What is wrong with a line. Within a line the first word is tested first, then the number of words, then what follows
/// from left to right.
#[derive(Clone, Copy, PartialEq, Eq, Debug)]
pub enum LineKind {
    /// The first word isn't one that may be here, or the name of a spend or of a table isn't.
    Unexpected,
    /// The document ends where a line must follow.
    Ended,
    /// `alpha`, `component` or `stages` has not exactly one word after it, `arrive` not three, `edge` or `table` fewer than
    /// three, `spend` fewer than two, or `p` none.
    WordCount,
    /// A name isn't that of a hypothesis.
    UnknownName,
    /// A whole number isn't 1 to 9 digits.
    Whole,
    /// A numeral is refused.
    Number(NumberFault),
    /// The expression of an edge is refused.
    Expr(ExprFault),
}

/// Why a text gives no case.
#[derive(Drop)]
pub enum TextFault {
    /// The first line that isn't allowed at its place, counted from 1 over all lines, and what is wrong with it. If the
    /// document ends too early it is the number of lines plus 1.
    Line(usize, LineKind),
    /// Each line is allowed, and the draft that they denote is refused.
    Case(Refused),
    /// Out of memory.
    NoMemory,
}

impl From<NoMemory> for TextFault {
    ghost use Rattle.std.specs.Prelude.{◌≡◌};
    ghost use Rattle.edge_text.specs.declared.fault.TextFault.TheVariants.{NoMemory as OutOfMemory};

    ghost from_gives = { λ _ fault. fault ≡ OutOfMemory };

    fn from(_: NoMemory) -> TextFault {
        TextFault::NoMemory
    }
}
