//! Reading an edge expression.
ghost use Rattle.std.specs.Prelude.{◌≡◌};
ghost use Rattle.entries.specs.Entries.{entry_of};

use case_model::Entry;
use edge_expression::{ExprFault, parse};

/// Reads an edge expression: a polynomial in epsilon of degree at most 4, or the first fault of the text. It takes no
/// memory.
///
/// An expression is a sum of terms joined by `+` or `-`, perhaps with a sign before the first one. A term is a product of
/// decimals such as `1.5e-3`, of `\epsilon` with perhaps `^` and one digit, and of expressions in parentheses. Factors are
/// joined by `*` or `/`. A `*` may be left out before `\epsilon` and before a parenthesis. Factors group to the left, so
/// `1/2\epsilon` is half of epsilon. Spaces and tabs may be between all these.
///
/// The parts of each decimal, product, quotient and partial sum are at most 10^18 in lowest terms.
#[tactic(auto, using(crate::proofs::Entries::entry_ok, crate::proofs::Entries::entry_err))]
pub fn read_entry(text: &[u8]) -> Result<Entry, ExprFault>
    ensures value { result ≡ entry_of text.now }
{
    parse(text)
}
