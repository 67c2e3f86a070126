//! Rows of numbers. What is past their end is 0.
ghost use Rattle.std.specs.Prelude.{◌≡◌, [], map, get_or};
ghost use Rattle.evidence_check.specs.EvidenceParts.{numbers_at};

use field_core::{List, Number};

/// Returns the number at a place, and 0 past the end.
#[tactic(auto, unfolding(crate::specs::EvidenceParts::numbers_at))]
pub fn number<F: Number>(numbers: &[F], e: usize) -> F
    ensures { F.parts result ≡ numbers_at F.kind (map F.parts numbers.now) e }
{
    if e < numbers.len() {
        numbers[e]
    } else {
        F::zero()
    }
}

/// Returns a row of a table, and an empty one past the end.
pub fn row<F>(table: &List<List<F>>, l: usize) -> &[F]
    ensures { result.now ≡ get_or table.now l [] }
{
    let rows = table.as_slice();
    if l < rows.len() {
        rows[l].as_slice()
    } else {
        &[]
    }
}
