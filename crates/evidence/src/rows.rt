//! Rows of numbers, by hypothesis.
ghost use Rattle.std.specs.Prelude.{◌≡◌, ℕ, Result as Answer, IfOk, map, set, replicate};
ghost use Rattle.field_core.specs.declared.place.Wide.{Wide as Refused};
ghost use Rattle.field_core.specs.Kind.{Parts, ok_map};
ghost use Rattle.evidence.specs.FlowTables.{put_each};

use field_core::{List, NoMemory, Number, Wide};
use std::alloc::Global;

/// Returns a row of `count` zeros.
#[tactic(auto, using(std::proofs::lemmas::List::replicate_more, std::proofs::lemmas::List::map_push))]
pub fn zeros<F: Number>(alloc: Global, count: usize) -> Result<List<F>, NoMemory>
    ensures { IfOk result (λ row. map F.parts row ≡ replicate count F.kind.zero) }
{
    let mut row = List::new(alloc);
    for _ in 0..count {
        row.push(F::zero())?;
    }
    Ok(row)
}

/// Returns a copy of a row.
pub fn copy<F: Number>(alloc: Global, row: &[F]) -> Result<List<F>, NoMemory>
    ensures { IfOk result (λ copied. copied ≡ row.now) }
{
    let mut copied = List::new(alloc);
    copied.append(row)?;
    Ok(copied)
}

/// Puts a number at a place of a row, if the row has this place.
pub fn put<F: Number>(row: &mut List<F>, r: usize, number: F)
    ensures { row.new ≡ set row.old r number }
{
    if r < row.len() {
        row.set(r, number);
    }
}

/// Puts at places of a row what `step` gives for them, one after another, up to the first refusal.
pub fn put_each<F: Number, S: Fn(usize) -> Result<F, Wide>>(
    row: &mut List<F>,
    places: &[usize],
    step: S,
) -> Result<(), Wide>
    requires { (r : ℕ) → S.pre step r }
    ensures { (f : ℕ → Answer Parts Refused) → ((r : ℕ) (x : Answer F Refused) → S.post step r x → ok_map F.parts x ≡ f r)
        → ok_map (λ _. map F.parts row.new) result ≡ put_each f places.now (map F.parts row.old) }
{
    for &r in places {
        put(row, r, step(r)?);
    }
    Ok(())
}
