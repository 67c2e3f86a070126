//! Tests and written sums, one after another.
ghost use Rattle.std.specs.Prelude.{◌≡◌, ◌<◌, ℕ, Result as Answer};
ghost use Rattle.field_core.specs.Kind.{Parts, ok_map, sign_of};
ghost use Rattle.field_core.specs.Field.{not_less};
ghost use Rattle.evidence_check.specs.CheckSteps.{require, written_at, all_below};
ghost use Rattle.evidence_check.specs.WrittenCheck.{with_product, added};
ghost use Rattle.evidence_check.specs.declared.event.CheckEvent.{CheckEvent as Ended};

use crate::Reason;
use crate::event::CheckEvent;
use field_core::{Number, Place, TooWide};
use std::cmp::Ordering;

/// Returns the event that a condition is broken, for this reason, if its test failed.
#[tactic(auto, unfolding(crate::specs::CheckSteps::require))]
pub fn require(test: bool, reason: Reason) -> Result<(), CheckEvent>
    ensures { result ≡ require test reason }
{
    if test {
        Ok(())
    } else {
        Err(CheckEvent::Broken(reason))
    }
}

/// Makes a test at 0, 1, .. below `count`, up to the first event.
#[tactic(auto, using(crate::proofs::AllSteps::all_none, crate::proofs::AllSteps::all_next, crate::proofs::AllSteps::all_refused))]
pub fn all_below<T: Fn(usize) -> Result<(), CheckEvent>>(
    count: usize,
    test: T,
) -> Result<(), CheckEvent>
    requires { (i : ℕ) → i < count → T.pre test i }
    ensures { (f : ℕ → Answer (Unit {0}) Ended) → ((i : ℕ) (r : Answer (Unit {0}) Ended) → i < count
        → T.post test i r → r ≡ f i)
        → result ≡ all_below count f }
{
    for i in 0..count {
        test(i)?;
    }
    Ok(())
}

/// Whether a number isn't below 0.
pub fn is_nonnegative<F: Number>(x: &F) -> bool
    ensures { result ≡ not_less (sign_of (F.parts x.now)) }
{
    x.sign() != Ordering::Less
}

/// Returns the result of a written operation, a refusal as an event that names the component and the place.
#[tactic(auto, unfolding(crate::specs::CheckSteps::written_at))]
pub fn placed<A>(
    component: usize,
    place: Place,
    written: Result<A, TooWide>,
) -> Result<A, CheckEvent>
    ensures { result ≡ written_at component place written }
{
    match written {
        Ok(x) => Ok(x),
        Err(wide) => Err(CheckEvent::Undefined(wide.at(place).in_component(component))),
    }
}

/// Returns a sum plus the product of two numbers: the product is written, and then the sum.
pub fn with_product<F: Number>(
    component: usize,
    place: Place,
    sum: &F,
    x: &F,
    y: &F,
) -> Result<F, CheckEvent>
    ensures { ok_map F.parts result ≡ with_product F.kind component place (F.parts sum.now) (F.parts x.now) (F.parts y.now) }
{
    let product = placed(component, place, x.mul(y))?;
    placed(component, place, sum.add(&product))
}

/// Returns `start` plus the products of what `x` and `y` give at 0, 1, .. below `count`, added one after another.
#[tactic(auto, using(crate::proofs::AddedSteps::added_steps))]
pub fn added<F: Number, X: Fn(usize) -> F, Y: Fn(usize) -> F>(
    component: usize,
    place: Place,
    start: F,
    count: usize,
    x: X,
    y: Y,
) -> Result<F, CheckEvent>
    requires x { (e : ℕ) → e < count → X.pre x e }
    requires y { (e : ℕ) → e < count → Y.pre y e }
    ensures { (f g : ℕ → Parts) → ((e : ℕ) (v : F) → e < count → X.post x e v → F.parts v ≡ f e)
        → ((e : ℕ) (v : F) → e < count → Y.post y e v → F.parts v ≡ g e)
        → ok_map F.parts result ≡ added F.kind (λ _. component) place (F.parts start) f g count }
{
    let mut sum = start;
    for e in 0..count {
        sum = with_product(component, place, &sum, &x(e), &y(e))?;
    }
    Ok(sum)
}
