//! The written operations on quotients.
ghost use Rattle.std.specs.Prelude.{◌≡◌, false};
ghost use Rattle.std.specs.Option.{option_map};
ghost use Rattle.field_core.specs.Kind.{is_zero};
ghost use Rattle.field_core.specs.Polynomial.{IsNonZero};
ghost use Rattle.eps_quotient.specs.Quotients.{inverse, product_of, sum_of, sum_over, written_product, written_sum};
ghost use Rattle.eps_quotient.specs.View.{pair_parts};

use crate::lower::{lower, norm};
use crate::pair::Pair;
use eps_poly::EpsPoly;

/// Returns the inverse of a quotient that isn't 0.
#[tactic(auto, unfolding(crate::specs::Quotients::inverse, field_core::specs::Kind::is_zero))]
fn inverse(x: &Pair) -> Pair
    requires { is_zero (pair_parts x.now) ≡ false }
    ensures { pair_parts result ≡ inverse (pair_parts x.now) }
{
    norm(&x.denominator, &x.numerator)
}

/// Returns the product of a/b and c/e, as ac over eb.
#[tactic(auto, unfolding(crate::specs::Quotients::product_of))]
fn product_of(x: &Pair, y: &Pair) -> Option<Pair>
    ensures { option_map pair_parts result ≡ product_of (pair_parts x.now) (pair_parts y.now) }
{
    let numerator = x.numerator.checked_mul(&y.numerator)?;
    let denominator = y.denominator.checked_mul(&x.denominator)?;
    Some(norm(&numerator, &denominator))
}

/// Returns the written product, or nothing if it is refused.
#[tactic(auto, unfolding(crate::specs::Quotients::written_product))]
pub fn product(x: &Pair, y: &Pair) -> Option<Pair>
    ensures { option_map pair_parts result ≡ written_product (pair_parts x.now) (pair_parts y.now) }
{
    if x.is_zero() || y.is_zero() {
        Some(Pair::zero())
    } else if x.is_one() {
        Some(*y)
    } else if y.is_one() {
        Some(*x)
    } else {
        product_of(
            &lower(&x.numerator, &y.denominator),
            &lower(&y.numerator, &x.denominator),
        )
    }
}

/// Returns the written quotient, or nothing if it is refused. A division of 0 and a division by 1/1 have no written part.
pub fn quotient(x: &Pair, y: &Pair) -> Option<Pair>
    requires { is_zero (pair_parts y.now) ≡ false }
    ensures { option_map pair_parts result ≡ written_product (pair_parts x.now) (inverse (pair_parts y.now)) }
{
    if x.is_zero() {
        Some(Pair::zero())
    } else if y.is_one() {
        Some(*x)
    } else {
        product(x, &inverse(y))
    }
}

/// Returns the written sum of n/d and m/d.
#[tactic(auto, unfolding(crate::specs::Quotients::sum_over))]
fn sum_over(n: &EpsPoly, m: &EpsPoly, d: &EpsPoly) -> Option<Pair>
    requires { IsNonZero d.now }
    ensures { option_map pair_parts result ≡ sum_over n.now m.now d.now }
{
    Some(norm(&n.checked_add(m)?, d))
}

/// Returns the written sum of two quotients, where `e` is the quotient of their denominators, lowered.
#[tactic(auto, unfolding(crate::specs::Quotients::sum_of))]
fn sum_of(x: &Pair, y: &Pair, e: &Pair) -> Option<Pair>
    ensures { option_map pair_parts result ≡ sum_of (pair_parts x.now) (pair_parts y.now) (pair_parts e.now) }
{
    let u = x.numerator.checked_mul(&e.denominator)?;
    let v = y.numerator.checked_mul(&e.numerator)?;
    let d = x.denominator.checked_mul(&e.denominator)?;
    sum_over(&u, &v, &d)
}

/// Returns the written sum, or nothing if it is refused.
#[tactic(auto, unfolding(crate::specs::Quotients::written_sum))]
pub fn sum(x: &Pair, y: &Pair) -> Option<Pair>
    ensures { option_map pair_parts result ≡ written_sum (pair_parts x.now) (pair_parts y.now) }
{
    if x.is_zero() {
        Some(*y)
    } else if y.is_zero() {
        Some(*x)
    } else if x.denominator == y.denominator {
        sum_over(&x.numerator, &y.numerator, &x.denominator)
    } else {
        sum_of(x, y, &lower(&x.denominator, &y.denominator))
    }
}
