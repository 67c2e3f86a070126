//! Coefficients of products.
ghost use Rattle.std.specs.Prelude.{◌≡◌, ◌≤◌, ◌+◌, ◌*ℤ◌, true};
ghost use Rattle.field_core.specs.Polynomial.{coefficient};
ghost use Rattle.field_core.specs.Sized.{sized};
ghost use Rattle.eps_poly.specs.Polynomials.{IsShort};
ghost use Rattle.eps_poly.specs.Written.{written_coefficient};

use crate::EpsPoly;
use crate::numbers::is_zero;
use field_core::Whole;

/// Returns the product of the coefficients of the powers `first` and `second`, or nothing if it is too wide. `are_short` may be
/// set only if all coefficients of both factors fit 64 bits; then it never is. A product by 0 is not multiplied out.
fn product_at(
    p: &EpsPoly,
    q: &EpsPoly,
    first: usize,
    second: usize,
    are_short: bool,
) -> Option<Whole>
    requires first { first ≤ 32 }
    requires second { second ≤ 32 }
    requires p { are_short ≡ true → IsShort p.now }
    requires q { are_short ≡ true → IsShort q.now }
    ensures { result ≡ sized (coefficient p.now first *ℤ coefficient q.now second) }
{
    if are_short {
        return Some(p.short(first).times(q.short(second)));
    }
    let left = p.whole(first);
    let right = q.whole(second);
    if is_zero(left) || is_zero(right) {
        return Some(Whole::new(0));
    }
    left.checked_mul(right)
}

/// Returns what the coefficients below `count` of the first factor add to the coefficient of `power` in the product, or nothing
/// if a part of that is too wide.
#[tactic(auto, using(crate::proofs::ProductLaws::coefficient_none))]
pub fn part_of_product(
    p: &EpsPoly,
    q: &EpsPoly,
    power: usize,
    count: usize,
    are_short: bool,
) -> Option<Whole>
    requires power { power ≤ 32 }
    requires count { count ≤ power + 1 }
    requires first { are_short ≡ true → IsShort p.now }
    requires second { are_short ≡ true → IsShort q.now }
    ensures { result ≡ written_coefficient p.now q.now power count }
{
    let mut sum = Whole::new(0);
    for first in 0..count {
        let product = product_at(p, q, first, power - first, are_short)?;
        sum = sum.checked_add(product)?;
    }
    Some(sum)
}
