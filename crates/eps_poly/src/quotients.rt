//! Coefficients of exact quotients.
ghost use Rattle.std.specs.Prelude.{◌≡◌, ◌≤◌, ◌<◌, ◌+◌, ℕ, ℤ, List, Some, IfSome, IsSomeAnd, length, true};
ghost use Rattle.field_core.specs.Polynomial.{coefficient, Same, IsNonZero};
ghost use Rattle.eps_poly.specs.Factors.{order};
ghost use Rattle.eps_poly.specs.Polynomials.{IsShort};
ghost use Rattle.eps_poly.specs.Written.{sized_product};

use crate::EpsPoly;
use crate::numbers::{divided, is_short};
use crate::products::part_of_product;
use field_core::Whole;

/// Returns the next coefficient of a quotient, if those of lower powers are known.
fn next(
    p: &EpsPoly,
    by: &EpsPoly,
    low: usize,
    known: &EpsPoly,
    power: usize,
    are_short: bool,
) -> Option<Whole>
    requires low { low ≡ order by.now }
    requires nonzero { IsNonZero by.now }
    requires known { are_short ≡ true → IsShort known.now }
    requires by { are_short ≡ true → IsShort by.now }
    requires power { power + low ≤ 32 }
    ensures { (q : List ℤ) → sized_product q by.now ≡ Some p.now
        → ((k : ℕ) → k < power → coefficient known.now k ≡ coefficient q k) → result ≡ Some (coefficient q power) }
{
    let at = power + low;
    let part = part_of_product(known, by, at, power, are_short)?;
    let rest = p.whole(at).checked_add(part.negated())?;
    divided(rest, by.whole(low))
}

/// Writes the only polynomial whose product with `by` can be `p`. It returns `None` only if there is none.
pub fn write_candidate(p: &EpsPoly, by: &EpsPoly, quotient: &mut EpsPoly) -> Option<()>
    requires { IsNonZero by.now }
    ensures only { (q : List ℤ) → sized_product q by.now ≡ Some p.now → IsSomeAnd result (λ _. Same quotient.new q) }
    ensures count { IfSome result (λ _. length quotient.new ≡ 33) }
{
    let low = by.order();
    quotient.clear();
    let mut are_short = by.is_short();
    for power in 0..(p.degree() + 1).saturating_sub(by.degree()) {
        let c = next(p, by, low, quotient, power, are_short)?;
        are_short &= is_short(c);
        quotient.put(power, c);
    }
    Some(())
}
