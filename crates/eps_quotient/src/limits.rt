//! Limits of quotients of polynomials, with no quotient stored.
ghost use Rattle.std.specs.Prelude.{◌≡◌, ◌↔◌, ◌<ℤ◌, pos, int_div, IsTrue};
ghost use Rattle.field_core.specs.Exact.{value_of};
ghost use Rattle.field_core.specs.LimitParts.{limit_terms, IsUnit};
ghost use Rattle.field_core.specs.Polynomial.{IsNonZero};
ghost use Rattle.field_core.specs.Sized.{gcd_of};
ghost use Rattle.field_core.specs.View.{terms};
ghost use Rattle.eps_quotient.specs.Lowering.{norm};

use eps_poly::EpsPoly;
use field_core::{Ratio, Whole};

/// Whether a number is below 0.
fn is_below_zero(c: Whole) -> bool
    ensures { IsTrue result ↔ (c <ℤ pos 0) }
{
    c.value() < 0
}

/// Returns the fraction in lowest terms.
fn lowest_terms(num: Whole, den: Whole) -> Ratio
    requires { pos 0 <ℤ den }
    ensures { terms result ≡ record { num = int_div num (gcd_of num den); den = int_div den (gcd_of num den) } }
{
    let divisor = num.common_divisor(den);
    Ratio::of_wholes(num.over(divisor), den.over(divisor))
}

/// Returns the limit of the quotient of two polynomials, which is from 0 to 1, as epsilon decreases to 0. It is the quotient of
/// the coefficients of the least power of the denominator, so the norm of the quotient isn't computed.
pub fn limit(num: &EpsPoly, den: &EpsPoly) -> Ratio
    requires some { IsNonZero den.now }
    requires unit { IsUnit (value_of (norm num.now den.now)) }
    ensures { terms result ≡ limit_terms (norm num.now den.now) }
{
    // for the proof: the contract of `degree` shows that this is a polynomial
    let _ = num.degree();
    let power = den.order();
    let above = num.whole(power);
    let below = den.whole(power);
    if is_below_zero(below) {
        lowest_terms(above.negated(), below.negated())
    } else {
        lowest_terms(above, below)
    }
}
