//! Tests of fractions: their signs and ranges, and how long their parts are.
ghost use Rattle.std.specs.Prelude.{◌≡◌, not};
ghost use Rattle.std.specs.List.{list_all};
ghost use Rattle.field_core.specs.Arithmetic.{number_zero};
ghost use Rattle.fraction.specs.View.{number_of};
ghost use Rattle.case_model.specs.Draft.{
  at_most,
  is_unit,
  is_short_level,
  is_short,
  is_short_p_value,
  is_level_range,
  is_level,
  is_p_value,
};
ghost use Rattle.case_model.specs.CaseFaults.{is_below_zero};

use field_core::Number;
use fraction::Fraction;

/// Whether `x` is below 0.
#[tactic(auto, using(crate::proofs::Comparisons::zero_and_one))]
pub fn is_below_zero(x: &Fraction) -> bool
    ensures { result ≡ is_below_zero x.now }
{
    *x < Fraction::zero()
}

/// Whether `x` is above 0.
#[tactic(auto, using(crate::proofs::Comparisons::zero_and_one))]
pub fn is_above_zero(x: &Fraction) -> bool
    ensures { result ≡ not (at_most (number_of x.now) number_zero) }
{
    *x > Fraction::zero()
}

/// Whether `x` is at most `y`.
#[tactic(auto, using(crate::proofs::Comparisons::orders))]
pub fn is_at_most(x: &Fraction, y: &Fraction) -> bool
    ensures { result ≡ at_most (number_of x.now) (number_of y.now) }
{
    *x <= *y
}

/// Whether `x` is from 0 to 1.
#[tactic(auto, using(crate::proofs::Comparisons::zero_and_one))]
pub fn is_unit(x: &Fraction) -> bool
    ensures { result ≡ is_unit (number_of x.now) }
{
    *x >= Fraction::zero() && *x <= Fraction::one()
}

/// Whether `x` is above 0 and at most 1.
#[tactic(auto, using(crate::proofs::Comparisons::zero_and_one))]
pub fn is_level_range(x: &Fraction) -> bool
    ensures { result ≡ is_level_range x.now }
{
    *x > Fraction::zero() && *x <= Fraction::one()
}

/// Whether the parts are at most 10,000.
pub fn is_short_level(x: &Fraction) -> bool
    ensures { result ≡ is_short_level x.now }
{
    x.is_within(10_000)
}

/// Whether the parts are at most 10^18.
pub fn is_short(x: &Fraction) -> bool
    ensures { result ≡ is_short x.now }
{
    x.is_within(1_000_000_000_000_000_000)
}

/// Whether the parts of each are at most 10^18.
pub fn are_short(fractions: &[Fraction]) -> bool
    ensures { result ≡ list_all is_short fractions.now }
{
    fractions.iter().all(is_short)
}

/// Whether the denominator is at most 10^30.
pub fn is_short_p_value(x: &Fraction) -> bool
    ensures { result ≡ is_short_p_value x.now }
{
    x.ratio().den().unsigned_abs() <= 1_000_000_000_000_000_000_000_000_000_000
}

/// Whether `x` is a level: above 0, at most 1, with parts of at most 10,000.
#[tactic(auto, unfolding(crate::specs::Draft::is_level))]
pub fn is_level(x: &Fraction) -> bool
    ensures { result ≡ is_level x.now }
{
    is_short_level(x) && is_level_range(x)
}

/// Whether `x` is a p-value: from 0 to 1, with a denominator of at most 10^30.
#[tactic(auto, unfolding(crate::specs::Draft::is_p_value))]
pub fn is_p_value(x: &Fraction) -> bool
    ensures { result ≡ is_p_value x.now }
{
    is_short_p_value(x) && is_unit(x)
}
