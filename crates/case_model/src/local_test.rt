//! The local test of one hypothesis.
ghost use Rattle.std.specs.Prelude.{◌≡◌, ◌↔◌, IsTrue, true};
ghost use Rattle.field_core.specs.Arithmetic.{◌*ε◌};
ghost use Rattle.field_core.specs.declared.ratio.Ratio.{Ratio};
ghost use Rattle.fraction.specs.View.{number_of};
ghost use Rattle.case_model.specs.Draft.{is_level, is_p_value};
ghost use Rattle.case_model.specs.ClosedTest.{Passes};

use field_core::Number;
use fraction::Fraction;

/// Returns p / alpha, which is the least weight at which a p-value passes at a level, if it is above 0. `p` is from 0 to 1 with a
/// denominator of at most 10^30, and `alpha` is a level with parts of at most 10,000. So p / alpha has parts of at most 10^34, and
/// nothing is refused.
pub fn least_weight(p: &Fraction, alpha: &Fraction) -> Fraction
    requires p { is_p_value p.now ≡ true }
    requires alpha { is_level alpha.now ≡ true }
    ensures { number_of result *ε number_of alpha.now ≡ number_of p.now }
{
    match p.div(alpha) {
        Ok(weight) => weight,
        Err(_) => unreachable!(),
    }
}

/// Whether a p-value passes at a weight, by what `least_weight` returns for it: the weight is above 0 and at least that.
pub fn passes_from(least: &Fraction, weight: &Fraction) -> bool
    ensures { (p alpha : Ratio) → is_level alpha ≡ true → number_of least.now *ε number_of alpha ≡ number_of p
        → IsTrue result ↔ Passes (number_of p) (number_of weight.now) (number_of alpha) }
{
    *weight > Fraction::zero() && *least <= *weight
}

/// Whether a p-value passes at a weight: the weight is above 0 and the p-value is at most weight times alpha.
pub fn passes(p: &Fraction, weight: &Fraction, alpha: &Fraction) -> bool
    requires p { is_p_value p.now ≡ true }
    requires alpha { is_level alpha.now ≡ true }
    ensures { IsTrue result ↔ Passes (number_of p.now) (number_of weight.now) (number_of alpha.now) }
{
    passes_from(&least_weight(p, alpha), weight)
}
