//! The levels of stages, and whether p-values meet them.
ghost use Rattle.std.specs.Prelude.{◌≡◌, ◌≤◌, ◌-◌, ◌&&◌, ◌↔◌, IsTrue, not, true, slice_get};
ghost use Rattle.std.specs.Option.{option_and_then};
ghost use Rattle.field_core.specs.Arithmetic.{number_zero, ◌*ε◌};
ghost use Rattle.field_core.specs.View.{terms};
ghost use Rattle.fraction.specs.Tests.{is_within};
ghost use Rattle.fraction.specs.View.{number_of};
ghost use Rattle.case_model.specs.Draft.{at_most, is_level, is_p_value, is_short_level};
ghost use Rattle.case_model.specs.Spends.{last_step};
ghost use Rattle.case_model.specs.StagedTest.{MeetsLevel};

use crate::SpendStep;
use crate::fraction_tests::{is_above_zero, is_at_most};
use field_core::Number;
use fraction::Fraction;

/// Returns the fraction of a stage, from 1, in a list of them, if it has one.
pub fn at_stage(fractions: &[Fraction], t: usize) -> Option<Fraction>
    requires { 1 ≤ t }
    ensures { result ≡ slice_get fractions.now (t - 1) }
{
    fractions.get(t - 1).copied()
}

/// Returns the level of a stage, from 1, in the last step that a weight reaches. It is `None` if the weight reaches no step, or
/// that step has no level for the stage.
pub fn table_level(steps: &[SpendStep], t: usize, weight: &Fraction) -> Option<Fraction>
    requires { 1 ≤ t }
    ensures { result ≡ option_and_then (λ s. slice_get s.levels (t - 1)) (last_step steps.now (number_of weight.now)) }
{
    for n in (0..steps.len()).rev() {
        let step = &steps[n];
        if is_at_most(&step.from, weight) {
            return at_stage(step.levels.as_slice(), t);
        }
    }
    None
}

/// Whether a p-value meets a level at a weight: the level and the weight are above 0, and the p-value is at most the level.
pub fn meets_level(level: &Fraction, weight: &Fraction, p: &Fraction) -> bool
    ensures { result ≡ (not (at_most (number_of weight.now) number_zero) && not
        (at_most (number_of level.now) number_zero) && at_most (number_of p.now) (number_of level.now)) }
{
    is_above_zero(weight) && is_above_zero(level) && is_at_most(p, level)
}

/// Returns the level of a stage at the weight 1, which is a fraction of the level of the case. Its parts are at most 10^8.
fn full_level(fraction: &Fraction, alpha: &Fraction) -> Fraction
    requires fraction { is_short_level fraction.now ≡ true }
    requires alpha { is_level alpha.now ≡ true }
    ensures value { number_of result ≡ number_of fraction.now *ε number_of alpha.now }
    ensures short { is_within 100000000 (terms result) ≡ true }
{
    match fraction.mul(alpha) {
        Ok(level) => level,
        Err(_) => unreachable!(),
    }
}

/// Returns the least weight at which a p-value is at most a level times the weight.
fn weight_for(p: &Fraction, level: &Fraction) -> Fraction
    requires p { is_p_value p.now ≡ true }
    requires short { is_within 100000000 (terms level.now) ≡ true }
    requires some { not (at_most (number_of level.now) number_zero) ≡ true }
    ensures { number_of result *ε number_of level.now ≡ number_of p.now }
{
    match p.div(level) {
        Ok(weight) => weight,
        Err(_) => unreachable!(),
    }
}

/// Whether a p-value meets the level of a stage at a weight if a fraction of the level is spent. `p` over the fraction times
/// `alpha` has parts of at most 10^38, so nothing is refused.
pub fn meets_fraction(
    fraction: &Fraction,
    alpha: &Fraction,
    weight: &Fraction,
    p: &Fraction,
) -> bool
    requires short { is_short_level fraction.now ≡ true }
    requires alpha { is_level alpha.now ≡ true }
    requires p { is_p_value p.now ≡ true }
    ensures { IsTrue result ↔ MeetsLevel ((number_of fraction.now *ε number_of weight.now) *ε number_of alpha.now)
        (number_of weight.now) (number_of p.now) }
{
    let level = full_level(fraction, alpha);
    if is_above_zero(weight) {
        if is_above_zero(&level) {
            return is_at_most(&weight_for(p, &level), weight);
        }
    }
    false
}
