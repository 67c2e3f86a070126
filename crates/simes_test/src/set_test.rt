//! Simes' test of one set.
ghost use Rattle.std.specs.Prelude.{◌≡◌, ◌<◌, ◌^◌, true, length, IfOk, IfErr};
ghost use Rattle.std.specs.List.{list_all};
ghost use Rattle.case_model.specs.Draft.{is_level, is_p_value};
ghost use Rattle.closed_test.specs.WeightsView.{weights_size, weight_at};
ghost use Rattle.simes_test.specs.SimesSums.{IsWideSum, IsWideMember};
ghost use Rattle.simes_test.specs.Tested.{IsMemberTested, IsTested};

use crate::sums::sum_up_to;
use case_model::{holds, passes};
use closed_test::WeightTable;
use field_core::{Place, WideAt};
use fraction::Fraction;

/// Returns whether the p-value of `j` passes at its sum in a set, or the undefined operation of this sum.
fn member_passes(
    weights: &WeightTable,
    p_values: &[Fraction],
    alpha: &Fraction,
    set: u32,
    j: usize,
) -> Result<bool, WideAt>
    requires set { set < 2 ^ weights_size weights.now }
    requires count { length p_values.now ≡ weights_size weights.now }
    requires p_values { list_all is_p_value p_values.now ≡ true }
    requires alpha { is_level alpha.now ≡ true }
    requires j { j < weights_size weights.now }
    ensures tested { IfOk result (IsMemberTested (weights_size weights.now) p_values.now (weight_at weights.now) alpha.now set j) }
    ensures wide { IfErr result (IsWideSum (weights_size weights.now) p_values.now (weight_at weights.now) set j) }
{
    match sum_up_to(weights, p_values, set, j) {
        Ok(sum) => Ok(passes(&p_values[j], &sum, alpha)),
        Err(wide) => Err(wide.at(Place::Level(j)).in_component(0)),
    }
}

/// Returns whether Simes' test rejects a set, or the undefined operation of the first sum that isn't defined.
pub fn is_rejected(
    weights: &WeightTable,
    p_values: &[Fraction],
    alpha: &Fraction,
    set: u32,
) -> Result<bool, WideAt>
    requires set { set < 2 ^ weights_size weights.now }
    requires count { length p_values.now ≡ weights_size weights.now }
    requires p_values { list_all is_p_value p_values.now ≡ true }
    requires alpha { is_level alpha.now ≡ true }
    ensures tested { IfOk result (IsTested (weights_size weights.now) p_values.now (weight_at weights.now) alpha.now set) }
    ensures wide { IfErr result (IsWideMember (weights_size weights.now) p_values.now (weight_at weights.now) set) }
{
    let mut rejected = false;
    for j in 0..weights.size() {
        if holds(set, j) && member_passes(weights, p_values, alpha, set, j)? {
            rejected = true;
        }
    }
    Ok(rejected)
}
