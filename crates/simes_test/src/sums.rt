//! The sums of the weights of a set up to a p-value.
ghost use Rattle.std.specs.Prelude.{◌≡◌, ◌<◌, ◌^◌, length};
ghost use Rattle.field_core.specs.declared.place.Op.TheVariants.{Add};
ghost use Rattle.field_core.specs.Kind.{ok_map, or_wide};
ghost use Rattle.field_core.specs.View.{terms};
ghost use Rattle.closed_test.specs.WeightsView.{weights_size, weight_at};
ghost use Rattle.simes_test.specs.SimesSums.{weight_up_to, sum_up_to};

use case_model::holds;
use closed_test::WeightTable;
use field_core::{Number, TooWide};
use fraction::Fraction;

/// Returns the weight of `i` in a set, if `i` is a member whose p-value is at most that of `j`, and else 0.
fn weight_up_to(
    weights: &WeightTable,
    p_values: &[Fraction],
    set: u32,
    j: usize,
    i: usize,
) -> Fraction
    requires set { set < 2 ^ weights_size weights.now }
    requires count { length p_values.now ≡ weights_size weights.now }
    requires j { j < weights_size weights.now }
    requires i { i < weights_size weights.now }
    ensures { result ≡ weight_up_to p_values.now (weight_at weights.now) set j i }
{
    if holds(set, i) && p_values[i] <= p_values[j] {
        weights.weight(set, i)
    } else {
        Fraction::zero()
    }
}

/// Returns the sum of the weights of the members of a set whose p-value is at most that of `j`, added by ascending position.
pub fn sum_up_to(
    weights: &WeightTable,
    p_values: &[Fraction],
    set: u32,
    j: usize,
) -> Result<Fraction, TooWide>
    requires set { set < 2 ^ weights_size weights.now }
    requires count { length p_values.now ≡ weights_size weights.now }
    requires j { j < weights_size weights.now }
    ensures { ok_map terms result ≡ or_wide Add (sum_up_to (weights_size weights.now) p_values.now (weight_at weights.now) set j) }
{
    let mut sum = Fraction::zero();
    for i in 0..weights.size() {
        sum = sum.add(&weight_up_to(weights, p_values, set, j, i))?;
    }
    Ok(sum)
}
