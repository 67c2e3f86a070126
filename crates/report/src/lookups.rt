//! Lookups that have a value at every place.
ghost use Rattle.std.specs.Prelude.{◌≡◌, [], get_or};
ghost use Rattle.case_model.specs.CaseView.{content};
ghost use Rattle.case_model.specs.Sums.{ratio_at};

use case_model::Case;
use field_core::Number;
use fraction::Fraction;

/// Returns the name of the hypothesis at a position, and an empty one past the last.
#[tactic(auto, using(std::proofs::lemmas::List::get_or_past))]
pub(crate) fn name_at(case: &Case, j: usize) -> &[u8]
    ensures { result.now ≡ get_or (content case.now).names j [] }
{
    if j < case.size() { case.name(j) } else { &[] }
}

/// Returns the fraction at a place, and 0 past the last.
#[tactic(auto, unfolding(case_model::specs::Sums::ratio_at))]
pub(crate) fn ratio_at(fractions: &[Fraction], place: usize) -> Fraction
    ensures { result ≡ ratio_at fractions.now place }
{
    if place < fractions.len() {
        fractions[place]
    } else {
        Fraction::zero()
    }
}
