//! Written sums, whose parts may pass their sizes.
ghost use Rattle.std.specs.Prelude.{◌≡◌, ◌<◌, ℕ, List, length};
ghost use Rattle.field_core.specs.declared.place.Op.TheVariants.{Add};
ghost use Rattle.field_core.specs.declared.ratio.Ratio.{Ratio};
ghost use Rattle.field_core.specs.Kind.{ok_map, or_wide};
ghost use Rattle.field_core.specs.View.{terms};
ghost use Rattle.case_model.specs.Sums.{ratio_at, written_sum};
ghost use Rattle.case_model.specs.CaseFaults.{total_fault};

use crate::CaseFault;
use field_core::{Number, Place, TooWide};
use fraction::Fraction;

/// Returns the sum of `count` fractions, added one after another, or that the written sum is too wide.
pub fn written_sum<F: Fn(usize) -> Fraction>(count: usize, at: F) -> Result<Fraction, TooWide>
    requires { (i : ℕ) → i < count → F.pre at i }
    ensures { (f : ℕ → Ratio) → ((i : ℕ) (x : Ratio) → i < count → F.post at i x → x ≡ f i)
        → ok_map terms result ≡ or_wide Add (written_sum count f) }
{
    let mut sum = Fraction::zero();
    for i in 0..count {
        sum = sum.add(&at(i))?;
    }
    Ok(sum)
}

/// Returns the fault of the sum of `count` fractions: that it is too wide, or else that it is above 1.
pub fn total_fault<F: Fn(usize) -> Fraction>(
    count: usize,
    at: F,
    component: usize,
    place: Place,
    above: CaseFault,
) -> Option<CaseFault>
    requires { (i : ℕ) → i < count → F.pre at i }
    ensures { (xs : List Ratio) → count ≡ length xs → ((i : ℕ) (x : Ratio) → i < count → F.post at i x
        → x ≡ ratio_at xs i) → result ≡ total_fault xs component place above }
{
    match written_sum(count, at) {
        Ok(sum) => (sum > Fraction::one()).then_some(above),
        Err(wide) => Some(CaseFault::Wide(wide.at(place).in_component(component))),
    }
}
