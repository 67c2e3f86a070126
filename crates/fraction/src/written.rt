//! The written operations on fractions. Whether the parts fit 64 bits is tested inline in the caller, which saves a call and a
//! copy of the result; only the operations themselves are calls.
ghost use Rattle.std.specs.Prelude.{◌≡◌, ◌≢◌, pos};
ghost use Rattle.std.specs.Option.{option_map};
ghost use Rattle.field_core.specs.View.{terms};
ghost use Rattle.fraction.specs.Written.{written_mul, written_add, opposite, inverse};

use crate::short::ShortRatio;
use field_core::Ratio;

/// Returns the written product, or nothing if it is refused.
#[inline(always)]
pub fn multiply(x: &Ratio, y: &Ratio) -> Option<Ratio>
    ensures { option_map terms result ≡ written_mul (terms x.now) (terms y.now) }
{
    match (ShortRatio::of(x), ShortRatio::of(y)) {
        (Some(x), Some(y)) => Some(x.times(y)),
        _ => multiply_wide(x, y),
    }
}

#[tactic(auto, unfolding(crate::specs::Written::written_mul))]
#[inline(never)]
fn multiply_wide(x: &Ratio, y: &Ratio) -> Option<Ratio>
    ensures { option_map terms result ≡ written_mul (terms x.now) (terms y.now) }
{
    let n1 = x.whole_num();
    let d1 = x.whole_den();
    let n2 = y.whole_num();
    let d2 = y.whole_den();
    let a = n1.common_divisor(d2);
    let b = n2.common_divisor(d1);
    let num = n1.over(a).checked_mul(n2.over(b))?;
    let den = d1.over(b).checked_mul(d2.over(a))?;
    Some(Ratio::of_wholes(num, den))
}

/// Returns the written sum, or nothing if it is refused.
#[inline(always)]
pub fn plus(x: &Ratio, y: &Ratio) -> Option<Ratio>
    ensures { option_map terms result ≡ written_add (terms x.now) (terms y.now) }
{
    match (ShortRatio::of(x), ShortRatio::of(y)) {
        (Some(x), Some(y)) => x.plus(y),
        _ => plus_wide(x, y),
    }
}

#[tactic(auto, unfolding(crate::specs::Written::written_add))]
#[inline(never)]
fn plus_wide(x: &Ratio, y: &Ratio) -> Option<Ratio>
    ensures { option_map terms result ≡ written_add (terms x.now) (terms y.now) }
{
    let d1 = x.whole_den();
    let d2 = y.whole_den();
    let g = d1.common_divisor(d2);
    let rest = d1.over(g);
    let u = x.whole_num().checked_mul(d2.over(g))?;
    let v = y.whole_num().checked_mul(rest)?;
    let t = u.checked_add(v)?;
    let h = t.common_divisor(g);
    let den = rest.checked_mul(d2.over(h))?;
    Some(Ratio::of_wholes(t.over(h), den))
}

#[tactic(auto, unfolding(crate::specs::Written::opposite))]
pub fn opposite(x: &Ratio) -> Ratio
    ensures { terms result ≡ opposite (terms x.now) }
{
    Ratio::of_wholes(x.whole_num().negated(), x.whole_den())
}

#[tactic(auto, unfolding(crate::specs::Written::inverse))]
pub fn inverse(x: &Ratio) -> Ratio
    requires { (terms x.now).num ≢ pos 0 }
    ensures { terms result ≡ inverse (terms x.now) }
{
    if x.num() < 0 {
        Ratio::of_wholes(x.whole_den().negated(), x.whole_num().negated())
    } else {
        Ratio::of_wholes(x.whole_den(), x.whole_num())
    }
}
