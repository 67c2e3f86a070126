//! The written operations on fractions whose parts fit 64 bits.
ghost use Rattle.std.specs.Prelude.{◌≡◌, ◌<ℤ◌, pos, IfSome};
ghost use Rattle.field_core.specs.Terms.{IsReduced};

use field_core::{Ratio, Short, Whole};

/// Returns a number above 0 as a `Short`, if it fits 64 bits. One comparison decides this, at half the cost of `Whole::short`.
fn positive_short(n: Whole) -> Option<Short>
    requires { pos 0 <ℤ n }
    ensures { IfSome result (λ s. s ≡ n) }
{
    if n.value() <= i64::MAX as i128 {
        Some(Short::new(n.value() as i64))
    } else {
        None
    }
}

/// A fraction in lowest terms whose parts fit 64 bits.
#[derive(Clone, Copy)]
pub struct ShortRatio {
    num: Short,
    den: Short,
    ghost valid: { IsReduced (record { num = num; den = den }) },
}

impl ShortRatio {
    ghost use Rattle.std.specs.Prelude.{◌≡◌, Some, IfSome};
    ghost use Rattle.std.specs.Option.{option_map};
    ghost use Rattle.field_core.specs.View.{terms};
    ghost use Rattle.fraction.specs.Short.{short_terms};
    ghost use Rattle.fraction.specs.Written.{written_mul, written_add};

    /// Returns a fraction as a `ShortRatio`, if its parts fit 64 bits.
    #[inline(always)]
    pub fn of(x: &Ratio) -> Option<ShortRatio>
        ensures { IfSome result (λ s. short_terms s ≡ terms x.now) }
    {
        match (x.whole_num().short(), positive_short(x.whole_den())) {
            (Some(num), Some(den)) => Some(ShortRatio { num, den }),
            _ => None,
        }
    }

    /// Returns the fraction as a `Ratio`.
    fn ratio(self) -> Ratio
        ensures { terms result ≡ short_terms self }
    {
        Ratio::of_wholes(self.num.whole(), self.den.whole())
    }

    /// Returns the written product, which is never refused.
    #[tactic(auto, using(crate::proofs::AtOnce::zero_products), unfolding(crate::specs::Written::written_mul))]
    #[inline(never)]
    pub fn times(self, other: ShortRatio) -> Ratio
        ensures { Some (terms result) ≡ written_mul (short_terms self) (short_terms other) }
    {
        if self.num.is_zero() {
            return self.ratio();
        }
        if other.num.is_zero() {
            return other.ratio();
        }
        let a = self.num.common_divisor(other.den);
        let b = other.num.common_divisor(self.den);
        let num = self.num.over(a).times(other.num.over(b));
        let den = self.den.over(b).times(other.den.over(a));
        Ratio::of_wholes(num, den)
    }

    /// Returns the written sum, or nothing if it is refused.
    #[tactic(auto, using(crate::proofs::AtOnce::zero_plus), unfolding(crate::specs::Written::written_add))]
    #[inline(never)]
    pub fn plus(self, other: ShortRatio) -> Option<Ratio>
        ensures { option_map terms result ≡ written_add (short_terms self) (short_terms other) }
    {
        if self.num.is_zero() {
            return Some(other.ratio());
        }
        if other.num.is_zero() {
            return Some(self.ratio());
        }
        let g = self.den.common_divisor(other.den);
        let rest = self.den.over(g);
        let u = self.num.times(other.den.over(g));
        let v = other.num.times(rest);
        let t = u.checked_add(v)?;
        if let Some(t) = t.short() {
            let h = t.common_divisor(g);
            let den = rest.times(other.den.over(h));
            return Some(Ratio::of_wholes(t.over(h).whole(), den));
        }
        let h = t.common_divisor(g.whole());
        let den = rest.whole().checked_mul(other.den.whole().over(h))?;
        Some(Ratio::of_wholes(t.over(h), den))
    }
}
