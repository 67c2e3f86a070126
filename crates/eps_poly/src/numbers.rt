//! Whole numbers.
ghost use Rattle.std.specs.Prelude.{◌≡◌, ◌≢◌, ◌↔◌, ◌*ℤ◌, ◌<ℤ◌, ℤ, pos, unsigned_abs, FitsSigned, IsTrue};
ghost use Rattle.std.specs.Int.{w64};
ghost use Rattle.field_core.specs.Kind.{is_zero_integer};

use field_core::Whole;

/// Whether the number is 0.
pub fn is_zero(c: Whole) -> bool
    ensures { result ≡ is_zero_integer c }
{
    c.value() == 0
}

/// Whether the number is below 0.
pub fn is_below_zero(c: Whole) -> bool
    ensures { IsTrue result ↔ (c <ℤ pos 0) }
{
    c.value() < 0
}

/// Whether the number fits 64 bits.
pub fn is_short(c: Whole) -> bool
    ensures { IsTrue result ↔ FitsSigned w64 c }
{
    c.short().is_some()
}

/// Returns the absolute value.
pub fn size(c: Whole) -> u128
    ensures { result ≡ unsigned_abs c }
{
    c.value().unsigned_abs()
}

/// Returns the number that times `by` is `product`, if there is one.
pub fn divided(product: Whole, by: Whole) -> Option<Whole>
    requires { by ≢ pos 0 }
    ensures { (x : ℤ) → (result ≡ Some x) ↔ (x *ℤ by ≡ product) }
{
    let over = product.value();
    let under = by.value();
    if over % under == 0 {
        Some(Whole::new(over / under))
    } else {
        None
    }
}
