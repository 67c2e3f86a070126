//! What a double is read as.
ghost use Rattle.std.specs.Prelude.{◌≡◌, ◌*◌, ◌^◌, ◌<◌, ◌≤◌};
ghost use Rattle.typed_numbers.specs.Rules.{IsReadAs};
ghost use Rattle.typed_numbers.specs.Readings.{reading_of};

use crate::decimals::{rounded_up, shortest};
use crate::intervals::Interval;
use crate::simplest::simplest;
use fraction::Fraction;

/// The bits of 1.
const ONE: u64 = 0x3ff0_0000_0000_0000;

/// The bits of minus zero.
const MINUS_ZERO: u64 = 0x8000_0000_0000_0000;

/// 10 to the 30.
const TEN_TO_30: u128 = 1_000_000_000_000_000_000_000_000_000_000;

/// Returns numerator and denominator of what a double from 0 to 1 is read as, not always in lowest terms.
fn parts(bits: u64) -> (u128, u128)
    requires { bits ≤ 0x3ff0000000000000 }
    ensures { IsReadAs bits result.0 result.1 }
{
    if bits == 0 {
        return (0, 1);
    }
    if bits == ONE {
        return (1, 1);
    }
    let x = Interval::of(bits);
    if let Some(f) = simplest(x) {
        return f;
    }
    if let Some(f) = shortest(x) {
        return f;
    }
    (rounded_up(x), TEN_TO_30)
}

/// Returns what a double, given by its bits, is read as: nothing for a NaN, an infinity, a value below 0 or above 1.
pub fn reading(bits: u64) -> Option<Fraction>
    ensures result { result ≡ reading_of bits }
{
    if bits > ONE && bits != MINUS_ZERO {
        return None;
    }
    let (num, den) = parts(bits % MINUS_ZERO);
    Fraction::new(num as i128, den as i128).ok()
}
