//! Decimals: digits before and after a point.
ghost use Rattle.std.specs.Prelude.{◌≡◌, ◌^◌, ◌<◌, ◌≤◌, ◌↔◌, pos, ◌-ℤ◌, length, take, IsTrue};
ghost use Rattle.std.specs.Str.Parse.{digits_value};
ghost use Rattle.numerals.specs.Numeral.{AreDigits, without_leading_zeros, trailing_zeros, PassesLimit};
ghost use Rattle.numerals.specs.Sizes.{digits_in, IsScaled, GivesDecimal};

use crate::NumberFault;
use crate::digits::{MOST_DIGITS, extended, trailing_zeros, without_leading_zeros};
use crate::shift::Shift;
use crate::size::Size;

/// The digits of a decimal before and after its point.
#[derive(Clone, Copy)]
pub struct Decimal<'a> {
    pub whole: &'a [u8],
    pub fraction: &'a [u8],
}

impl<'a> Decimal<'a> {
    fn len(&self) -> u128
        ensures value { result ≡ length (digits_in self.now) }
        ensures small { result < 2 ^ 65 }
    {
        self.whole.len() as u128 + self.fraction.len() as u128
    }

    fn without_leading_zeros(&self) -> Decimal<'a>
        ensures { digits_in result ≡ without_leading_zeros (digits_in self.now) }
    {
        let whole = without_leading_zeros(self.whole);
        if whole.is_empty() {
            return Decimal {
                whole,
                fraction: without_leading_zeros(self.fraction),
            };
        }
        Decimal {
            whole,
            fraction: self.fraction,
        }
    }

    fn trailing_zeros(&self) -> u128
        ensures { result ≡ trailing_zeros (digits_in self.now) }
    {
        let behind = trailing_zeros(self.fraction);
        if behind < self.fraction.len() {
            behind as u128
        } else {
            behind as u128 + trailing_zeros(self.whole) as u128
        }
    }

    /// Returns the number that the first `len` digits of the decimal denote.
    fn number(&self, len: usize) -> u128
        requires digits { AreDigits (digits_in self.now) }
        requires few { len ≤ 38 }
        requires within { len ≤ length (digits_in self.now) }
        ensures value { result ≡ digits_value 10 (take len (digits_in self.now)) }
        ensures below { result < 10 ^ len }
    {
        let whole_len = len.min(self.whole.len());
        let whole = extended(0, &self.whole[..whole_len]);
        extended(whole, &self.fraction[..len - whole_len])
    }

    /// Returns the value of the decimal with the shift of its exponent, or `TooManyDigits`.
    pub fn value(&self, shift: Shift) -> Result<Size, NumberFault>
        requires { AreDigits (digits_in self.now) }
        ensures { GivesDecimal self.now shift result }
    {
        let down = self.fraction.len() as u128 + shift.down;
        let digits = self.without_leading_zeros();
        if digits.len() == 0 {
            return Ok(Size { num: 0, den: 1 });
        }
        let zeros = digits.trailing_zeros();
        scaled(&digits, digits.len() - zeros, shift.up + zeros, down)
    }
}

/// Returns ten to a power.
fn power(exponent: u128) -> u128
    requires { exponent ≤ 38 }
    ensures { result ≡ 10 ^ exponent }
{
    10u128.pow(exponent as u32)
}

/// Whether a number of `len` digits, multiplied by ten `up` times and divided by ten `down` times, passes the limit of digits.
fn passes_limit(len: u128, up: u128, down: u128) -> bool
    requires len { len < 2 ^ 101 }
    requires up { up < 2 ^ 101 }
    requires down { down < 2 ^ 101 }
    ensures { IsTrue result ↔ PassesLimit len (pos down -ℤ pos up) }
{
    let most = MOST_DIGITS as u128;
    len > most || down > up + most || len + up > down + most
}

/// Returns the number of the first `len` digits, multiplied by ten `up` times and divided by ten `down` times, or `TooManyDigits`.
fn scaled(digits: &Decimal, len: u128, up: u128, down: u128) -> Result<Size, NumberFault>
    requires digits { AreDigits (digits_in digits.now) }
    requires len { len < 2 ^ 101 }
    requires within { len ≤ length (digits_in digits.now) }
    requires up { up < 2 ^ 101 }
    requires down { down < 2 ^ 101 }
    ensures { IsScaled len (digits_value 10 (take len (digits_in digits.now))) (pos down -ℤ pos up) result }
{
    if passes_limit(len, up, down) {
        return Err(NumberFault::TooManyDigits);
    }
    let number = digits.number(len as usize);
    if up > down {
        Ok(Size {
            num: number * power(up - down),
            den: 1,
        })
    } else {
        Ok(Size {
            num: number,
            den: power(down - up),
        })
    }
}
