//! The value of what follows the sign of a numeral.
ghost use Rattle.numerals.specs.Numeral.{AreDigits, Pair};
ghost use Rattle.numerals.specs.Sizes.{GivesShift, IsBodySize, GivesBody};

use crate::NumberFault;
use crate::decimal::Decimal;
use crate::digits::{
    MOST_DIGITS, after_byte, number, number_to_far, split_digits, split_sign, without_leading_zeros,
};
use crate::shift::Shift;
use crate::size::Size;

/// Returns the quotient of two numbers that are given by their digits, or `ZeroDenominator` or `TooManyDigits`.
fn pair(over: &[u8], under: &[u8]) -> Result<Size, NumberFault>
    requires over { AreDigits over.now }
    requires under { AreDigits under.now }
    ensures { IsBodySize (Pair over.now under.now) result }
{
    let over = without_leading_zeros(over);
    let under = without_leading_zeros(under);
    if under.is_empty() {
        return Err(NumberFault::ZeroDenominator);
    }
    if over.len() > MOST_DIGITS || under.len() > MOST_DIGITS {
        return Err(NumberFault::TooManyDigits);
    }
    Ok(Size {
        num: number(over),
        den: number(under),
    })
}

/// Returns the shift that an exponent makes; the shift of an empty text is 0.
fn shift(exponent: &[u8]) -> Shift
    ensures { GivesShift exponent.now result }
{
    let [_, signed @ ..] = exponent else {
        return Shift { up: 0, down: 0 };
    };
    let (negative, unsigned) = split_sign(signed);
    let (digits, _) = split_digits(unsigned);
    let size = number_to_far(digits);
    if negative {
        return Shift { up: 0, down: size };
    }
    Shift { up: size, down: 0 }
}

/// Returns the value of what follows the sign of a numeral, or `ZeroDenominator` or `TooManyDigits`.
pub fn value(body: &[u8]) -> Result<Size, NumberFault>
    ensures { GivesBody body.now result }
{
    let (whole, rest) = split_digits(body);
    if let Some(rest) = after_byte(rest, b'/') {
        let (under, _) = split_digits(rest);
        return pair(whole, under);
    }
    if let Some(rest) = after_byte(rest, b'.') {
        let (fraction, exponent) = split_digits(rest);
        return Decimal { whole, fraction }.value(shift(exponent));
    }
    let fraction: &[u8] = &[];
    Decimal { whole, fraction }.value(shift(rest))
}
