//! Quotients of whole numbers in lowest terms.
ghost use Rattle.std.specs.Prelude.{◌≡◌, unsigned_abs};
ghost use Rattle.std.specs.Int.{is_negative};
ghost use Rattle.fraction.specs.Quotients.{IsLowest};

use crate::FractionFault;
use field_core::Ratio;
use numerals::{Size, divided, reduced};

/// The largest size of a part.
const LARGEST: u128 = u128::MAX / 2;

/// Returns whether a whole number is below 0, and its size.
fn sign_and_size(number: i128) -> (bool, u128)
    ensures sign { result.0 ≡ is_negative number }
    ensures size { result.1 ≡ unsigned_abs number }
{
    (number < 0, number.unsigned_abs())
}

/// Returns the quotient of two whole numbers in lowest terms, or why there is none within the sizes.
pub fn quotient(num: i128, den: i128) -> Result<Ratio, FractionFault>
    ensures { IsLowest num den result }
{
    let (below, over) = sign_and_size(num);
    let (turned, under) = sign_and_size(den);
    if under == 0 {
        return Err(FractionFault::ZeroDenominator);
    }
    let (num, den) = divided(over, under);
    if num > LARGEST || den > LARGEST {
        return Err(FractionFault::TooWide);
    }
    Ok(reduced(below != turned, &Size { num, den }))
}
