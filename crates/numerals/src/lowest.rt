//! Lowest terms.
ghost use Rattle.std.specs.Prelude.{◌≡◌, ◌/◌, ◌<◌, ◌≤◌, ◌^◌, pos, false};
ghost use Rattle.field_core.specs.Divisor.{gcd};
ghost use Rattle.field_core.specs.View.{terms};
ghost use Rattle.numerals.specs.Numeral.{with_sign};
ghost use Rattle.numerals.specs.Lowest.{lowest_of};

use crate::size::Size;
use field_core::{Ratio, Whole, gcd};

fn with_sign(negative: bool, size: u128) -> Whole
    requires { size < 2 ^ 127 }
    ensures { result ≡ with_sign negative size }
{
    let whole = Whole::new(size as i128);
    if negative { whole.negated() } else { whole }
}

/// Returns the quotient, with a sign, of two numbers that have no common divisor above 1.
pub fn reduced(negative: bool, size: &Size) -> Ratio
    requires { gcd size.now.num size.now.den ≡ 1 }
    ensures { terms result ≡ record { num = with_sign negative size.now.num; den = pos size.now.den } }
{
    Ratio::of_wholes(with_sign(negative, size.num), with_sign(false, size.den))
}

/// Returns two numbers, each divided by their greatest common divisor.
#[tactic(auto, using(crate::proofs::LowestTerms::divided))]
pub fn divided(num: u128, den: u128) -> (u128, u128)
    requires { 0 < den }
    ensures first { result.0 ≡ num / gcd num den }
    ensures second { result.1 ≡ den / gcd num den }
    ensures apart { gcd result.0 result.1 ≡ 1 }
    ensures some { 0 < result.1 }
    ensures first_within { result.0 ≤ num }
    ensures second_within { result.1 ≤ den }
{
    let divisor = gcd(num, den);
    (num / divisor, den / divisor)
}

/// Returns the quotient of two numbers in lowest terms, with a sign.
#[tactic(auto, unfolding(crate::specs::Lowest::lowest_of))]
pub fn lowest(negative: bool, size: &Size) -> Ratio
    ensures { terms result ≡ lowest_of negative size.now.num size.now.den }
{
    let (num, den) = divided(size.num, size.den);
    reduced(negative, &Size { num, den })
}
