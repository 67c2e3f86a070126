//! The shortest decimal in an interval, and the double rounded up.
ghost use Rattle.std.specs.Prelude.{◌≡◌, ◌+◌, ◌-◌, ◌*◌, ◌%◌, ◌<◌, ◌≤◌, ◌^◌, ℕ, IfSome, None};
ghost use Rattle.typed_numbers.specs.Searches.{IsWithin, IsNearestIn, IsDecimalIn, IsNearestDecimal, IsShortestIn};
ghost use Rattle.typed_numbers.specs.Searches.{HasNoDecimalIn, IsLeastAbove};

use crate::intervals::Interval;

/// The most decimal places of a reading.
const PLACES: u32 = 30;

/// 5 to the 30.
const FIVE_TO_30: u128 = 931322574615478515625;

/// The most binary places that a unit can have in this search: with more, one unit is above the interval.
const MOST_PLACES: u32 = 125;

/// Returns the least number of units that is not below the lower end of an interval, and above it if the ends don't belong to
/// the interval.
fn first_multiple(low: u128, ends: u128, unit: u128) -> u128
    requires ends { ends ≤ 1 }
    requires some { 0 < unit }
    requires short { low + unit < 2 ^ 128 }
    ensures from_low { low < result * unit + ends }
    ensures least { (m : ℕ) → low < m * unit + ends → result ≤ m }
    ensures short { result * unit ≤ low + unit }
{
    (low + unit - ends) / unit
}

/// Returns the number of units that are nearest to a value, of two the even number.
fn rounded(value: u128, unit: u128) -> u128
    requires some { 0 < unit }
    requires short { value + unit < 2 ^ 127 }
    ensures from_low { 2 * (result * unit) < 2 * value + unit + (1 - result % 2) }
    ensures to_high { 2 * value < 2 * (result * unit) + unit + (1 - result % 2) }
{
    let whole = value / unit;
    let twice = value % unit * 2;
    if twice < unit || (twice == unit && whole % 2 == 0) {
        whole
    } else {
        whole + 1
    }
}

/// Returns the multiple of the unit in an interval that is nearest to its middle, of two the even one, or nothing if there is
/// none.
fn nearest_multiple(low: u128, middle: u128, high: u128, ends: u128, unit: u128) -> Option<u128>
    requires ends { ends ≤ 1 }
    requires some { 0 < unit }
    requires short { high + unit < 2 ^ 127 }
    requires below { low ≤ middle }
    requires above { middle ≤ high }
    requires lopsided { 2 * middle ≤ low + high }
    ensures found { IfSome result (IsNearestIn low middle high ends unit) }
    ensures none { result ≡ None → (m : ℕ) → ¬ IsWithin low high ends unit m }
{
    let first = first_multiple(low, ends, unit);
    if high + ends <= first * unit {
        return None;
    }
    Some(rounded(middle, unit).max(first))
}

/// Returns the numerator of the decimal of `digits` places in an interval that is nearest to its middle, or nothing if there is
/// none. `five` is 5 to the `digits`.
fn nearest_decimal(x: Interval, digits: u32, five: u128) -> Option<u128>
    requires places { digits ≤ 30 }
    requires power { five ≡ 5 ^ digits }
    ensures found { IfSome result (IsNearestDecimal x.places x.low x.middle x.high x.ends digits) }
    ensures none { result ≡ None → (m : ℕ) → ¬ IsDecimalIn x.places x.low x.high x.ends digits m }
{
    let places = x.places - digits;
    if places > MOST_PLACES {
        return None;
    }
    nearest_multiple(
        x.low * five,
        x.middle * five,
        x.high * five,
        x.ends,
        1 << places,
    )
}

/// Returns the shortest decimal in the interval of a double, as numerator and denominator, or nothing if it has more than 30
/// places.
pub fn shortest(x: Interval) -> Option<(u128, u128)>
    ensures found { IfSome result (λ f. IsShortestIn x.places x.low x.middle x.high x.ends f.0 f.1) }
    ensures none { result ≡ None → HasNoDecimalIn x.places x.low x.high x.ends }
{
    let mut five: u128 = 1;
    for digits in 0..PLACES + 1 {
        if let Some(n) = nearest_decimal(x, digits, five) {
            return Some((n, five << digits));
        }
        five *= 5;
    }
    None
}

/// Returns the numerator, over 10^30, of a double that is rounded up to a multiple of 10^-30.
pub fn rounded_up(x: Interval) -> u128
    ensures { IsLeastAbove x.places x.middle result }
{
    let places = x.places - PLACES;
    if places > MOST_PLACES {
        return 1;
    }
    first_multiple(x.middle * FIVE_TO_30, 1, 1 << places)
}
