//! The interval of a double: what rounds to it.
ghost use Rattle.std.specs.Prelude.{◌≡◌, ◌+◌, ◌<◌, ◌≤◌, ◌^◌};
ghost use Rattle.typed_numbers.specs.Intervals.{mantissa_by, below_by, shift_by};
ghost use Rattle.typed_numbers.specs.Searches.{IsInterval, IsIntervalOf};

/// 2 to the 52: the weight of the exponent's field, and the leading digit of the mantissa of a normal double.
const HIDDEN: u64 = 0x10_0000_0000_0000;

/// The interval of a double between 0 and 1, in quarters of its last place. A quarter is 2^-places.
#[derive(Clone, Copy)]
pub struct Interval {
    /// The number of binary places of a quarter.
    pub places: u32,
    /// The lower end.
    pub low: u128,
    /// The double.
    pub middle: u128,
    /// The upper end.
    pub high: u128,
    /// 1 if the ends round to the double, as they do for an even last digit, else 0.
    pub ends: u128,
    ghost valid: { IsInterval places low middle high ends },
}

/// Returns the mantissa of a double: a leading 1 and the digits after it, or the digits alone of a subnormal double.
fn mantissa(exponent: u64, digits: u64) -> u128
    requires { digits < 0x10000000000000 }
    ensures { result ≡ mantissa_by exponent digits }
{
    if exponent == 0 {
        digits as u128
    } else {
        (HIDDEN + digits) as u128
    }
}

/// Returns how many quarters of the last place the interval reaches down: 1 for a power of 2, else 2.
fn quarters_below(exponent: u64, digits: u64) -> u128
    ensures { result ≡ below_by exponent digits }
{
    if exponent > 1 && digits == 0 { 1 } else { 2 }
}

/// Returns the number of binary places of a quarter of the last place.
fn places_of(exponent: u64) -> u32
    requires { exponent ≤ 1022 }
    ensures { result + shift_by exponent ≡ 1076 }
{
    if exponent == 0 {
        1076
    } else {
        (1077 - exponent) as u32
    }
}

impl Interval {
    /// Returns the interval of the double with these bits, which is above 0 and below 1.
    pub fn of(bits: u64) -> Interval
        requires above_zero { 0 < bits }
        requires below_one { bits < 0x3ff0000000000000 }
        ensures { IsIntervalOf bits result.places result.low result.middle result.high result.ends }
    {
        let exponent = bits / HIDDEN;
        let digits = bits % HIDDEN;
        let middle = 4 * mantissa(exponent, digits);
        Interval {
            places: places_of(exponent),
            low: middle - quarters_below(exponent, digits),
            middle,
            high: middle + 2,
            ends: (1 - digits % 2) as u128,
        }
    }
}
