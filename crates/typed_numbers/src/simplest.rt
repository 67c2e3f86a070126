//! The simplest fraction in an interval.
ghost use Rattle.std.specs.Prelude.{◌≡◌, ◌+◌, ◌*◌, ◌<◌, ◌≤◌, ◌^◌, IfSome, None};
ghost use Rattle.typed_numbers.specs.Intervals.{Range};
ghost use Rattle.typed_numbers.specs.Searches.{in_quarters, IsSimplestIn, HasNoneIn};

use crate::intervals::Interval;

/// The largest denominator of a simple fraction.
const LIMIT: u128 = 10000;

/// The most binary places of a double that can be near a simple fraction: a smaller double is below 1/10,000 by far.
const MOST_PLACES: u32 = 68;

/// Returns the fraction of the least denominator in the interval from low / scale to high / scale, or nothing if that
/// denominator passes `limit`. `ends` is 1 if the ends belong to it, else 0.
///
/// It walks down the Stern-Brocot tree, between a fraction below the interval and one above it that are neighbours in the tree.
/// Their mediant `n / q` has the least denominator of all fractions between them. If it is outside the interval, it takes the
/// place of the neighbour on its side, and `k` such steps are taken at once.
fn simplest_between(
    scale: u128,
    low: u128,
    high: u128,
    ends: u128,
    limit: u128,
) -> Option<(u128, u128)>
    requires ends { ends ≤ 1 }
    requires above_zero { ends ≤ low }
    requires order { low < high }
    requires below_one { high + ends ≤ scale }
    requires scale { scale ≤ 2 ^ 70 }
    requires limit { limit ≤ 16384 }
    ensures found { IfSome result (λ f. IsSimplestIn (record { scale = scale; low = low; high = high; ends = ends }) limit f.0 f.1) }
    ensures none { result ≡ None → HasNoneIn (record { scale = scale; low = low; high = high; ends = ends }) limit }
{
    let mut below_num: u128 = 0;
    let mut below_den: u128 = 1;
    let mut above_num: u128 = 1;
    let mut above_den: u128 = 1;
    while below_den + above_den <= limit {
        let n = below_num + above_num;
        let q = below_den + above_den;
        if n * scale + ends <= low * q {
            let most = (low * below_den - below_num * scale - ends)
                / (above_num * scale - low * above_den);
            let k = most.min(limit);
            below_num += k * above_num;
            below_den += k * above_den;
        } else if high * q + ends <= n * scale {
            let most = (above_num * scale - high * above_den - ends)
                / (high * below_den - below_num * scale);
            let k = most.min(limit);
            above_num += k * below_num;
            above_den += k * below_den;
        } else {
            return Some((n, q));
        }
    }
    None
}

/// Returns the fraction of the least denominator in the interval of a double, or nothing if that passes 10,000.
pub fn simplest(x: Interval) -> Option<(u128, u128)>
    ensures found { IfSome result (λ f. IsSimplestIn (in_quarters x.places x.low x.high x.ends) 10000 f.0 f.1) }
    ensures none { result ≡ None → HasNoneIn (in_quarters x.places x.low x.high x.ends) 10000 }
{
    if x.places > MOST_PLACES {
        return None;
    }
    simplest_between(1 << x.places, x.low, x.high, x.ends, LIMIT)
}
