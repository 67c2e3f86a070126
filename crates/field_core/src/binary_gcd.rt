//! The greatest common divisor of numbers below 2^64, by Stein's steps: factors 2 are shifted out, and odd numbers subtracted.
ghost use Rattle.std.specs.Prelude.{◌≡◌, ◌<◌, ◌%◌};
ghost use Rattle.field_core.specs.Divisor.{gcd};

/// Returns the greatest common divisor of odd numbers.
fn odd_gcd(a: u64, b: u64) -> u64
    requires a { a % 2 ≡ 1 }
    requires b { b % 2 ≡ 1 }
    ensures { result ≡ gcd a b }
{
    let mut left = a;
    let mut right = b;
    'steps: while left != right {
        let rest = left.abs_diff(right);
        right = left.min(right);
        left = rest >> rest.trailing_zeros();
    }
    left
}

/// Returns the greatest common divisor of numbers above 0.
fn positive_gcd(a: u64, b: u64) -> u64
    requires a { 0 < a }
    requires b { 0 < b }
    ensures { result ≡ gcd a b }
{
    let first = a.trailing_zeros();
    let second = b.trailing_zeros();
    odd_gcd(a >> first, b >> second) << first.min(second)
}

/// Returns the greatest common divisor of a number above 0 and another: one step of Euclid's, and then Stein's.
fn stepped_gcd(a: u64, b: u64) -> u64
    requires { 0 < a }
    ensures { result ≡ gcd a b }
{
    let rest = b % a;
    if rest == 0 {
        a
    } else if rest == 1 {
        1
    } else {
        positive_gcd(a, rest)
    }
}

/// Returns the greatest common divisor; `binary_gcd(0, b)` is `b`. Euclid's step divides by the smaller number, which leaves the
/// fewest steps.
pub fn binary_gcd(a: u64, b: u64) -> u64
    ensures { result ≡ gcd a b }
{
    let least = a.min(b);
    let most = a.max(b);
    if least == 0 {
        most
    } else if least == 1 {
        1
    } else {
        stepped_gcd(least, most)
    }
}
