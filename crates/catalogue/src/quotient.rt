//! Quotients of small numbers.
ghost use Rattle.std.specs.Prelude.{◌≡◌, ◌<◌, pos, negsuc};
ghost use Rattle.case_model.specs.Sums.{zero_ratio, one_ratio};
ghost use Rattle.catalogue.specs.Quotients.{quotient};
ghost use Rattle.catalogue.specs.NamedGraphs.{linear, constant, part};

use case_model::Entry;
use field_core::Number;
use fraction::Fraction;

/// Returns num/den, in lowest terms.
pub fn quotient(num: u64, den: usize) -> Fraction
    requires { 0 < den }
    ensures { result ≡ quotient (pos num) den }
{
    match Fraction::new(num as i128, den as i128) {
        Ok(fraction) => fraction,
        Err(_) => unreachable!(),
    }
}

/// Returns -1/n.
pub fn minus_part(n: usize) -> Fraction
    requires { 0 < n }
    ensures { result ≡ quotient (negsuc 0) n }
{
    match Fraction::new(-1, n as i128) {
        Ok(fraction) => fraction,
        Err(_) => unreachable!(),
    }
}

/// Returns 1/n.
pub fn part(n: usize) -> Fraction
    requires { 0 < n }
    ensures { result ≡ part n }
{
    quotient(1, n)
}

/// Returns 0.
pub fn zero() -> Fraction
    ensures { result ≡ zero_ratio }
{
    Fraction::zero()
}

/// Returns 1.
pub fn one() -> Fraction
    ensures { result ≡ one_ratio }
{
    Fraction::one()
}

/// Returns a + b * epsilon, as the weight of an edge.
pub fn linear(a: Fraction, b: Fraction) -> Entry
    ensures { result ≡ linear a b }
{
    Entry::new([a, b, zero(), zero(), zero()])
}

/// Returns a fraction, as the weight of an edge.
pub fn constant(a: Fraction) -> Entry
    ensures { result ≡ constant a }
{
    linear(a, zero())
}
