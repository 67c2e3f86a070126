//! Polynomials in epsilon with short coefficients, and the operations of edge expressions.
ghost use Rattle.std.specs.Prelude.{◌≡◌, ◌≤◌, suc, map};
ghost use Rattle.fraction.specs.Tests.{is_zero};
ghost use Rattle.edge_expression.specs.EntryValues.{zero_coefficients};
ghost use Rattle.field_core.specs.View.{terms};
ghost use Rattle.case_model.specs.Sums.{terms_at};
ghost use Rattle.edge_expression.specs.EntryView.{short_terms, map_value, polynomial_terms, coefficient, applied, CanDivide};
ghost use Rattle.edge_expression.specs.EntryValues.{plain_entry, degree, product_sum, unit_at, power_value, coefficients, times, over};

use crate::short_fraction::ShortFraction;
use crate::value_fault::ValueFault;
use case_model::Entry;

/// The greatest power of an entry.
const GREATEST: usize = 4;

/// A polynomial in epsilon of degree at most 4, whose coefficients have parts of at most 10^18.
#[derive(Clone, Copy)]
pub struct Polynomial {
    coefficients: [ShortFraction; 5],
}

/// An operation on two polynomials.
#[derive(Clone, Copy)]
pub enum Operation {
    Add,
    Subtract,
    Multiply,
    Divide,
}

impl Polynomial {
    /// Returns the polynomial with these coefficients.
    fn of(coefficients: [ShortFraction; 5]) -> Polynomial
        ensures { polynomial_terms result ≡ map short_terms coefficients }
    {
        Polynomial { coefficients }
    }

    /// Returns 0.
    pub fn zero() -> Polynomial
        ensures { polynomial_terms result ≡ zero_coefficients }
    {
        Polynomial::of([ShortFraction::zero(); 5])
    }

    /// Returns a number as a polynomial.
    pub fn constant(value: &ShortFraction) -> Polynomial
        ensures { polynomial_terms result ≡ plain_entry (short_terms value.now) }
    {
        Polynomial::of([
            *value,
            ShortFraction::zero(),
            ShortFraction::zero(),
            ShortFraction::zero(),
            ShortFraction::zero(),
        ])
    }

    /// Returns a power of epsilon, or `Degree` if the power is above 4.
    #[tactic(auto, unfolding(crate::specs::EntryValues::power_value, crate::specs::EntryValues::coefficients))]
    pub fn power(power: usize) -> Result<Polynomial, ValueFault>
        ensures { map_value polynomial_terms result ≡ power_value power }
    {
        if power > GREATEST {
            return Err(ValueFault::Degree);
        }
        Ok(Polynomial::of([
            unit_at(power, 0),
            unit_at(power, 1),
            unit_at(power, 2),
            unit_at(power, 3),
            unit_at(power, 4),
        ]))
    }

    fn coefficient(&self, power: usize) -> ShortFraction
        requires { power ≤ 4 }
        ensures { short_terms result ≡ terms_at (polynomial_terms self.now) power }
    {
        self.coefficients[power]
    }

    /// Returns the entry with these coefficients.
    pub fn entry(&self) -> Entry
        ensures { map terms result ≡ polynomial_terms self.now }
    {
        let [constant, first, second, third, fourth] = self.coefficients;
        Entry::new([
            constant.value,
            first.value,
            second.value,
            third.value,
            fourth.value,
        ])
    }

    /// Returns the greatest power whose coefficient isn't 0, and 0 if there is none.
    fn degree(&self) -> usize
        ensures value { result ≡ degree (polynomial_terms self.now) }
        ensures within { result ≤ 4 }
    {
        let mut power = GREATEST;
        while power > 0 && self.coefficient(power).is_zero() {
            power -= 1;
        }
        power
    }

    /// Returns the product with another polynomial, or the first fault.
    #[tactic(auto, unfolding(crate::specs::EntryValues::times))]
    fn times(&self, other: &Polynomial) -> Result<Polynomial, ValueFault>
        ensures { map_value polynomial_terms result ≡ times (polynomial_terms self.now) (polynomial_terms other.now) }
    {
        if self.degree() + other.degree() > GREATEST {
            return Err(ValueFault::Degree);
        }
        coefficients(Operation::Multiply, self, other)
    }

    /// Returns the quotient by another polynomial, or the first fault; a divisor that isn't a number, or is 0, is one.
    #[tactic(auto, unfolding(crate::specs::EntryValues::over))]
    fn over(&self, other: &Polynomial) -> Result<Polynomial, ValueFault>
        ensures { map_value polynomial_terms result ≡ over (polynomial_terms self.now) (polynomial_terms other.now) }
    {
        if other.degree() > 0 {
            return Err(ValueFault::DivisorNotNumber);
        }
        if other.coefficient(0).is_zero() {
            return Err(ValueFault::ZeroDivisor);
        }
        coefficients(Operation::Divide, self, other)
    }

    /// Returns the polynomial after a sign: added to 0, or subtracted from it.
    #[tactic(auto, unfolding(crate::specs::EntryView::applied))]
    pub fn signed(&self, sign: Operation) -> Result<Polynomial, ValueFault>
        ensures { map_value polynomial_terms result ≡ applied sign zero_coefficients (polynomial_terms self.now) }
    {
        match sign {
            Operation::Add => {
                let [constant, first, second, third, fourth] = self.coefficients;
                Ok(Polynomial::of([constant, first, second, third, fourth]))
            }
            _ => Polynomial::zero().apply(sign, self),
        }
    }

    /// Returns the result of an operation on this polynomial and another one, or the first fault.
    #[tactic(auto, unfolding(crate::specs::EntryView::applied, crate::specs::EntryValues::joined))]
    pub fn apply(&self, operation: Operation, other: &Polynomial) -> Result<Polynomial, ValueFault>
        ensures { map_value polynomial_terms result ≡ applied operation (polynomial_terms self.now) (polynomial_terms other.now) }
    {
        match operation {
            Operation::Add | Operation::Subtract => coefficients(operation, self, other),
            Operation::Multiply => self.times(other),
            Operation::Divide => self.over(other),
        }
    }
}

/// Returns the coefficient at `at` of epsilon to the `power`: 1 if they are equal, and else 0.
fn unit_at(power: usize, at: usize) -> ShortFraction
    ensures { short_terms result ≡ unit_at power at }
{
    if at == power {
        ShortFraction::one()
    } else {
        ShortFraction::zero()
    }
}

/// Returns the coefficient of `power` in a product: the sum of products of coefficients, by ascending power of the first factor.
fn product_sum(x: &Polynomial, y: &Polynomial, power: usize) -> Result<ShortFraction, ValueFault>
    requires { power ≤ 4 }
    ensures { map_value short_terms result ≡ product_sum (polynomial_terms x.now) (polynomial_terms y.now) power (suc power) }
{
    let mut sum = ShortFraction::zero();
    for at in 0..power + 1 {
        let product = x.coefficient(at).multiply(&y.coefficient(power - at))?;
        sum = sum.add(&product)?;
    }
    Ok(sum)
}

/// Returns the coefficient of `power` in the result of an operation.
fn coefficient(
    operation: Operation,
    x: &Polynomial,
    y: &Polynomial,
    power: usize,
) -> Result<ShortFraction, ValueFault>
    requires within { power ≤ 4 }
    requires divisor { CanDivide operation (polynomial_terms y.now) }
    ensures { map_value short_terms result ≡ coefficient operation (polynomial_terms x.now) (polynomial_terms y.now) power }
{
    match operation {
        Operation::Add => x.coefficient(power).add(&y.coefficient(power)),
        Operation::Subtract => x.coefficient(power).subtract(&y.coefficient(power)),
        Operation::Multiply => product_sum(x, y, power),
        Operation::Divide => x.coefficient(power).divide(&y.coefficient(0)),
    }
}

/// Returns all coefficients of the result of an operation, or the first fault, by ascending power.
#[tactic(auto, unfolding(crate::specs::EntryValues::coefficients))]
fn coefficients(
    operation: Operation,
    x: &Polynomial,
    y: &Polynomial,
) -> Result<Polynomial, ValueFault>
    requires { CanDivide operation (polynomial_terms y.now) }
    ensures { map_value polynomial_terms result ≡ coefficients (coefficient operation (polynomial_terms x.now) (polynomial_terms y.now)) }
{
    let constant = coefficient(operation, x, y, 0)?;
    let first = coefficient(operation, x, y, 1)?;
    let second = coefficient(operation, x, y, 2)?;
    let third = coefficient(operation, x, y, 3)?;
    let fourth = coefficient(operation, x, y, 4)?;
    Ok(Polynomial::of([constant, first, second, third, fourth]))
}
