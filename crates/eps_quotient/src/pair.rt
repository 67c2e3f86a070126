//! Quotients of two polynomials.
ghost use Rattle.field_core.specs.Polynomial.{IsNonZero};

use eps_poly::EpsPoly;
use field_core::Whole;
use std::cmp::Ordering;

/// A numerator over a denominator that isn't 0.
#[derive(Clone, Copy, PartialEq, Eq, Debug)]
pub struct Pair {
    pub numerator: EpsPoly,
    pub denominator: EpsPoly,
    ghost some: { IsNonZero denominator },
}

impl Pair {
    ghost use Rattle.std.specs.Prelude.{◌≡◌};
    ghost use Rattle.field_core.specs.Kind.{is_zero, sign_of};
    ghost use Rattle.field_core.specs.Polynomial.{IsNonZero};
    ghost use Rattle.eps_quotient.specs.Lowering.{one_quotient, zero_quotient};
    ghost use Rattle.eps_quotient.specs.Quotients.{is_one, opposite};
    ghost use Rattle.eps_quotient.specs.View.{pair_parts};

    /// Returns a numerator over a denominator that isn't 0.
    pub fn new(numerator: EpsPoly, denominator: EpsPoly) -> Pair
        requires { IsNonZero denominator }
        ensures { pair_parts result ≡ record { numerator = numerator; denominator = denominator } }
    {
        Pair {
            numerator,
            denominator,
        }
    }

    /// Returns 0/1.
    pub fn zero() -> Pair
        ensures { pair_parts result ≡ zero_quotient }
    {
        Pair {
            numerator: EpsPoly::zero(),
            denominator: one(),
        }
    }

    /// Returns 1/1.
    pub fn one() -> Pair
        ensures { pair_parts result ≡ one_quotient }
    {
        Pair {
            numerator: one(),
            denominator: one(),
        }
    }

    /// Whether the quotient is 0.
    #[tactic(auto, unfolding(field_core::specs::Kind::is_zero))]
    pub fn is_zero(&self) -> bool
        ensures { result ≡ is_zero (pair_parts self.now) }
    {
        self.numerator.is_zero()
    }

    /// Whether the quotient is 1/1.
    #[tactic(auto, unfolding(crate::specs::Quotients::is_one))]
    pub fn is_one(&self) -> bool
        ensures { result ≡ is_one (pair_parts self.now) }
    {
        is_one(&self.numerator) && is_one(&self.denominator)
    }

    /// Returns whether a stored quotient is below, at or above 0: the sign of the lowest coefficient of its numerator, since that of
    /// its denominator is positive.
    #[tactic(auto, unfolding(field_core::specs::Kind::sign_of))]
    pub fn sign(&self) -> Ordering
        ensures { result ≡ sign_of (pair_parts self.now) }
    {
        self.numerator.lowest().value().cmp(&0)
    }

    /// Returns the opposite.
    pub fn opposite(&self) -> Pair
        ensures { pair_parts result ≡ opposite (pair_parts self.now) }
    {
        Pair {
            numerator: self.numerator.negate(),
            denominator: self.denominator,
        }
    }
}

ghost use Rattle.std.specs.Prelude.{◌≡◌};
ghost use Rattle.eps_poly.specs.Polynomials.{is_same};
ghost use Rattle.eps_quotient.specs.Lowering.{one_polynomial};

/// Returns the polynomial 1.
pub fn one() -> EpsPoly
    ensures { result ≡ one_polynomial }
{
    EpsPoly::monomial(Whole::new(1), 0)
}

/// Whether a polynomial is 1.
fn is_one(p: &EpsPoly) -> bool
    ensures { result ≡ is_same p.now one_polynomial }
{
    p.coefficient(0) == 1 && p.degree() == 0
}
