//! Fractions with short parts.
ghost use Rattle.std.specs.Prelude.{◌≡◌, pos, true, false};
ghost use Rattle.field_core.specs.Kind.{ok_map};
ghost use Rattle.field_core.specs.View.{terms};
ghost use Rattle.edge_expression.specs.EntryValues.{is_short};

use crate::value_fault::ValueFault;
use field_core::{Number, Ratio, TooWide};
use fraction::Fraction;

/// The largest size of a part.
const LARGEST: u128 = 1_000_000_000_000_000_000;

/// A fraction whose parts are at most 10^18.
#[derive(Clone, Copy)]
pub struct ShortFraction {
    pub value: Fraction,
    ghost short: { is_short (terms value) ≡ true },
}

impl ShortFraction {
    ghost use Rattle.fraction.specs.Tests.{is_zero};
    ghost use Rattle.case_model.specs.Sums.{zero_terms};
    ghost use Rattle.edge_expression.specs.EntryView.{short_terms, map_value, made_short};
    ghost use Rattle.edge_expression.specs.EntryValues.{short_of, sum, difference, product, quotient};

    /// Returns 0.
    pub fn zero() -> ShortFraction
        ensures { short_terms result ≡ zero_terms }
    {
        ShortFraction {
            value: Fraction::of(Ratio::new(0, 1)),
        }
    }

    /// Returns 1.
    pub fn one() -> ShortFraction
        ensures { short_terms result ≡ record { num = pos 1; den = pos 1 } }
    {
        ShortFraction {
            value: Fraction::of(Ratio::new(1, 1)),
        }
    }

    /// Returns a fraction as a `ShortFraction`, or `Part` if a part is above 10^18.
    #[tactic(auto, unfolding(crate::specs::EntryValues::short_of))]
    pub fn of(value: Fraction) -> Result<ShortFraction, ValueFault>
        ensures { map_value short_terms result ≡ short_of (terms value) }
    {
        if value.is_within(LARGEST) {
            Ok(ShortFraction { value })
        } else {
            Err(ValueFault::Part)
        }
    }

    /// Returns the result of an operation as a `ShortFraction`, or `Part` if it was refused or a part is above 10^18.
    fn made(made: Result<Fraction, TooWide>) -> Result<ShortFraction, ValueFault>
        ensures { map_value short_terms result ≡ made_short (ok_map terms made) }
    {
        match made {
            Ok(value) => ShortFraction::of(value),
            Err(_) => Err(ValueFault::Part),
        }
    }

    pub fn is_zero(&self) -> bool
        ensures { result ≡ is_zero (short_terms self.now) }
    {
        self.value.is_zero()
    }

    pub fn add(&self, other: &ShortFraction) -> Result<ShortFraction, ValueFault>
        ensures { map_value short_terms result ≡ sum (short_terms self.now) (short_terms other.now) }
    {
        ShortFraction::made(self.value.add(&other.value))
    }

    pub fn subtract(&self, other: &ShortFraction) -> Result<ShortFraction, ValueFault>
        ensures { map_value short_terms result ≡ difference (short_terms self.now) (short_terms other.now) }
    {
        ShortFraction::made(self.value.sub(&other.value))
    }

    pub fn multiply(&self, other: &ShortFraction) -> Result<ShortFraction, ValueFault>
        ensures { map_value short_terms result ≡ product (short_terms self.now) (short_terms other.now) }
    {
        ShortFraction::made(self.value.mul(&other.value))
    }

    pub fn divide(&self, other: &ShortFraction) -> Result<ShortFraction, ValueFault>
        requires { is_zero (short_terms other.now) ≡ false }
        ensures { map_value short_terms result ≡ quotient (short_terms self.now) (short_terms other.now) }
    {
        ShortFraction::made(self.value.div(&other.value))
    }
}
