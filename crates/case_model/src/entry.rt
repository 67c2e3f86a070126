//! Entries of tables of edges.
ghost use Rattle.std.specs.Prelude.{◌≡◌};
ghost use Rattle.std.specs.List.{list_all};
ghost use Rattle.field_core.specs.Polynomial.{int_sign};
ghost use Rattle.field_core.specs.View.{terms};
ghost use Rattle.fraction.specs.Tests.{is_zero};
ghost use Rattle.case_model.specs.Entries.{first_sign};

use crate::fraction_tests::are_short;
use field_core::Number;
use fraction::Fraction;
use std::cmp::Ordering;
use std::marker::Model;

/// The weight of an edge: a sum of fractions times the powers 0 to 4 of epsilon, by its coefficients of ascending power.
#[derive(Clone, Copy, PartialEq, Eq, Debug)]
pub struct Entry {
    coefficients: [Fraction; 5],
}

impl Model for Entry {
    ghost use Rattle.std.specs.Prelude.{List};
    ghost use Rattle.field_core.specs.declared.ratio.Ratio.{Ratio};

    ghost Value = { List Ratio };

    ghost view = { λ e. e.coefficients };

    ghost inverse = { λ xs. record { coefficients = xs } };
}

impl Entry {
    ghost use Rattle.std.specs.Prelude.{◌≡◌, ◌≤◌, true};
    ghost use Rattle.std.specs.List.{list_all};
    ghost use Rattle.fraction.specs.View.{number_of};
    ghost use Rattle.field_core.specs.Arithmetic.{number_zero, number_one, number_compare};
    ghost use Rattle.case_model.specs.Sums.{ratio_at};
    ghost use Rattle.case_model.specs.Entries.{no_edge, entry_value, is_whole_entry, is_zero_entry, is_plain_entry};
    ghost use Rattle.case_model.specs.Draft.{at_most, is_unit, is_short};

    /// Returns the entry with these coefficients, by ascending power of epsilon.
    pub fn new(coefficients: [Fraction; 5]) -> Entry
        ensures { result ≡ coefficients }
    {
        Entry { coefficients }
    }

    /// Returns the entry of an edge that isn't there.
    pub(crate) fn no_edge() -> Entry
        ensures { result ≡ no_edge }
    {
        Entry::new([Fraction::zero(); 5])
    }

    /// Returns a copy, which has a coefficient for each power from 0 to 4.
    pub(crate) fn copied(&self) -> Entry
        ensures same { result ≡ self.now }
        ensures whole { is_whole_entry result ≡ true }
    {
        Entry::new(self.coefficients)
    }

    /// Returns the coefficient of a power from 0 to 4.
    #[tactic(auto, unfolding(crate::specs::Sums::ratio_at), using(std::proofs::lemmas::List::get_or_default))]
    pub fn coefficient(&self, power: usize) -> Fraction
        requires { power ≤ 4 }
        ensures { result ≡ ratio_at self.now power }
    {
        self.coefficients[power]
    }

    /// Whether each coefficient is 0.
    #[tactic(auto, unfolding(crate::specs::Entries::is_zero_entry))]
    pub fn is_zero(&self) -> bool
        ensures { result ≡ is_zero_entry self.now }
    {
        are_zero(&self.coefficients)
    }

    /// Whether the parts of each coefficient are at most 10^18.
    pub(crate) fn is_short(&self) -> bool
        ensures { result ≡ list_all is_short self.now }
    {
        are_short(&self.coefficients)
    }

    /// Whether each coefficient above power 0 is 0.
    #[tactic(auto, unfolding(crate::specs::Entries::is_plain_entry))]
    pub(crate) fn is_plain(&self) -> bool
        ensures { result ≡ is_plain_entry self.now }
    {
        let coefficients = &self.coefficients[..];
        are_zero(&coefficients[1..])
    }

    /// Returns the order of the value and a fraction; epsilon is above 0 and below each fraction above 0.
    fn compare(&self, other: &Fraction) -> Ordering
        ensures { result ≡ number_compare (entry_value self.now) (number_of other.now) }
    {
        let coefficients = &self.coefficients[..];
        coefficients[0]
            .cmp(other)
            .then(first_sign(&coefficients[1..]))
    }

    /// Whether the value isn't below 0, in the order of epsilon.
    #[tactic(auto, using(crate::proofs::EntryTests::at_least_zero))]
    fn is_nonnegative(&self) -> bool
        ensures { result ≡ at_most number_zero (entry_value self.now) }
    {
        self.compare(&Fraction::zero()).is_ge()
    }

    /// Whether the value is at most 1, in the order of epsilon.
    #[tactic(auto, using(crate::proofs::EntryTests::at_most_one))]
    pub(crate) fn is_at_most_one(&self) -> bool
        ensures { result ≡ at_most (entry_value self.now) number_one }
    {
        self.compare(&Fraction::one()).is_le()
    }

    /// Whether the value is from 0 to 1, in the order of epsilon.
    pub(crate) fn is_unit(&self) -> bool
        ensures { result ≡ is_unit (entry_value self.now) }
    {
        self.is_nonnegative() && self.is_at_most_one()
    }
}

/// Whether each fraction is 0.
fn are_zero(fractions: &[Fraction]) -> bool
    ensures { result ≡ list_all (λ x. is_zero (terms x)) fractions.now }
{
    fractions.iter().all(|fraction| fraction.is_zero())
}

/// Returns whether `x` is below, at or above 0.
#[tactic(auto, using(crate::proofs::Comparisons::sign_is))]
fn sign(x: &Fraction) -> Ordering
    ensures { result ≡ int_sign x.now.num }
{
    x.sign()
}

/// Returns the sign of the first fraction that isn't 0, and that of 0 if all are 0.
#[tactic(auto, unfolding(crate::specs::Entries::first_sign))]
fn first_sign(fractions: &[Fraction]) -> Ordering
    ensures { result ≡ first_sign fractions.now }
{
    match fractions {
        [] => Ordering::Equal,
        [first, rest @ ..] => sign(first).then(first_sign(rest)),
    }
}
