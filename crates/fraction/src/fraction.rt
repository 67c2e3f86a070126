//! Fractions, as a kind of numbers.
ghost use Rattle.std.specs.Prelude.{◌≡◌};
ghost use Rattle.fraction.specs.Plain.{plain, IsFraction, fraction_parts, fraction_stored};
ghost use Rattle.fraction.specs.Laws.PlainLaws.{plain_is_exact};

use crate::quotients::quotient;
use crate::written::{inverse, multiply, opposite, plus};
use crate::{FractionFault, NumberFault};
use field_core::{List, NoMemory, Number, Op, Ratio, TooWide};
use std::cmp::Ordering;
use std::fmt;
use std::marker::Model;

/// A fraction in lowest terms: its denominator is at least 1, and both parts are at most 2^127 - 1 in size.
#[derive(Clone, Copy, PartialEq, Eq, Debug)]
pub struct Fraction {
    ratio: Ratio,
}

impl Model for Fraction {
    ghost use Rattle.field_core.specs.declared.ratio.Ratio.{Ratio};

    ghost Value = { Ratio };

    ghost view = { λ f. f.ratio };

    ghost inverse = { λ r. record { ratio = r } };
}

impl Ord for Fraction {
    ghost use Rattle.std.specs.Prelude.{refl};
    ghost use Rattle.fraction.specs.Laws.Order.{by_value, by_value_total, by_value_ties};

    ghost cmp = { by_value };

    ghost total = { by_value_total };

    ghost matches_partial_cmp = { λ x y. refl };

    ghost matches_eq = { by_value_ties };

    fn cmp(&self, other: &Fraction) -> Ordering {
        self.ratio.compare(&other.ratio)
    }
}

impl PartialOrd for Fraction {
    ghost use Rattle.std.specs.Ordering.{as_partial_cmp};
    ghost use Rattle.fraction.specs.Laws.Order.{by_value, by_value_partial};

    ghost partial_cmp = { as_partial_cmp by_value };

    ghost laws = { by_value_partial };

    fn partial_cmp(&self, other: &Fraction) -> Option<Ordering> {
        Some(self.cmp(other))
    }
}

/// Writes `n` if the denominator is 1, else `n/d`.
impl fmt::Display for Fraction {
    ghost use Rattle.std.specs.Prelude.{Some};
    ghost use Rattle.field_core.specs.View.{terms};
    ghost use Rattle.fraction.specs.Spelling.{spelling};

    ghost output = { λ x. Some (spelling (terms x)) };

    #[tactic(auto, unfolding(crate::specs::Spelling::spelling))]
    fn fmt<W: fmt::Write>(&self, f: &mut fmt::Formatter<W>) -> fmt::Result {
        let num = self.ratio.num();
        let den = self.ratio.den();
        if den == 1 {
            write!(f, "{num}")
        } else {
            write!(f, "{num}/{den}")
        }
    }
}

#[tactic(auto, unfolding(field_core::specs::Kind::is_zero, field_core::specs::Kind::sign_of))]
impl Number for Fraction {
    ghost kind = { plain };

    ghost parts = { fraction_parts };

    ghost IsStored = { IsFraction };

    fn zero() -> Fraction {
        Fraction {
            ratio: Ratio::new(0, 1),
        }
    }

    fn one() -> Fraction {
        Fraction {
            ratio: Ratio::new(1, 1),
        }
    }

    fn add(&self, other: &Fraction) -> Result<Fraction, TooWide> {
        let ratio = plus(&self.ratio, &other.ratio).ok_or(TooWide { op: Op::Add })?;
        Ok(Fraction { ratio })
    }

    fn sub(&self, other: &Fraction) -> Result<Fraction, TooWide> {
        let ratio = plus(&self.ratio, &opposite(&other.ratio)).ok_or(TooWide { op: Op::Sub })?;
        Ok(Fraction { ratio })
    }

    fn mul(&self, other: &Fraction) -> Result<Fraction, TooWide> {
        let ratio = multiply(&self.ratio, &other.ratio).ok_or(TooWide { op: Op::Mul })?;
        Ok(Fraction { ratio })
    }

    fn div(&self, other: &Fraction) -> Result<Fraction, TooWide> {
        let ratio = multiply(&self.ratio, &inverse(&other.ratio)).ok_or(TooWide { op: Op::Div })?;
        Ok(Fraction { ratio })
    }

    /// Returns the order of this fraction and `other`. It is never refused.
    fn compare(&self, other: &Fraction) -> Result<Ordering, TooWide> {
        Ok(self.ratio.compare(&other.ratio))
    }

    fn is_zero(&self) -> bool {
        self.ratio.num() == 0
    }

    fn sign(&self) -> Ordering {
        self.ratio.num().cmp(&0)
    }

    fn limit(&self) -> Ratio {
        self.ratio
    }

    ghost stored = { fraction_stored };

    ghost exact = { plain_is_exact };
}

impl Fraction {
    ghost use Rattle.std.specs.Prelude.{◌≡◌, ◌≢◌, ◌↔◌, ◌++◌, pos, IfOk, OnOk, OnErr};
    ghost use Rattle.field_core.specs.Fractions.{fraction};
    ghost use Rattle.field_core.specs.View.{terms};
    ghost use Rattle.fraction.specs.View.{terms_of, number_of};
    ghost use Rattle.numerals.specs.Lowest.{lowest_terms, HasWidePart};
    ghost use Rattle.std.specs.Option.{option_map};
    ghost use Rattle.std.specs.Result.{result_ok};
    ghost use Rattle.numerals.specs.Decimals.{Decimal, decimal_value};
    ghost use Rattle.numerals.specs.Numeral.{body_text};
    ghost use Rattle.fraction.specs.Numerals.{numeral_of};
    ghost use Rattle.fraction.specs.Spelling.{spelling};
    ghost use Rattle.fraction.specs.Tests.{is_zero, is_one, is_within, absolute};

    /// Returns the fraction num/den, in lowest terms. It is refused with `ZeroDenominator` if `den` is 0, and else with `TooWide` if
    /// a part in lowest terms has 2^127 or more in size.
    pub fn new(num: i128, den: i128) -> Result<Fraction, FractionFault>
        ensures lowest { IfOk result (λ x. terms_of x ≡ lowest_terms num den) }
        ensures value { IfOk result (λ x. number_of x ≡ fraction num den) }
        ensures zero { (result ≡ Err FractionFault.ZeroDenominator) ↔ (den ≡ pos 0) }
        ensures wide { (result ≡ Err FractionFault.TooWide) ↔ ((den ≢ pos 0) × HasWidePart (lowest_terms num den)) }
    {
        let ratio = quotient(num, den)?;
        Ok(Fraction { ratio })
    }

    /// Returns the value of a numeral, a decimal such as `-1.5e3` or a pair such as `2/3`, within 38 digits. Any other text is
    /// refused with the first `NumberFault` that holds.
    pub fn parse(text: &[u8]) -> Result<Fraction, NumberFault>
        ensures value { result ≡ numeral_of text.now }
    {
        let ratio = numerals::parse(text)?;
        Ok(Fraction { ratio })
    }

    /// Returns the value of a text that is a decimal, or nothing if it has too many digits. For any other text, returns what
    /// `parse` reads: the fraction of a numeral, and else nothing.
    pub fn parse_decimal(text: &[u8]) -> Option<Fraction>
        ensures value { result ≡ result_ok (numeral_of text.now) }
        ensures decimal { (d : Decimal) → text.now ≡ body_text d.body → option_map terms_of result ≡ decimal_value d }
    {
        Fraction::parse(text).ok()
    }

    /// Appends the fraction as a text: `n` if the denominator is 1, else `n/d`. When out of memory, `out` stays as it was.
    #[tactic(auto, unfolding(crate::specs::Spelling::spelling))]
    pub fn print(&self, out: &mut List<u8>) -> Result<(), NoMemory>
        ensures printed { OnOk result (out.new ≡ out.old ++ spelling (terms_of self.now)) }
        ensures unchanged { OnErr result (out.new ≡ out.old) }
    {
        out.append_fraction(self.ratio.num(), self.ratio.den())
    }

    /// Returns this ratio as a fraction.
    pub fn of(ratio: Ratio) -> Fraction
        ensures { terms_of result ≡ terms ratio }
    {
        Fraction { ratio }
    }

    /// Returns this fraction as a ratio.
    pub fn ratio(&self) -> Ratio
        ensures { terms result ≡ terms_of self.now }
    {
        self.ratio
    }

    /// Whether the fraction is 0.
    pub fn is_zero(&self) -> bool
        ensures { result ≡ is_zero (terms self.now) }
    {
        self.ratio.num() == 0
    }

    /// Whether the fraction is 1.
    pub fn is_one(&self) -> bool
        ensures { result ≡ is_one (terms self.now) }
    {
        self.ratio.num() == 1 && self.ratio.den() == 1
    }

    /// Whether numerator and denominator are at most `limit` in size.
    pub fn is_within(&self, limit: u128) -> bool
        ensures { result ≡ is_within limit (terms self.now) }
    {
        self.ratio.num().unsigned_abs() <= limit && self.ratio.den().unsigned_abs() <= limit
    }

    /// Returns the fraction without its sign.
    pub fn abs(&self) -> Fraction
        ensures { terms result ≡ absolute (terms self.now) }
    {
        if self.ratio.num() < 0 {
            Fraction {
                ratio: opposite(&self.ratio),
            }
        } else {
            *self
        }
    }
}
