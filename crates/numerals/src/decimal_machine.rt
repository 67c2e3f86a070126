//! A decimal byte by byte.
ghost use Rattle.std.specs.Prelude.{◌≡◌, ◌≤◌, length};
ghost use Rattle.field_core.specs.Longest.{IsLongest};
ghost use Rattle.numerals.specs.Decimals.{IsDecimal};
ghost use Rattle.numerals.specs.DecimalMachine.{decimal_step, decimal_byte, may_end, decimal_length};

use crate::byte_class::{Class, class_of};

/// What was read of a decimal.
#[derive(Clone, Copy)]
pub enum DecimalPart {
    /// Nothing.
    Start,
    /// Digits.
    Whole,
    /// A point with no digit before it.
    Point,
    /// A point, with a digit before or after it.
    Fraction,
    /// The mark of the exponent.
    Mark,
    /// The sign of the exponent.
    MarkSigned,
    /// Digits of the exponent.
    Exponent,
}

impl DecimalPart {
    /// Returns what is read after one more byte of this class, or nothing if no decimal begins so.
    pub(crate) fn step_class(self, class: Class) -> Option<DecimalPart>
        ensures { result ≡ decimal_step self class }
    {
        match (self, class) {
            (DecimalPart::Start | DecimalPart::Whole, Class::Digit) => Some(DecimalPart::Whole),
            (DecimalPart::Start, Class::Point) => Some(DecimalPart::Point),
            (DecimalPart::Whole, Class::Point) => Some(DecimalPart::Fraction),
            (DecimalPart::Point | DecimalPart::Fraction, Class::Digit) => {
                Some(DecimalPart::Fraction)
            }
            (DecimalPart::Whole | DecimalPart::Fraction, Class::Mark) => Some(DecimalPart::Mark),
            (DecimalPart::Mark, Class::Sign) => Some(DecimalPart::MarkSigned),
            (DecimalPart::Mark | DecimalPart::MarkSigned | DecimalPart::Exponent, Class::Digit) =>
                Some(DecimalPart::Exponent),
            _ => None,
        }
    }

    /// Returns what is read after one more byte, or nothing if no decimal begins so.
    pub fn step(self, byte: u8) -> Option<DecimalPart>
        ensures { result ≡ decimal_byte self byte }
    {
        self.step_class(class_of(byte))
    }

    /// Whether a decimal may end here.
    pub fn may_end(self) -> bool
        ensures { result ≡ may_end self }
    {
        matches!(
            self,
            DecimalPart::Whole | DecimalPart::Fraction | DecimalPart::Exponent
        )
    }
}

/// Returns the length of the longest prefix of a text with which a decimal begins.
pub fn decimal_len(text: &[u8]) -> usize
    ensures value { result ≡ decimal_length text.now }
    ensures within { result ≤ length text.now }
    ensures longest { IsLongest IsDecimal text.now result }
{
    let mut part = DecimalPart::Start;
    for at in 0..text.len() {
        match part.step(text[at]) {
            Some(longer) => part = longer,
            None => return at,
        }
    }
    text.len()
}
