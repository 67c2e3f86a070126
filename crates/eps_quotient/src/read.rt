//! Reading the texts of quotients.
ghost use Rattle.std.specs.Prelude.{
  ◌≡◌,
  ◌≢◌,
  ◌==◌,
  ◌-◌,
  ◌^◌,
  ◌∷◌,
  ◌++◌,
  ℕ,
  List,
  [],
  min,
  true,
  false,
  IfSome,
  IfNone,
};
ghost use Rattle.std.specs.Char.{is_ascii_digit};
ghost use Rattle.std.specs.List.{All, list_all, slice_split};
ghost use Rattle.std.specs.Option.{option_or};
ghost use Rattle.std.specs.Str.Parse.{digits_value};
ghost use Rattle.eps_quotient.specs.Texts.{
  number_of,
  whole_of,
  polynomial_of,
  list_in,
  fraction_in,
  lists_in,
  whole_in,
  polynomials_in,
};

use crate::pair::one;
use eps_poly::EpsPoly;
use field_core::Whole;

/// The largest size of a part.
const LARGEST: u128 = u128::MAX / 2;

/// Whether each byte is a digit.
fn are_digits(text: &[u8]) -> bool
    ensures { result ≡ list_all is_ascii_digit text.now }
{
    text.iter().all(|byte| byte.is_ascii_digit())
}

/// Returns the number that digits denote, or 2^128 - 1 if that is less.
fn size(digits: &[u8]) -> u128
    requires { list_all is_ascii_digit digits.now ≡ true }
    ensures { result ≡ min (digits_value 10 digits.now) (2 ^ 128 - 1) }
{
    let mut size: u128 = 0;
    for digit in digits {
        size = size
            .saturating_mul(10)
            .saturating_add(u128::from(*digit - b'0'));
    }
    size
}

/// Returns the number that a text of digits denotes, if it is at most 2^127 - 1.
#[tactic(auto, unfolding(crate::specs::Texts::number_of))]
fn number(text: &[u8]) -> Option<Whole>
    ensures { result ≡ number_of text.now }
{
    if text.is_empty() || !are_digits(text) {
        return None;
    }
    let size = size(text);
    if size > LARGEST {
        return None;
    }
    Some(Whole::new(size as i128))
}

/// Returns the number that digits denote, perhaps after a minus, if it is at most 2^127 - 1 in size.
#[tactic(auto, unfolding(crate::specs::Texts::whole_of))]
fn whole(text: &[u8]) -> Option<Whole>
    ensures { result ≡ whole_of text.now }
{
    match text {
        [] => None,
        [b'-', digits @ ..] => Some(number(digits)?.negated()),
        _ => number(text),
    }
}

/// Returns what is before the first `byte` of a text, and what is after it; nothing if the text doesn't have it.
fn cut(text: &[u8], byte: u8) -> Option<(&[u8], &[u8])>
    ensures none { IfNone result (All (λ b. (b == byte) ≡ false) text.now) }
    ensures whole { IfSome result (λ x. text.now ≡ x.0.now ++ byte ∷ x.1.now) }
    ensures first { IfSome result (λ x. All (λ b. (b == byte) ≡ false) x.0.now) }
{
    let front = text.iter().take_while(|b| **b != byte).count();
    if front == text.len() {
        return None;
    }
    Some((&text[..front], &text[front + 1..]))
}

/// Returns what is inside the brackets of a text, if it is in brackets.
fn inside(text: &[u8]) -> Option<&[u8]>
    ensures found { IfSome result (λ inner. text.now ≡ 91 ∷ inner.now ++ 93 ∷ []) }
    ensures none { IfNone result ((inner : List ℕ) → text.now ≢ 91 ∷ inner ++ 93 ∷ []) }
{
    match text {
        [b'[', inner @ .., b']'] => Some(inner),
        _ => None,
    }
}

/// Returns the polynomial whose coefficients are written with commas between them.
fn polynomial(text: &[u8]) -> Option<EpsPoly>
    ensures { result ≡ polynomial_of (slice_split (λ b. b == 44) text.now) }
{
    let mut polynomial = EpsPoly::zero();
    let mut rest = text;
    for power in 0..33 {
        let Some((word, more)) = cut(rest, b',') else {
            polynomial.put(power, whole(rest)?);
            return Some(polynomial);
        };
        polynomial.put(power, whole(word)?);
        rest = more;
    }
    None
}

/// Returns the polynomial whose coefficients are in brackets.
#[tactic(auto, using(crate::proofs::Texts::inside_found, crate::proofs::Texts::inside_none))]
fn list(text: &[u8]) -> Option<EpsPoly>
    ensures { result ≡ list_in text.now }
{
    polynomial(inside(text)?)
}

/// Returns the two polynomials of a whole number over a number, both constants.
fn fraction(over: &[u8], under: &[u8]) -> Option<(EpsPoly, EpsPoly)>
    ensures { result ≡ fraction_in over.now under.now }
{
    let num = whole(over)?;
    let den = number(under)?;
    Some((EpsPoly::monomial(num, 0), EpsPoly::monomial(den, 0)))
}

/// Returns the two polynomials of a list over a list.
fn lists(over: &[u8], under: &[u8]) -> Option<(EpsPoly, EpsPoly)>
    ensures { result ≡ lists_in over.now under.now }
{
    let numerator = list(over)?;
    let denominator = list(under)?;
    Some((numerator, denominator))
}

/// Returns the two polynomials of both sides of a slash, which are numbers or lists.
fn sides(over: &[u8], under: &[u8]) -> Option<(EpsPoly, EpsPoly)>
    ensures { result ≡ option_or (fraction_in over.now under.now) (lists_in over.now under.now) }
{
    match fraction(over, under) {
        Some(pair) => Some(pair),
        None => lists(over, under),
    }
}

/// Returns the two polynomials of a whole number: itself, and 1.
fn over_one(text: &[u8]) -> Option<(EpsPoly, EpsPoly)>
    ensures { result ≡ whole_in text.now }
{
    let number = whole(text)?;
    Some((EpsPoly::monomial(number, 0), one()))
}

/// Returns the two polynomials of a text without or with a slash, and nothing for any other text. The second may be 0.
#[tactic(auto, unfolding(crate::specs::Texts::polynomials_in), using(crate::proofs::Texts::cut_at, crate::proofs::Texts::cut_none))]
pub fn polynomials(text: &[u8]) -> Option<(EpsPoly, EpsPoly)>
    ensures { result ≡ polynomials_in text.now }
{
    match cut(text, b'/') {
        Some((over, under)) => sides(over, under),
        None => over_one(text),
    }
}
