//! Printed numbers and fractions, read back. Only the one text that is printed for a number is read.
ghost use Rattle.std.specs.Prelude.{◌≡◌, ℤ, ◌++◌, ◌∷◌, pos, Some, IfSome, IsTrue, ◌↔◌, FitsSigned, MatchOption};
ghost use Rattle.std.specs.Int.{w128};
ghost use Rattle.std.specs.Fmt.{signed_decimal};
ghost use Rattle.field_core.specs.declared.ratio.Ratio.{Ratio};
ghost use Rattle.field_core.specs.Terms.{IsReduced};
ghost use Rattle.field_core.specs.Texts.{fraction_text};
ghost use Rattle.field_core.specs.View.{terms};
ghost use Rattle.fraction.specs.Spelling.{spelling};
ghost use Rattle.study_sqlite.specs.Parts.{HasNoSlash};

use field_core::{Ratio, gcd};
use itoa::Buffer;
use std::str;

/// Returns the fraction that is printed as this text: `n`, or `n/d` if the denominator isn't 1, in lowest terms. Any other text
/// gives nothing.
pub fn printed_ratio(text: &[u8]) -> Option<Ratio>
    ensures found { IfSome result (λ x. text.now ≡ spelling (terms x)) }
    ensures only { (x : Ratio) → text.now ≡ spelling (terms x) → result ≡ Some x }
{
    let (num, den) = printed_parts(text)?;
    lowest_ratio(num, den)
}

/// Returns the fraction of these parts, if they are in lowest terms.
fn lowest_ratio(num: i128, den: i128) -> Option<Ratio>
    ensures found { IfSome result (λ x. terms x ≡ record { num = num; den = den }) }
    ensures only { (x : Ratio) → terms x ≡ record { num = num; den = den } → result ≡ Some x }
{
    if are_lowest(num, den) {
        Some(Ratio::new(num, den))
    } else {
        None
    }
}

/// Returns the parts that are printed as this text, in lowest terms or not.
fn printed_parts(text: &[u8]) -> Option<(i128, i128)>
    ensures found { IfSome result (λ parts. text.now ≡ fraction_text parts.0 parts.1) }
    ensures only { (n d : ℤ) → FitsSigned w128 n → FitsSigned w128 d → text.now ≡ fraction_text n d → result ≡ Some (n, d) }
{
    let (over, under) = split_slash(text);
    let num = printed_number(over)?;
    match under {
        None => Some((num, 1)),
        Some(under) => Some((num, printed_denominator(under)?)),
    }
}

/// Returns the denominator that is printed as this text, which isn't 1.
fn printed_denominator(text: &[u8]) -> Option<i128>
    ensures found { IfSome result (λ d. (text.now ≡ signed_decimal d) × (d ≡ pos 1 → ⊥)) }
    ensures only { (d : ℤ) → FitsSigned w128 d → (d ≡ pos 1 → ⊥) → text.now ≡ signed_decimal d → result ≡ Some d }
{
    let den = printed_number(text)?;
    if den == 1 { None } else { Some(den) }
}

/// Returns what is before the first slash, and what is after it, if there is a slash.
fn split_slash(text: &[u8]) -> (&[u8], Option<&[u8]>)
    ensures front { HasNoSlash result.0.now }
    ensures whole { MatchOption result.1 (text.now ≡ result.0.now) (λ under. text.now ≡ result.0.now ++ 47 ∷ under.now) }
{
    match text.iter().position(|byte| *byte == b'/') {
        None => (text, None),
        Some(at) => (&text[..at], Some(&text[at + 1..])),
    }
}

/// Returns the number that is printed as this text, if there is one.
fn printed_number(text: &[u8]) -> Option<i128>
    ensures found { IfSome result (λ n. text.now ≡ signed_decimal n) }
    ensures only { (n : ℤ) → FitsSigned w128 n → text.now ≡ signed_decimal n → result ≡ Some n }
{
    let number = parsed_number(text)?;
    if is_printed(number, text) {
        Some(number)
    } else {
        None
    }
}

/// Returns the number that a text denotes in some spelling. The clause states this only of a text that is printed for a number.
fn parsed_number(text: &[u8]) -> Option<i128>
    ensures { (n : ℤ) → FitsSigned w128 n → text.now ≡ signed_decimal n → result ≡ Some n }
{
    match str::from_utf8(text) {
        Ok(text) => text.parse::<i128>().ok(),
        Err(_) => None,
    }
}

/// Whether a number is printed as this text.
fn is_printed(number: i128, text: &[u8]) -> bool
    ensures { IsTrue result ↔ (text.now ≡ signed_decimal number) }
{
    let mut buffer = Buffer::new();
    buffer.format(number).as_bytes() == text
}

/// Whether these are the parts of a fraction in lowest terms.
fn are_lowest(num: i128, den: i128) -> bool
    ensures { IsTrue result ↔ IsReduced (record { num = num; den = den }) }
{
    0 < den && num != i128::MIN && gcd(num.unsigned_abs(), den.unsigned_abs()) == 1
}
