//! Whole numbers that short texts of digits denote.
ghost use Rattle.std.specs.Prelude.{◌≡◌, ◌≤◌, ◌<◌, ◌^◌, ℕ, IfSome, IfNone};
ghost use Rattle.std.specs.Char.{is_ascii_digit};
ghost use Rattle.std.specs.List.{list_all};
ghost use Rattle.numerals.specs.WholeNumbers.{WritesNumber};

use crate::digits::number;

/// Whether each byte is a digit.
pub fn are_digits(text: &[u8]) -> bool
    ensures { result ≡ list_all is_ascii_digit text.now }
{
    text.iter().all(|byte| byte.is_ascii_digit())
}

/// Returns the number that a text of 1 to `most` digits denotes, and nothing for any other text.
#[tactic(auto, using(crate::proofs::WholeNumbers::whole_numbers))]
pub fn whole_number(text: &[u8], most: usize) -> Option<u128>
    requires { most ≤ 38 }
    ensures found { IfSome result (WritesNumber most text.now) }
    ensures below { IfSome result (λ n. n < 10 ^ most) }
    ensures other { IfNone result ((n : ℕ) → ¬ WritesNumber most text.now n) }
{
    if text.is_empty() {
        return None;
    }
    if text.len() > most {
        return None;
    }
    if !are_digits(text) {
        return None;
    }
    Some(number(text))
}
