//! Signs and digits of texts.
ghost use Rattle.std.specs.Prelude.{◌≡◌, ◌+◌, ◌*◌, ◌^◌, ◌<◌, ◌≤◌, ◌∷◌, MatchOption, length, drop, min};
ghost use Rattle.std.specs.List.{prefix_len, take_while};
ghost use Rattle.std.specs.Char.{is_ascii_digit};
ghost use Rattle.std.specs.Str.Parse.{starts_with_minus, without_leading_sign, digits_value, digits_value_after};
ghost use Rattle.numerals.specs.Sizes.{BeginsOtherwise};
ghost use Rattle.numerals.specs.Numeral.{AreDigits, is_nought, without_leading_zeros, trailing_zeros};

/// The most digits that a number may have.
pub const MOST_DIGITS: usize = 38;

/// Returns whether a text begins with a minus, and what follows its sign.
pub fn split_sign(text: &[u8]) -> (bool, &[u8])
    ensures minus { result.0 ≡ starts_with_minus text.now }
    ensures rest { result.1.now ≡ without_leading_sign text.now }
{
    match text {
        [b'-', rest @ ..] => (true, rest),
        [b'+', rest @ ..] => (false, rest),
        _ => (false, text),
    }
}

fn digits_len(text: &[u8]) -> usize
    ensures count { result ≡ prefix_len is_ascii_digit text.now }
    ensures within { result ≤ length text.now }
{
    text.iter().take_while(|b| b.is_ascii_digit()).count()
}

/// Returns what follows the first byte of a text if that is `byte`, and nothing otherwise.
pub fn after_byte(text: &[u8], byte: u8) -> Option<&[u8]>
    ensures { MatchOption result (BeginsOtherwise byte text.now) (λ rest. text.now ≡ byte ∷ rest.now) }
{
    match text {
        [first, rest @ ..] if *first == byte => Some(rest),
        _ => None,
    }
}

/// Returns the digits with which a text begins, and the rest of it.
#[tactic(auto, using(crate::proofs::Cut::front_are))]
pub fn split_digits(text: &[u8]) -> (&[u8], &[u8])
    ensures are { AreDigits result.0.now }
    ensures digits { result.0.now ≡ take_while is_ascii_digit text.now }
    ensures rest { result.1.now ≡ drop (prefix_len is_ascii_digit text.now) text.now }
{
    text.split_at(digits_len(text))
}

fn leading_zeros(digits: &[u8]) -> usize
    ensures count { result ≡ prefix_len is_nought digits.now }
    ensures within { result ≤ length digits.now }
{
    digits.iter().take_while(|b| **b == b'0').count()
}

#[tactic(auto, unfolding(crate::specs::Numeral::without_leading_zeros), using(std::proofs::lemmas::List::take_rest))]
pub fn without_leading_zeros(digits: &[u8]) -> &[u8]
    ensures { result.now ≡ without_leading_zeros digits.now }
{
    &digits[leading_zeros(digits)..]
}

#[tactic(auto, unfolding(crate::specs::Numeral::trailing_zeros))]
pub fn trailing_zeros(digits: &[u8]) -> usize
    ensures { result ≡ trailing_zeros digits.now }
{
    digits.iter().rev().take_while(|b| **b == b'0').count()
}

/// Returns the number that the digits of `start`, followed by these, denote.
pub fn extended(start: u128, digits: &[u8]) -> u128
    requires digits { AreDigits digits.now }
    requires room { (start + 1) * 10 ^ length digits.now ≤ 10 ^ 38 }
    ensures value { result ≡ digits_value_after 10 start digits.now }
    ensures below { result < (start + 1) * 10 ^ length digits.now }
{
    let mut number = start;
    for digit in digits {
        number = number * 10 + u128::from(*digit - b'0');
    }
    number
}

/// Returns the number that at most 38 digits denote.
pub fn number(digits: &[u8]) -> u128
    requires digits { AreDigits digits.now }
    requires few { length digits.now ≤ 38 }
    ensures value { result ≡ digits_value 10 digits.now }
    ensures below { result < 10 ^ length digits.now }
{
    extended(0, digits)
}

/// A number that is greater than the length of any text: 2^100.
pub const FAR: u128 = 0x10000000000000000000000000;

/// Returns the number that digits denote, or `FAR` if that is less.
pub fn number_to_far(digits: &[u8]) -> u128
    requires { AreDigits digits.now }
    ensures { result ≡ min (digits_value 10 digits.now) FAR }
{
    let mut number = 0;
    for digit in digits {
        number = (number * 10 + u128::from(*digit - b'0')).min(FAR);
    }
    number
}
