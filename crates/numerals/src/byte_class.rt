//! The bytes of numerals.
ghost use Rattle.std.specs.Prelude.{◌≡◌};
ghost use Rattle.numerals.specs.DecimalMachine.{class_of};

/// What a byte may be in a numeral.
#[derive(Clone, Copy)]
pub enum Class {
    Digit,
    Sign,
    Point,
    /// The mark of an exponent, `e` or `E`.
    Mark,
    Slash,
    Other,
}

#[tactic(auto, unfolding(crate::specs::DecimalMachine::class_of))]
pub fn class_of(byte: u8) -> Class
    ensures { result ≡ class_of byte }
{
    if byte.is_ascii_digit() {
        Class::Digit
    } else if byte == b'+' || byte == b'-' {
        Class::Sign
    } else if byte == b'.' {
        Class::Point
    } else if byte == b'e' || byte == b'E' {
        Class::Mark
    } else if byte == b'/' {
        Class::Slash
    } else {
        Class::Other
    }
}
