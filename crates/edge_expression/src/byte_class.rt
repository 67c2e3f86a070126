//! The bytes of edge expressions.
ghost use Rattle.std.specs.Prelude.{◌≡◌};
ghost use Rattle.edge_expression.specs.ByteMachine.{class_of};

use text_lines::is_blank;

/// What a byte may be in an edge expression, but for what belongs to decimals and to the letters of `\epsilon`.
#[derive(Clone, Copy)]
pub enum Class {
    Digit,
    Sign,
    /// What joins two factors, `*` or `/`.
    Joint,
    Caret,
    Open,
    Close,
    Backslash,
    Blank,
    Other,
}

#[tactic(auto, unfolding(crate::specs::ByteMachine::class_of))]
pub fn class_of(byte: u8) -> Class
    ensures { result ≡ class_of byte }
{
    if byte.is_ascii_digit() {
        Class::Digit
    } else if is_blank(byte) {
        Class::Blank
    } else if byte == b'+' || byte == b'-' {
        Class::Sign
    } else if byte == b'*' || byte == b'/' {
        Class::Joint
    } else if byte == b'^' {
        Class::Caret
    } else if byte == b'(' {
        Class::Open
    } else if byte == b')' {
        Class::Close
    } else if byte == b'\\' {
        Class::Backslash
    } else {
        Class::Other
    }
}
