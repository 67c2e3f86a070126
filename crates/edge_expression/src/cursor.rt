//! What is left of an edge expression, token by token. Each call takes the blanks before what it takes.
ghost use Rattle.std.specs.Prelude.{◌≡◌, [], ◌∷◌, MatchOption};
ghost use Rattle.std.specs.Bool.{MatchBool};
ghost use Rattle.text_lines.specs.Words.{after_blanks};
ghost use Rattle.edge_expression.specs.CursorView.{IsOtherThan, SignTaken, JointTaken, HeadTaken, PowerTaken, CloseTaken};

use crate::polynomial::Operation;
use numerals::decimal_len;
use text_lines::after_blanks;

/// What is left of an edge expression.
#[derive(Drop)]
pub struct Cursor<'a> {
    rest: &'a [u8],
}

/// The front of a factor.
#[derive(Clone, Copy)]
pub enum Head<'a> {
    /// A decimal, by its text.
    Decimal(&'a [u8]),
    /// The word `\epsilon`.
    Epsilon,
    /// An opening parenthesis.
    Open,
}

impl<'a> Cursor<'a> {
    /// Returns a cursor at the beginning of a text.
    pub fn new(text: &'a [u8]) -> Cursor<'a>
        ensures { result.rest.now ≡ text.now }
    {
        Cursor { rest: text }
    }

    /// Takes the next byte, if there is one.
    fn take(&mut self) -> Option<u8>
        ensures { MatchOption result ((after_blanks self.old.rest.now ≡ [])
            × (self.new.rest.now ≡ self.old.rest.now))
            (λ b. after_blanks self.old.rest.now ≡ b ∷ self.new.rest.now) }
    {
        match after_blanks(self.rest) {
            [] => None,
            [byte, rest @ ..] => {
                self.rest = rest;
                Some(*byte)
            }
        }
    }

    /// Whether `byte` is next; if so, takes it.
    fn take_byte(&mut self, byte: u8) -> bool
        ensures { MatchBool result (after_blanks self.old.rest.now ≡ byte ∷ self.new.rest.now)
            (IsOtherThan byte (after_blanks self.old.rest.now) × (self.new.rest.now ≡ self.old.rest.now)) }
    {
        match after_blanks(self.rest) {
            [first, rest @ ..] if *first == byte => {
                self.rest = rest;
                true
            }
            _ => false,
        }
    }

    /// Takes a sign, if one is next, and returns what the sign does with the term after it.
    pub fn take_sign(&mut self) -> Option<Operation>
        ensures { SignTaken result self.old.rest.now self.new.rest.now }
    {
        if self.take_byte(b'+') {
            Some(Operation::Add)
        } else if self.take_byte(b'-') {
            Some(Operation::Subtract)
        } else {
            None
        }
    }

    /// Takes what joins a further factor to those before it, and returns it, if there is a further factor. For a `*` that is left out
    /// no byte is taken.
    pub fn take_joint(&mut self) -> Option<Operation>
        ensures { JointTaken result self.old.rest.now self.new.rest.now }
    {
        if self.take_byte(b'*') {
            Some(Operation::Multiply)
        } else if self.take_byte(b'/') {
            Some(Operation::Divide)
        } else {
            match after_blanks(self.rest) {
                [b'(' | b'\\', ..] => Some(Operation::Multiply),
                _ => None,
            }
        }
    }

    /// Takes the front of a factor, and returns it.
    pub fn take_head(&mut self) -> Head<'a>
        ensures { HeadTaken result (after_blanks self.old.rest.now) self.new.rest.now }
    {
        let rest = after_blanks(self.rest);
        match rest {
            [b'(', behind @ ..] => {
                self.rest = behind;
                Head::Open
            }
            [b'\\', ..] => {
                let (_, behind) = rest.split_at(rest.len().min(8));
                self.rest = behind;
                Head::Epsilon
            }
            _ => {
                let (decimal, behind) = rest.split_at(decimal_len(rest));
                self.rest = behind;
                Head::Decimal(decimal)
            }
        }
    }

    /// Takes a caret and a power, if they are next, and returns the power, which is 1 if they are not.
    pub fn take_power(&mut self) -> usize
        ensures { PowerTaken result self.old.rest.now self.new.rest.now }
    {
        if !self.take_byte(b'^') {
            return 1;
        }
        match self.take() {
            Some(digit) => usize::from(digit.wrapping_sub(b'0')),
            None => 1,
        }
    }

    /// Takes a closing parenthesis.
    pub fn take_close(&mut self)
        ensures { CloseTaken self.old.rest.now self.new.rest.now }
    {
        self.take();
    }
}
