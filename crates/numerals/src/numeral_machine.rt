//! A numeral byte by byte.
ghost use Rattle.std.specs.Prelude.{◌≡◌};
ghost use Rattle.numerals.specs.NumeralMachine.{step, is_final};

use crate::byte_class::Class;
use crate::decimal_machine::DecimalPart;

/// What was read of a numeral so far.
#[derive(Clone, Copy)]
pub enum State {
    /// Nothing.
    Start,
    /// Part of a decimal, after a sign or none.
    Decimal(DecimalPart),
    /// A slash after digits.
    Slash,
    /// Digits after the slash.
    Under,
}

/// Returns what is read after one more byte of this class, or nothing if no numeral begins so.
pub fn step(state: State, class: Class) -> Option<State>
    ensures { result ≡ step state class }
{
    match (state, class) {
        (State::Start, Class::Sign) => Some(State::Decimal(DecimalPart::Start)),
        (State::Start, _) => DecimalPart::Start.step_class(class).map(State::Decimal),
        (State::Decimal(DecimalPart::Whole), Class::Slash) => Some(State::Slash),
        (State::Decimal(part), _) => part.step_class(class).map(State::Decimal),
        (State::Slash | State::Under, Class::Digit) => Some(State::Under),
        (State::Slash | State::Under, _) => None,
    }
}

/// Whether a numeral may end here.
pub fn is_final(state: State) -> bool
    ensures { result ≡ is_final state }
{
    match state {
        State::Decimal(part) => part.may_end(),
        State::Under => true,
        State::Start | State::Slash => false,
    }
}
