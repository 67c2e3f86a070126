//! Edge expressions byte by byte.
ghost use Rattle.std.specs.Prelude.{◌≡◌, ◌≤◌};
ghost use Rattle.edge_expression.specs.ByteMachine.{
  next_letter,
  with_letter,
  further,
  at_operand,
  at_start,
  behind_factor,
  behind_part,
  behind_epsilon,
  behind_caret,
  behind_letter,
  next,
  opened,
  step,
  is_whole,
  may_end,
};

use crate::byte_class::{Class, class_of};
use numerals::DecimalPart;

/// The last byte that was read of `\epsilon`.
#[derive(Clone, Copy)]
pub enum Letter {
    Backslash,
    E,
    P,
    S,
    I,
    L,
    O,
}

/// What was read of an expression, but for the parentheses that are open.
#[derive(Clone, Copy)]
pub enum State {
    /// Nothing of a sum: a sign or a factor may be next.
    Start,
    /// A sign or a joint: a factor must be next.
    Operand,
    /// Part of a decimal.
    Decimal(DecimalPart),
    /// Part of the word `\epsilon`.
    Word(Letter),
    /// The word `\epsilon`.
    Epsilon,
    /// A caret: the digit of a power must be next.
    Caret,
    /// A factor.
    Factor,
}

/// What was read, and how many parentheses are open.
#[derive(Clone, Copy)]
pub struct Reached {
    pub state: State,
    pub depth: u32,
}

/// Returns the byte after a part of `\epsilon`.
fn next_letter(letter: Letter) -> u8
    ensures { result ≡ next_letter letter }
{
    match letter {
        Letter::Backslash => b'e',
        Letter::E => b'p',
        Letter::P => b's',
        Letter::S => b'i',
        Letter::I => b'l',
        Letter::L => b'o',
        Letter::O => b'n',
    }
}

/// Returns what is read after that byte.
fn with_letter(letter: Letter) -> State
    ensures { result ≡ with_letter letter }
{
    match letter {
        Letter::Backslash => State::Word(Letter::E),
        Letter::E => State::Word(Letter::P),
        Letter::P => State::Word(Letter::S),
        Letter::S => State::Word(Letter::I),
        Letter::I => State::Word(Letter::L),
        Letter::L => State::Word(Letter::O),
        Letter::O => State::Epsilon,
    }
}

/// Returns what is read after a byte that may begin a factor other than a decimal.
fn further(class: Class) -> Option<State>
    ensures { result ≡ further class }
{
    match class {
        Class::Backslash => Some(State::Word(Letter::Backslash)),
        Class::Open => Some(State::Start),
        _ => None,
    }
}

/// Returns what is read after a byte at which a factor must begin.
fn at_operand(byte: u8) -> Option<State>
    ensures { result ≡ at_operand byte }
{
    match (DecimalPart::Start.step(byte), class_of(byte)) {
        (Some(part), _) => Some(State::Decimal(part)),
        (None, Class::Blank) => Some(State::Operand),
        (None, class) => further(class),
    }
}

/// Returns what is read after a byte at which a sum begins.
fn at_start(byte: u8) -> Option<State>
    ensures { result ≡ at_start byte }
{
    match class_of(byte) {
        Class::Blank => Some(State::Start),
        Class::Sign => Some(State::Operand),
        _ => at_operand(byte),
    }
}

/// Returns what is read after a factor and one byte more.
fn behind_factor(class: Class) -> Option<State>
    ensures { result ≡ behind_factor class }
{
    match class {
        Class::Blank | Class::Close => Some(State::Factor),
        Class::Sign | Class::Joint => Some(State::Operand),
        _ => further(class),
    }
}

/// Returns what is read after part of a decimal and one byte more.
fn behind_part(part: DecimalPart, byte: u8) -> Option<State>
    ensures { result ≡ behind_part part byte }
{
    match part.step(byte) {
        Some(longer) => Some(State::Decimal(longer)),
        None if part.may_end() => behind_factor(class_of(byte)),
        None => None,
    }
}

/// Returns what is read after `\epsilon` and one byte more.
fn behind_epsilon(class: Class) -> Option<State>
    ensures { result ≡ behind_epsilon class }
{
    match class {
        Class::Caret => Some(State::Caret),
        Class::Blank => Some(State::Epsilon),
        _ => behind_factor(class),
    }
}

/// Returns what is read after a caret and one byte more.
fn behind_caret(class: Class) -> Option<State>
    ensures { result ≡ behind_caret class }
{
    match class {
        Class::Blank => Some(State::Caret),
        Class::Digit => Some(State::Factor),
        _ => None,
    }
}

/// Returns what is read after part of `\epsilon` and one byte more.
fn behind_letter(letter: Letter, byte: u8) -> Option<State>
    ensures { result ≡ behind_letter letter byte }
{
    if byte == next_letter(letter) {
        Some(with_letter(letter))
    } else {
        None
    }
}

/// Returns what is read after one byte more, but for the parentheses that are open.
fn next(state: State, byte: u8) -> Option<State>
    ensures { result ≡ next state byte }
{
    match state {
        State::Start => at_start(byte),
        State::Operand => at_operand(byte),
        State::Decimal(part) => behind_part(part, byte),
        State::Word(letter) => behind_letter(letter, byte),
        State::Epsilon => behind_epsilon(class_of(byte)),
        State::Caret => behind_caret(class_of(byte)),
        State::Factor => behind_factor(class_of(byte)),
    }
}

/// Returns how many parentheses are open after such a byte, or nothing if it closes one and none is.
fn opened(class: Class, depth: u32) -> Option<u32>
    requires { depth ≤ 32 }
    ensures { result ≡ opened class depth }
{
    match (class, depth) {
        (Class::Open, _) => Some(depth + 1),
        (Class::Close, 0) => None,
        (Class::Close, _) => Some(depth - 1),
        _ => Some(depth),
    }
}

/// Returns what is read after one byte more, or nothing if no expression begins so.
#[tactic(auto, unfolding(crate::specs::ByteMachine::step))]
pub fn step(reached: Reached, byte: u8) -> Option<Reached>
    requires { reached.depth ≤ 32 }
    ensures { result ≡ step reached byte }
{
    let state = next(reached.state, byte)?;
    let depth = opened(class_of(byte), reached.depth)?;
    Some(Reached { state, depth })
}

fn is_whole(state: State) -> bool
    ensures { result ≡ is_whole state }
{
    match state {
        State::Factor | State::Epsilon => true,
        State::Decimal(part) => part.may_end(),
        _ => false,
    }
}

/// Whether an expression may end here.
#[tactic(auto, unfolding(crate::specs::ByteMachine::may_end))]
pub fn may_end(reached: Reached) -> bool
    ensures { result ≡ may_end reached }
{
    is_whole(reached.state) && reached.depth == 0
}
