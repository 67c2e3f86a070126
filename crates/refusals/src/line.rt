//! Lines, and the words that several lines have.
ghost use Rattle.std.specs.Prelude.{◌≡◌, Some, string_bytes};
ghost use Rattle.refusals.specs.LinePieces.{counted, name_at};

use answers::{Cause, Refusal};
use field_core::{List, Text};
use std::fmt;

/// Returns the refusal with a line.
pub fn refusal(cause: Cause, line: String) -> Refusal
    ensures { result ≡ record { cause = cause; line = string_bytes line } }
{
    Refusal {
        cause,
        line: List::of(line.into_bytes()),
    }
}

/// A place, which prints as its number from 1.
#[derive(Clone, Copy)]
pub struct Counted(pub usize);

impl fmt::Display for Counted {
    ghost output = { λ place. Some (counted place.0) };

    fn fmt<W: fmt::Write>(&self, f: &mut fmt::Formatter<W>) -> fmt::Result {
        write!(f, "{}", self.0 as u128 + 1)
    }
}

/// A text, which prints as it is. One that isn't UTF-8 is an error; the names of a case are ASCII.
#[derive(Clone, Copy)]
pub struct Shown<'a>(pub &'a Text);

impl fmt::Display for Shown<'_> {
    ghost output = { λ shown. Some shown.0.now };

    fn fmt<W: fmt::Write>(&self, f: &mut fmt::Formatter<W>) -> fmt::Result {
        match str::from_utf8(self.0.as_bytes()) {
            Ok(text) => f.write_str(text),
            Err(_) => Err(fmt::Error),
        }
    }
}

/// The names of the hypotheses of a case.
#[derive(Clone, Copy)]
pub struct Names<'a>(pub &'a [Text]);

impl<'a> Names<'a> {
    /// Returns a hypothesis, or a value that names hypotheses, with the names.
    pub fn of<T: Copy>(&self, it: T) -> Named<'a, T>
        ensures { result ≡ record { names = self.now; it = it } }
    {
        Named { names: *self, it }
    }
}

/// A hypothesis by its position, or a value that names hypotheses, with the names of the case.
#[derive(Clone, Copy)]
pub struct Named<'a, T> {
    pub names: Names<'a>,
    pub it: T,
}

/// Prints a hypothesis as its name; past the last name as its place, counted from 1.
impl fmt::Display for Named<'_, usize> {
    ghost output = { λ named. Some (name_at named.names.0.now named.it) };

    #[tactic(auto, unfolding(crate::specs::LinePieces::name_at))]
    fn fmt<W: fmt::Write>(&self, f: &mut fmt::Formatter<W>) -> fmt::Result {
        match self.names.0.get(self.it) {
            Some(name) => Shown(name).fmt(f),
            None => Counted(self.it).fmt(f),
        }
    }
}
