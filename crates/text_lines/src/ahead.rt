//! The lines of a text, with the next one at hand.
ghost use Rattle.std.specs.Prelude.{◌≡◌, [], ◌∷◌, MatchOption, map};
ghost use Rattle.std.specs.Option.{option_map};
ghost use Rattle.text_lines.specs.Lines.{rows_of, end_of, rows_left, end_at};
ghost use Rattle.text_lines.specs.View.{row};
ghost use Rattle.text_lines.specs.Left.{Left, first_of, rows_after_first, ahead};

use crate::{Line, Lines};
use std::marker::Model;

/// The lines of a text that are still to come, of which the first can be looked at before it is taken, as readers by recursive
/// descent need it. Skipped lines don't occur, as in `Lines`.
#[derive(Drop)]
pub struct Ahead<'a> {
    lines: Lines<'a>,
    first: Option<Line<'a>>,
}

impl<'a> Model for Ahead<'a> {
    ghost use Rattle.text_lines.specs.Left.{Left, ahead, AreTaken};

    ghost Value = { Left };

    ghost view = { λ it. ahead it.first it.lines };

    ghost invariant = { λ it. AreTaken it.first it.lines };
}

impl<'a> Ahead<'a> {
    /// Returns the lines of a text.
    pub fn new(text: &'a [u8]) -> Ahead<'a>
        ensures rows { result.rows ≡ rows_of text.now }
        ensures end { result.end ≡ end_of text.now }
    {
        let mut lines = Lines::new(text);
        let first = lines.next();
        Ahead { lines, first }
    }

    /// Returns the first line without taking it; `None` if no line is left.
    pub fn first(&self) -> Option<Line<'a>>
        ensures { option_map row result ≡ first_of self.now.rows }
    {
        self.first
    }

    /// Drops the first line, so that the next one is first. Does nothing if no line is left.
    pub fn skip(&mut self)
        ensures rows { self.new.rows ≡ rows_after_first self.old.rows }
        ensures end { self.new.end ≡ self.old.end }
    {
        self.first = self.lines.next();
    }

    /// Returns the number of all lines plus 1. It requires that no line is left.
    pub fn end(&self) -> usize
        requires { self.now.rows ≡ [] }
        ensures { result ≡ self.now.end }
    {
        self.lines.next_number()
    }
}
