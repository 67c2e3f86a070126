//! A text, line by line.
ghost use Rattle.std.specs.Prelude.{◌≡◌, ◌+◌, ◌<◌, ◌≤◌, ◌^◌, [], ◌∷◌, length, MatchOption};
ghost use Rattle.std.specs.List.{position_or_len, before_first, after_first};
ghost use Rattle.std.specs.Iterator.{item_count};
ghost use Rattle.std.specs.Str.Lines.{strip_carriage_return};
ghost use Rattle.text_lines.specs.Lines.{is_line_feed, is_skipped, lines_of, rows_of, end_of, Remainder, rows_left, end_at};
ghost use Rattle.text_lines.specs.View.{TakesRow};

use crate::Line;
use crate::blank::after_blanks;
use std::marker::Model;

/// The lines of a text that are still to come and aren't skipped. A line ends with a line feed, perhaps after a carriage
/// return; the last one may lack its line feed. Lines of blanks, and lines whose first other byte is `#`, are skipped.
#[derive(Drop)]
pub struct Lines<'a> {
    rest: &'a [u8],
    number: usize,
}

impl<'a> Model for Lines<'a> {
    ghost use Rattle.std.specs.Prelude.{◌+◌, ◌<◌, ◌^◌, length};
    ghost use Rattle.text_lines.specs.Lines.{Remainder};

    ghost Value = { Remainder };

    ghost view = { λ lines. record { before = lines.number; text = lines.rest.now } };

    ghost invariant = { λ lines. lines.number + length lines.rest.now + 1 < 2 ^ 64 };
}

/// Whether a line has only blanks, or `#` as its first other byte.
#[tactic(auto, unfolding(crate::specs::Lines::is_skipped))]
fn is_skipped(line: &[u8]) -> bool
    ensures { result ≡ is_skipped line.now }
{
    match after_blanks(line) {
        [] => true,
        [first, ..] => *first == b'#',
    }
}

fn strip_carriage_return(line: &[u8]) -> &[u8]
    ensures { result.now ≡ strip_carriage_return line.now }
{
    match line.split_last() {
        Some((b'\r', front)) => front,
        _ => line,
    }
}

fn line_len(bytes: &[u8]) -> usize
    ensures value { result ≡ position_or_len is_line_feed bytes.now }
    ensures within { result ≤ length bytes.now }
{
    bytes.iter().take_while(|byte| **byte != b'\n').count()
}

/// Returns the front of a text before its first line feed, and what follows the line feed.
fn cut_line(text: &[u8]) -> (&[u8], &[u8])
    ensures line { result.0.now ≡ before_first is_line_feed text.now }
    ensures rest { result.1.now ≡ after_first is_line_feed text.now }
    ensures shorter { 0 < length text.now → length result.1.now < length text.now }
{
    let (line, rest) = text.split_at(line_len(text));
    match rest {
        [_, rest @ ..] => (line, rest),
        [] => (line, rest),
    }
}

impl<'a> Lines<'a> {
    /// Returns the lines of a text.
    #[tactic(auto, unfolding(crate::specs::Lines::rows_left, crate::specs::Lines::end_at))]
    pub fn new(text: &'a [u8]) -> Lines<'a>
        ensures start { result ≡ record { before = 0; text = text.now } }
        ensures rows { rows_left result ≡ rows_of text.now }
        ensures end { end_at result ≡ end_of text.now }
    {
        Lines {
            rest: text,
            number: 0,
        }
    }

    /// Returns the number of the line after those taken so far. It is 1 for a new reader, and the number of the returned line
    /// plus 1 after each `next`. Once `next` has returned `None`, it is the number of all lines plus 1.
    pub fn next_number(&self) -> usize
        ensures { result ≡ self.now.before + 1 }
    {
        self.number + 1
    }

    /// Returns the next line, skipped or not.
    #[tactic(auto, using(crate::proofs::Cut::lines_end, crate::proofs::Cut::lines_cut))]
    fn take_line(&mut self) -> Option<&'a [u8]>
        ensures cases { MatchOption result
            ((lines_of self.old.text ≡ []) × (self.new ≡ self.old))
            (λ line. (lines_of self.old.text ≡ line.now ∷ lines_of self.new.text)
            × (self.new.before ≡ self.old.before + 1) × (length self.new.text < length self.old.text)) }
    {
        if self.rest.is_empty() {
            return None;
        }
        let (line, rest) = cut_line(self.rest);
        self.number += 1;
        self.rest = rest;
        Some(strip_carriage_return(line))
    }
}

impl<'a> Iterator for Lines<'a> {
    type Item = Line<'a>;

    ghost next_gives = { TakesRow };

    ghost remaining = { item_count rows_left };

    /// Returns the next line that isn't skipped.
    #[tactic(auto, using(crate::proofs::Cut::kept_rows), unfolding(crate::specs::Lines::rows_left, crate::specs::Lines::end_at))]
    fn next(&mut self) -> Option<Line<'a>> {
        while let Some(text) = self.take_line() {
            if !is_skipped(text) {
                return Some(Line {
                    number: self.number,
                    text,
                });
            }
        }
        None
    }
}
