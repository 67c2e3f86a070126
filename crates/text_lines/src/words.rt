//! A line, word by word.
ghost use Rattle.std.specs.Prelude.{◌≡◌, ℕ, List};
ghost use Rattle.std.specs.Option.{option_map};
ghost use Rattle.std.specs.Iterator.{item_count};
ghost use Rattle.text_lines.specs.Words.{words_of, TakesWord, only_word, only_three};

use crate::blank::{after_blanks, word_len};
use std::marker::Model;

/// The words of a line that are still to come.
#[derive(Drop)]
pub struct Words<'a> {
    rest: &'a [u8],
}

impl<'a> Model for Words<'a> {
    ghost Value = { List ℕ };

    ghost view = { λ words. words.rest.now };
}

impl<'a> Words<'a> {
    /// Returns the words of a line.
    pub fn new(line: &'a [u8]) -> Words<'a>
        ensures { result ≡ line.now }
    {
        Words { rest: line }
    }

    /// Returns the part of the line that follows the words taken so far.
    pub fn rest(&self) -> &'a [u8]
        ensures { result.now ≡ self.now }
    {
        self.rest
    }

    /// Returns the word, if there is exactly one.
    pub fn one(mut self) -> Option<&'a [u8]>
        ensures { option_map (λ word. word.now) result ≡ only_word (words_of self.entry) }
    {
        let first = self.next()?;
        match self.next() {
            Some(_) => None,
            None => Some(first),
        }
    }

    /// Returns the words, if there are exactly three.
    pub fn three(mut self) -> Option<(&'a [u8], &'a [u8], &'a [u8])>
        ensures { option_map (λ words. (words.0.now, words.1.now, words.2.now)) result ≡ only_three (words_of self.entry) }
    {
        let first = self.next()?;
        let second = self.next()?;
        let third = self.next()?;
        match self.next() {
            Some(_) => None,
            None => Some((first, second, third)),
        }
    }
}

impl<'a> Iterator for Words<'a> {
    type Item = &'a [u8];

    ghost next_gives = { TakesWord };

    ghost remaining = { item_count words_of };

    /// Returns the next word.
    #[tactic(auto, using(crate::proofs::Cut::next_words), unfolding(crate::specs::Words::after_word))]
    fn next(&mut self) -> Option<&'a [u8]> {
        let rest = after_blanks(self.rest);
        let (word, rest) = rest.split_at(word_len(rest));
        self.rest = rest;
        if word.is_empty() { None } else { Some(word) }
    }
}
