//! A line of a text.
ghost use Rattle.std.specs.Prelude.{◌≡◌, IfSome};
ghost use Rattle.std.specs.Option.{option_map};
ghost use Rattle.text_lines.specs.Words.{words_of, after_word, words_after};

use crate::Words;

/// A line that isn't skipped, and its number among all lines, from 1.
#[derive(Clone, Copy)]
pub struct Line<'a> {
    pub number: usize,
    pub text: &'a [u8],
}

impl<'a> Line<'a> {
    /// Returns the words of the line.
    pub fn words(&self) -> Words<'a>
        ensures { result ≡ self.now.text.now }
    {
        Words::new(self.text)
    }

    /// Returns the words after the first one if that is the keyword, and `None` otherwise.
    pub fn words_after(&self, keyword: &[u8]) -> Option<Words<'a>>
        ensures words { option_map words_of result ≡ words_after keyword.now (words_of self.now.text.now) }
        ensures rest { IfSome result (λ words. words ≡ after_word self.now.text.now) }
    {
        let mut words = self.words();
        let first = words.next()?;
        if first != keyword {
            return None;
        }
        Some(words)
    }
}
