//! The two ends of an edge, and its expression.
ghost use Rattle.std.specs.Prelude.{◌≡◌, IfSome};
ghost use Rattle.std.specs.Option.{option_map};
ghost use Rattle.text_lines.specs.Words.{words_of, after_words};
ghost use Rattle.edge_text.specs.WordReading.{ends_of};

use text_lines::Words;

/// The names of the ends of an edge, and what follows them.
#[derive(Clone, Copy)]
pub struct Ends<'a> {
    pub from: &'a [u8],
    pub to: &'a [u8],
    pub expression: &'a [u8],
}

impl<'a> Ends<'a> {
    /// Returns two words and what follows them, if a word follows.
    pub fn of(mut words: Words<'a>) -> Option<Ends<'a>>
        ensures ends { option_map (λ ends. (ends.from.now, ends.to.now)) result ≡ ends_of (words_of words.entry) }
        ensures rest { IfSome result (λ ends. ends.expression.now ≡ after_words 2 words.entry) }
    {
        let from = words.next()?;
        let to = words.next()?;
        let expression = words.rest();
        words.next()?;
        Some(Ends {
            from,
            to,
            expression,
        })
    }
}
