//! Reading the words from left to right.
ghost use Rattle.std.specs.Prelude.{◌≡◌, ◌<◌, ◌+◌, ◌^◌, length, codes};
ghost use Rattle.std.specs.Str.{bytes_eq};
ghost use Rattle.std.specs.Option.{option_map};
ghost use Rattle.field_core.specs.Answers.{mapped};
ghost use Rattle.command_words.specs.Asked.{asked, study_asked};
ghost use Rattle.command_words.specs.Given.{given_content, not_given};
ghost use Rattle.command_words.specs.Table.{argument_of};
ghost use Rattle.command_words.specs.WordBytes.{words_in};
ghost use Rattle.command_words.specs.Words.{asks_study, pieces_in, asked_in, study_in};

use crate::argument::Argument;
use crate::command::{Command, StudyCall};
use crate::given::Given;
use crate::verb::Verb;
use crate::word::parts_of;

/// Returns what a word with this name gives, or one without a name; `None` if the command takes none, or it is given already.
fn argument(verb: Verb, given: &Given<'_>, name: Option<&str>) -> Option<Argument>
    ensures { result ≡ not_given (given_content given.now) (argument_of verb (option_map (λ text. text.now) name.entry)) }
{
    let argument = verb.argument(name)?;
    if given.has(argument) {
        return None;
    }
    Some(argument)
}

/// Returns what is given with these words, the first of which is at a place, after what was given before. If their reading fails, it
/// is the number, from 1, of the word at which it does. An argument comes at most once, so it calls itself at most eleven times.
fn pieces<'a>(
    verb: Verb,
    given: &Given<'a>,
    at: usize,
    words: &'a [String],
) -> Result<Given<'a>, usize>
    requires { at + length words.now < 2 ^ 63 }
    ensures { mapped given_content result ≡ pieces_in verb at (given_content given.now) (words_in words.now) }
{
    let Some((word, more)) = words.split_first() else {
        return Ok(given.copied());
    };
    let parts = parts_of(word.as_str());
    let Some(argument) = argument(verb, given, parts.name) else {
        return Err(at + 1);
    };
    match parts.text {
        Some(text) => match given.with(verb, at, argument, text) {
            Some(all) => pieces(verb, &all, at + 1, more),
            None => Err(at + 1),
        },
        None => match more.split_first() {
            Some((text, rest)) => match given.with(verb, at, argument, text.as_str()) {
                Some(all) => pieces(verb, &all, at + 2, rest),
                None => Err(at + 2),
            },
            None => Err(at + 2),
        },
    }
}

/// Whether a word is `study`.
fn is_study(word: &str) -> bool
    ensures { result ≡ bytes_eq word.now (codes "study") }
{
    word == "study"
}

/// Whether the first word is `study`. Then the words go to its top call.
pub fn asks_study(words: &[String]) -> bool
    ensures { result ≡ asks_study (words_in words.now) }
{
    match words {
        [first, ..] => is_study(first.as_str()),
        [] => false,
    }
}

/// Returns what the words ask a study for; or the number, from 1, of the first word at which the reading fails.
pub fn read_study(words: &[String]) -> Result<StudyCall<'_>, usize>
    ensures { mapped study_asked result ≡ study_in (words_in words.now) }
{
    let Some((first, more)) = words.split_first() else {
        return Err(1);
    };
    if !is_study(first.as_str()) {
        return Err(1);
    }
    match pieces(Verb::Study, &Given::new(), 1, more) {
        Ok(given) => match given.study() {
            Some(call) => Ok(call),
            None => Err(words.len() + 1),
        },
        Err(n) => Err(n),
    }
}

/// Returns what the words ask for, but of a study; or the number, from 1, of the first word at which the reading fails.
pub fn read_words(words: &[String]) -> Result<Command, usize>
    ensures { mapped asked result ≡ asked_in (words_in words.now) }
{
    let Some((first, more)) = words.split_first() else {
        return Err(1);
    };
    let Some(verb) = Verb::named(first.as_str()) else {
        return Err(1);
    };
    let given = match pieces(verb, &Given::new(), 1, more) {
        Ok(given) => given,
        Err(n) => return Err(n),
    };
    let Some(command) = given.command(verb) else {
        return Err(words.len() + 1);
    };
    match given.forbidden() {
        Some(word) => Err(word),
        None => Ok(command),
    }
}
