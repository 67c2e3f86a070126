//! The parts of a word.
ghost use Rattle.std.specs.Prelude.{◌≡◌};
ghost use Rattle.std.specs.Option.{option_map};
ghost use Rattle.command_words.specs.WordParts.{name_of, text_of};

/// The parts of a word: the name of an option, and the text of a value. `--name` has no text, and a word that isn't an option no
/// name.
#[derive(Clone, Copy)]
pub(crate) struct Parts<'a> {
    pub name: Option<&'a str>,
    pub text: Option<&'a str>,
}

/// Returns the parts of a word: after `--` a name, to the first `=`, and after that a value.
pub(crate) fn parts_of(word: &str) -> Parts<'_>
    ensures name { option_map (λ name. name.now) result.name ≡ name_of word.now }
    ensures text { option_map (λ text. text.now) result.text ≡ text_of word.now }
{
    let Some(option) = word.strip_prefix("--") else {
        return Parts {
            name: None,
            text: Some(word),
        };
    };
    match option.split_once('=') {
        Some((name, text)) => Parts {
            name: Some(name),
            text: Some(text),
        },
        None => Parts {
            name: Some(option),
            text: None,
        },
    }
}
