//! Words of canonical texts.
ghost use Rattle.std.specs.Prelude.{◌≡◌, ◌<◌, ◌++◌, map, length, OnOk};
ghost use Rattle.std.specs.Fmt.{decimal};
ghost use Rattle.std.specs.List.{flat_map};
ghost use Rattle.text_lines.specs.Spelling.{spaced};
ghost use Rattle.edge_text.specs.CanonicalText.{number_word, name_at};

use field_core::{List, NoMemory, Text};
use fraction::Fraction;

/// Appends a blank and a word.
pub fn put_word(text: &mut List<u8>, word: &[u8]) -> Result<(), NoMemory>
    ensures { OnOk result (text.new ≡ text.old ++ spaced word.now) }
{
    text.push(b' ')?;
    text.append(word)
}

/// Appends a blank and a number.
pub fn put_number(text: &mut List<u8>, number: &Fraction) -> Result<(), NoMemory>
    ensures { OnOk result (text.new ≡ text.old ++ spaced (number_word number.now)) }
{
    text.push(b' ')?;
    number.print(text)
}

/// Appends a blank and a whole number.
pub fn put_whole(text: &mut List<u8>, number: usize) -> Result<(), NoMemory>
    ensures { OnOk result (text.new ≡ text.old ++ spaced (decimal number)) }
{
    text.push(b' ')?;
    text.append_unsigned(number as u128)
}

/// Appends a blank and the name of the hypothesis at a position.
#[tactic(auto, using(std::proofs::lemmas::List::get_or_default))]
pub fn put_name(text: &mut List<u8>, names: &[Text], position: usize) -> Result<(), NoMemory>
    requires { position < length names.now }
    ensures { OnOk result (text.new ≡ text.old ++ spaced (name_at names.now position)) }
{
    put_word(text, names[position].as_bytes())
}

/// Appends numbers, each after a blank.
pub fn put_numbers(text: &mut List<u8>, numbers: &[Fraction]) -> Result<(), NoMemory>
    ensures { OnOk result (text.new ≡ text.old ++ flat_map spaced (map number_word numbers.now)) }
{
    for number in numbers {
        put_number(text, number)?;
    }
    Ok(())
}

/// Appends names, each after a blank.
pub fn put_names(text: &mut List<u8>, names: &[Text]) -> Result<(), NoMemory>
    ensures { OnOk result (text.new ≡ text.old ++ flat_map spaced names.now) }
{
    for name in names {
        put_word(text, name.as_bytes())?;
    }
    Ok(())
}
