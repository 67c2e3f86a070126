//! The words of a call from C, one after another.
ghost use Rattle.std.specs.Prelude.{◌≡◌, IfOk, IfErr, string_bytes};
ghost use Rattle.std.specs.Str.{IsUtf8};
ghost use Rattle.command_words.specs.WordBytes.{words_in};
ghost use Rattle.welungad_c.specs.Words.{AreWords, LeavesNoText, LeavesNoWords};

use field_core::{List, NoMemory};
use std::alloc::{AllocError, Global};
use std::str;

/// Why the words of a call couldn't be read.
#[derive(Clone, Copy, PartialEq, Eq, Debug)]
pub enum NoWords {
    NoMemory,
    /// The bytes are not those of words in UTF-8, each ended by a byte 0.
    Unreadable,
}

impl From<NoMemory> for NoWords {
    ghost use Rattle.welungad_c.specs.declared.words.NoWords.TheVariants.{NoMemory};

    ghost from_gives = { λ _ e. e ≡ NoMemory };

    fn from(_: NoMemory) -> NoWords {
        NoWords::NoMemory
    }
}

impl From<AllocError> for NoWords {
    ghost use Rattle.welungad_c.specs.declared.words.NoWords.TheVariants.{NoMemory};

    ghost from_gives = { λ _ e. e ≡ NoMemory };

    fn from(_: AllocError) -> NoWords {
        NoWords::NoMemory
    }
}

/// Returns a word as text. `Unreadable`: the bytes are not UTF-8.
fn text(alloc: Global, bytes: &[u8]) -> Result<String, NoWords>
    ensures text { IfOk result (λ text. (string_bytes text ≡ bytes.now) × IsUtf8 bytes.now) }
    ensures none { IfErr result (LeavesNoText bytes.now) }
{
    match str::from_utf8(bytes) {
        Ok(text) => Ok(String::from_str(alloc, text)?),
        Err(_) => Err(NoWords::Unreadable),
    }
}

/// Cuts bytes into words, each ended by a byte 0. `Unreadable`: the bytes are not those of any words.
pub fn words_of(alloc: Global, bytes: &[u8]) -> Result<List<String>, NoWords>
    ensures words { IfOk result (λ words. AreWords bytes.now (words_in words)) }
    ensures none { IfErr result (LeavesNoWords bytes.now) }
{
    let mut words = List::new(alloc);
    let mut word = List::new(alloc);
    'bytes: for byte in bytes {
        if *byte == 0 {
            words.push(text(alloc, word.as_slice())?)?;
            word.truncate(0);
        } else {
            word.push(*byte)?;
        }
    }
    if word.is_empty() {
        Ok(words)
    } else {
        Err(NoWords::Unreadable)
    }
}
