//! Whole numbers of 1 to 20 digits, below 2^64.
ghost use Rattle.std.specs.Prelude.{◌≡◌};
ghost use Rattle.command_words.specs.Counts.{count_of};

use numerals::whole_number;

/// Returns the number below 2^64 that a text of 1 to 20 digits spells.
#[tactic(auto, using(crate::proofs::CountTexts::none_spelt))]
pub(crate) fn count_spelt(text: &[u8]) -> Option<u64>
    ensures { result ≡ count_of text.now }
{
    let count = whole_number(text, 20)?;
    if count > u64::MAX as u128 {
        return None;
    }
    Some(count as u64)
}
