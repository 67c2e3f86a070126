//! The level of a sheet.
ghost use Rattle.std.specs.Prelude.{◌≡◌};
ghost use Rattle.std.specs.Result.{result_ok};
ghost use Rattle.fraction.specs.Numerals.{numeral_of};

use fraction::Fraction;

/// Returns the level that a text spells.
pub(crate) fn level_spelt(text: &str) -> Option<Fraction>
    ensures { result ≡ result_ok (numeral_of text.now) }
{
    Fraction::parse(text.as_bytes()).ok()
}
