//! Laws of numerals, and of fractions with short parts.
ghost use Rattle.std.specs.Prelude.{◌≡◌, ◌↔◌, ◌<◌, ◌^◌, ℕ, List, Ok, Err, length, unsigned_abs};
ghost use Rattle.std.specs.List.{AllByRecursion};
ghost use Rattle.field_core.specs.Terms.{Terms, IsReduced};
ghost use Rattle.field_core.specs.View.{terms};
ghost use Rattle.field_core.specs.declared.ratio.Ratio.{Ratio};
ghost use Rattle.numerals.specs.declared.fault.NumberFault.{NumberFault};
ghost use Rattle.numerals.specs.Numeral.{IsNumeralOf, IsParseFault};
ghost use Rattle.fraction.specs.Numerals.{numeral_of};
ghost use Rattle.fraction.specs.Spelling.{spelling, IsSpellingByte};
ghost use Rattle.fraction.specs.Within.{ShortOperationsAreDefined, LowestTermsAreShortest};

/// `numeral_of` returns a value exactly if the text is a numeral of that value, and a fault exactly if the text has that
/// fault.
pub fn numerals_are_read()
    ensures value { (text : List ℕ) (x : Ratio) → (numeral_of text ≡ Ok x) ↔ IsNumeralOf text (terms x) }
    ensures fault { (text : List ℕ) (f : NumberFault) → (numeral_of text ≡ Err f) ↔ IsParseFault text f }
{}

/// The text of a fraction isn't empty, and each of its bytes is a digit, a minus or a slash. If the parts have at most 38 digits,
/// it is a numeral of the fraction.
pub fn a_printed_fraction_reads_back()
    ensures some { (t : Terms) → IsReduced t → 0 < length (spelling t) }
    ensures bytes { (t : Terms) → IsReduced t → AllByRecursion IsSpellingByte (spelling t) }
    ensures back { (t : Terms) → IsReduced t → unsigned_abs t.num < 10 ^ 38 → unsigned_abs t.den < 10 ^ 38
        → IsNumeralOf (spelling t) t }
{}

/// Operations on short fractions aren't refused, and lowest terms are the shortest of their value.
pub fn short_operations_are_defined()
    ensures defined { ShortOperationsAreDefined }
    ensures shortest { LowestTermsAreShortest }
{}
