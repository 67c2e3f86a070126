//! Laws of stored quotients and of their texts.
ghost use Rattle.std.specs.Prelude.{◌≡◌, Some};
ghost use Rattle.field_core.specs.Kind.{Parts};
ghost use Rattle.eps_quotient.specs.Lowering.{norm};
ghost use Rattle.eps_quotient.specs.Spelling.{quotient_text};
ghost use Rattle.eps_quotient.specs.Stored.{IsQuotient};
ghost use Rattle.eps_quotient.specs.Texts.{quotient_in};

/// The norm of a stored numerator and denominator is the stored quotient.
pub fn a_stored_quotient_is_its_norm()
    ensures { (x : Parts) → IsQuotient x → norm x.numerator x.denominator ≡ x }
{}

/// The text of a stored quotient denotes this quotient.
pub fn a_printed_quotient_reads_back()
    ensures { (x : Parts) → IsQuotient x → quotient_in (quotient_text x) ≡ Some x }
{}
