//! Numbers that a graph is printed in.
ghost use Rattle.std.specs.Prelude.{◌≡◌, ◌++◌, OnOk};
ghost use Rattle.text_lines.specs.Spelling.{spaced};

use eps_quotient::EpsQuotient;
use field_core::{List, NoMemory, Number};
use fraction::Fraction;

/// Numbers that a graph is printed in.
pub trait PrintedNumber: Number {
    ghost use Rattle.std.specs.Prelude.{ℕ, List as Seq};
    ghost use Rattle.field_core.specs.Kind.{Parts};

    /// The text of a stored number.
    ghost text: { Parts → Seq ℕ };

    /// Appends a blank and the number.
    fn put(&self, out: &mut List<u8>) -> Result<(), NoMemory>
        ensures { OnOk result (out.new ≡ out.old ++ spaced (text (Self.parts self.now))) };
}

impl PrintedNumber for Fraction {
    ghost use Rattle.case_numbers.specs.Numbers.{in_fractions};
    ghost use Rattle.evidence_check.specs.NumberTexts.{number_text};

    ghost text = { number_text in_fractions };

    fn put(&self, out: &mut List<u8>) -> Result<(), NoMemory> {
        out.push(b' ')?;
        self.print(out)
    }
}

impl PrintedNumber for EpsQuotient {
    ghost use Rattle.case_numbers.specs.Numbers.{in_quotients};
    ghost use Rattle.evidence_check.specs.NumberTexts.{number_text};

    ghost text = { number_text in_quotients };

    fn put(&self, out: &mut List<u8>) -> Result<(), NoMemory> {
        out.push(b' ')?;
        self.print(out)
    }
}
