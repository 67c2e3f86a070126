//! Refusals.
ghost use Rattle.std.specs.Prelude.{◌≡◌, IfOk};

use crate::cause::Cause;
use field_core::{List, NoMemory};

/// Why words or an input are refused, and the line that is printed for it.
#[derive(Drop)]
pub struct Refusal {
    pub cause: Cause,
    pub line: List<u8>,
}

impl Refusal {
    ghost use Rattle.answers.specs.Lines.{line};

    /// Returns the refusal with this text as its line; the end of the line is added.
    pub fn of_line(cause: Cause, text: List<u8>) -> Result<Refusal, NoMemory>
        ensures { IfOk result (λ refusal. refusal ≡ record { cause = cause; line = line text }) }
    {
        let mut line = text;
        line.push(b'\n')?;
        Ok(Refusal { cause, line })
    }
}
