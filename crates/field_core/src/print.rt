//! Numbers and fractions as text.

use crate::{List, NoMemory};
use itoa::Buffer;

impl List<u8> {
    ghost use Rattle.std.specs.Prelude.{◌≡◌, ◌++◌, OnOk, OnErr};
    ghost use Rattle.std.specs.Fmt.{decimal, signed_decimal};
    ghost use Rattle.field_core.specs.Texts.{fraction_text, IsBegun};

    /// Appends a number in decimal digits, after a minus if it is below 0. When out of memory, the list stays as it was.
    pub fn append_number(&mut self, number: i128) -> Result<(), NoMemory>
        ensures appended { OnOk result (self.new ≡ self.old ++ signed_decimal number) }
        ensures unchanged { OnErr result (self.new ≡ self.old) }
    {
        let mut buffer = Buffer::new();
        self.append(buffer.format(number).as_bytes())
    }

    /// Appends a number without a sign in decimal digits. When out of memory, the list stays as it was.
    pub fn append_unsigned(&mut self, number: u128) -> Result<(), NoMemory>
        ensures appended { OnOk result (self.new ≡ self.old ++ decimal number) }
        ensures unchanged { OnErr result (self.new ≡ self.old) }
    {
        let mut buffer = Buffer::new();
        self.append(buffer.format(number).as_bytes())
    }

    /// Appends `num`, or `num/den` if `den` isn't 1. When out of memory, the list stays as it was.
    pub fn append_fraction(&mut self, num: i128, den: i128) -> Result<(), NoMemory>
        ensures appended { OnOk result (self.new ≡ self.old ++ fraction_text num den) }
        ensures unchanged { OnErr result (self.new ≡ self.old) }
    {
        let len = self.len();
        let done = self.begin_fraction(num, den);
        if done.is_err() {
            self.truncate(len);
        }
        done
    }

    fn begin_fraction(&mut self, num: i128, den: i128) -> Result<(), NoMemory>
        ensures appended { OnOk result (self.new ≡ self.old ++ fraction_text num den) }
        ensures begun { OnErr result (IsBegun self.old self.new (fraction_text num den)) }
    {
        self.append_number(num)?;
        if den == 1 {
            return Ok(());
        }
        self.push(b'/')?;
        self.append_number(den)
    }
}
