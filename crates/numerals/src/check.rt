//! Whether a text is a numeral.
ghost use Rattle.numerals.specs.Checking.{IsChecked};

use crate::NumberFault;
use crate::byte_class::class_of;
use crate::numeral_machine::{State, is_final, step};

/// Returns nothing if a text is a numeral, or else why it is not one.
pub fn check(text: &[u8]) -> Result<(), NumberFault>
    ensures { IsChecked text.now result }
{
    if text.is_empty() {
        return Err(NumberFault::Empty);
    }
    let mut state = State::Start;
    for at in 0..text.len() {
        match step(state, class_of(text[at])) {
            Some(next) => state = next,
            None => return Err(NumberFault::BadByte(at)),
        }
    }
    if is_final(state) {
        Ok(())
    } else {
        Err(NumberFault::BadByte(text.len()))
    }
}
