//! The bytes and the parentheses of edge expressions.
ghost use Rattle.edge_expression.specs.EntryReading.{IsScanned};

use crate::ExprFault;
use crate::byte_machine::{Reached, State, may_end, step};

/// The most parentheses that may be open at once.
const MOST_OPEN: u32 = 32;

/// Returns nothing if a text is an edge expression that isn't too deep, or else why it is not one.
pub fn scan(text: &[u8]) -> Result<(), ExprFault>
    ensures { IsScanned text.now result }
{
    let mut reached = Reached {
        state: State::Start,
        depth: 0,
    };
    for at in 0..text.len() {
        match step(reached, text[at]) {
            None => return Err(ExprFault::BadByte(at)),
            Some(next) => {
                if next.depth > MOST_OPEN {
                    return Err(ExprFault::Depth);
                }
                reached = next;
            }
        }
    }
    if may_end(reached) {
        Ok(())
    } else {
        Err(ExprFault::BadByte(text.len()))
    }
}
