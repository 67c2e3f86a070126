//! The reader of texts.
ghost use Rattle.std.specs.Prelude.{◌≡◌, ◌≢◌, ◌⊎◌, IfOk, IfErr};
ghost use Rattle.case_model.specs.declared.fault.CaseFault.TheVariants.{NoMemory as OutOfMemory};
ghost use Rattle.edge_text.specs.Reading.{IsCaseOf, IsTextFault};
ghost use Rattle.edge_text.specs.declared.fault.TextFault.TheVariants as faults;

use crate::TextFault;
use crate::draft_lines::draft;
use case_model::{Case, CaseFault, Refused};
use std::alloc::Global;

/// Returns the case that a text denotes. It is refused with the first line that isn't allowed at its place, or else with the
/// first error in the draft, or with `NoMemory`.
///
/// A text has the lines `alpha N`, `hypotheses NAME..`, perhaps `p N..` (one numeral or more), and then the blocks of the
/// components. Either there is one block that begins with `weights N..`, whose share is 1. Or there are one or more that each
/// begin with `component N`, the share, before `weights N..`. A block ends with lines `edge NAME NAME EXPR`, any number of
/// them. After the blocks there may be `stages K`, then for each hypothesis in order one line `spend NAME N..` or one or more
/// lines `table NAME N N..`, and then lines `arrive NAME K N`, any number of them. `K` is 1 to 9 digits. `N` is a numeral that
/// `Fraction::parse` reads, and `EXPR`, all that follows the second name, an expression that `read_entry` reads. Words are
/// between runs of spaces and tabs. A line ends with a line feed, perhaps after a carriage return; the last one may lack its
/// line feed. Lines of blanks, and lines whose first other byte is `#`, are skipped. The draft is looked at once the whole text
/// is read.
pub fn read_text(alloc: Global, bytes: &[u8]) -> Result<Case, TextFault>
    ensures case { IfOk result (IsCaseOf bytes.now) }
    ensures fault { IfErr result (IsTextFault bytes.now) }
{
    match draft(alloc, bytes)?.finish(alloc) {
        Ok(case) => Ok(case),
        Err(refused) => Err(text_fault(refused)),
    }
}

/// Returns the fault of a text whose draft gives no case.
fn text_fault(refused: Refused) -> TextFault
    ensures { ((refused.fault ≡ OutOfMemory) × (result ≡ faults.NoMemory)) ⊎ ((refused.fault ≢ OutOfMemory)
        × (result ≡ faults.Case refused)) }
{
    match refused.fault {
        CaseFault::NoMemory => TextFault::NoMemory,
        _ => TextFault::Case(refused),
    }
}
