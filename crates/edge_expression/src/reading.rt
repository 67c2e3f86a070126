//! The reader of edge expressions.
ghost use Rattle.std.specs.Prelude.{IfOk, IfErr};
ghost use Rattle.edge_expression.specs.EntryReading.{IsEntryText, IsExprFault};

use crate::ExprFault;
use crate::evaluate::expression_value;
use crate::scan::scan;
use case_model::Entry;

/// Returns the entry of an edge expression, or the first fault of the text. It takes no memory.
pub fn parse(text: &[u8]) -> Result<Entry, ExprFault>
    ensures found { IfOk result (IsEntryText text.now) }
    ensures fault { IfErr result (IsExprFault text.now) }
{
    scan(text)?;
    let entry = expression_value(text)?;
    Ok(entry)
}
