//! The looks of rows.
ghost use Rattle.std.specs.Prelude.{IfOk, IfErr, IfSome, IfNone};
ghost use Rattle.study_sqlite.specs.Rows.{IsRowOf, IsOfNone, AreRows, IsRowsFault};

use crate::{LookRow, RowsFault, from_row};
use field_core::List;
use graph_io::Look;
use std::alloc::Global;

/// Returns the looks of rows, in their order.
pub fn read_rows(alloc: Global, rows: &[LookRow]) -> Result<List<Look>, RowsFault>
    ensures read { IfOk result (AreRows rows.now) }
    ensures fault { IfErr result (IsRowsFault rows.now) }
{
    let mut looks = List::new(alloc);
    for at in 0..rows.len() {
        match look_of(&rows[at]) {
            Some(look) => looks.push(look)?,
            None => return Err(RowsFault::Bad(at + 1)),
        }
    }
    Ok(looks)
}

/// Returns the look of a row, or nothing if it is not the row of a look.
fn look_of(row: &LookRow) -> Option<Look>
    ensures found { IfSome result (IsRowOf row.now) }
    ensures other { IfNone result (IsOfNone row.now) }
{
    from_row(row.hypothesis, row.stage, row.p.as_bytes())
}
