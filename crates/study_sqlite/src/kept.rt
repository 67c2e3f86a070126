//! Looks in the table of looks.
ghost use Rattle.std.specs.Prelude.{IfOk, IfErr, OnOk};
ghost use Rattle.sqlite.specs.Held.{state};
ghost use Rattle.sqlite.specs.State.{HasCleanDisk};
ghost use Rattle.study_sqlite.specs.FileFaults.{OnRefusal, OnMemory};
ghost use Rattle.study_sqlite.specs.Kept.{AreKept, IsPut, AreLooksRefused, IsLookRefused, AreLooksCut, IsLookCut};

use crate::{FileFault, read_rows, table, to_row};
use field_core::List;
use graph_io::Look;
use sqlite::{Alter, Connection};
use std::alloc::Global;

/// Returns the looks of all rows. It is refused only if a statement gives an error, or for a row that is not the row of a look.
pub fn looks_in<S: Alter>(
    alloc: Global,
    connection: &mut Connection<S>,
) -> Result<List<Look>, FileFault>
    ensures clean { HasCleanDisk (state S.Store connection.new) → HasCleanDisk (state S.Store connection.old) }
    ensures kept { HasCleanDisk (state S.Store connection.new) → IfOk result (AreKept S.Store connection.old connection.new) }
    ensures why { HasCleanDisk (state S.Store connection.new)
        → IfErr result (OnRefusal (AreLooksRefused S.Store connection.old connection.new)) }
    ensures memory { HasCleanDisk (state S.Store connection.new)
        → IfErr result (OnMemory (AreLooksCut S.Store connection.old connection.new)) }
{
    table::make(connection)?;
    let rows = table::rows(alloc, connection)?;
    Ok(read_rows(alloc, rows.as_slice())?)
}

/// Puts the row of a look after the others. It is refused only if a statement gives an error.
pub fn keep_in<S: Alter>(
    alloc: Global,
    connection: &mut Connection<S>,
    look: &Look,
) -> Result<(), FileFault>
    ensures clean { HasCleanDisk (state S.Store connection.new) → HasCleanDisk (state S.Store connection.old) }
    ensures put { HasCleanDisk (state S.Store connection.new) → OnOk result (IsPut S.Store connection.old connection.new look.now) }
    ensures why { HasCleanDisk (state S.Store connection.new)
        → IfErr result (OnRefusal (IsLookRefused S.Store connection.old connection.new look.now)) }
    ensures memory { HasCleanDisk (state S.Store connection.new)
        → IfErr result (OnMemory (IsLookCut S.Store connection.old connection.new look.now)) }
{
    table::make(connection)?;
    let row = to_row(alloc, look)?;
    table::put(connection, &row)
}
