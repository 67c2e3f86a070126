//! The header and the rows.
ghost use Rattle.std.specs.Prelude.{◌≡◌, ◌≤◌, ◌<◌, [], get_or, length, drop, IfOk};
ghost use Rattle.field_core.specs.Answers.{mapped};
ghost use Rattle.case_csv.specs.Answers.{IsAnswer};
ghost use Rattle.case_csv.specs.Records.{records_left, IsOpen};
ghost use Rattle.case_csv.specs.Table.{heading, header_of, rows_of};
ghost use Rattle.case_csv.specs.View.{cells, cells_in, keeps, rows_table};

use crate::cells::{cell, has_heading, width};
use crate::records::next;
use crate::table::Table;
use crate::{CsvFault, RowKind};
use csv::{ByteRecord, Reader};
use field_core::{List, NoMemory, Text};
use std::alloc::Global;

/// Refuses a header whose cell at this place, from 0, is missing or wrong.
fn heading(row: &ByteRecord, place: usize) -> Result<(), CsvFault>
    requires { place < 3 }
    ensures { IsAnswer result (heading (cells row.now) place) }
{
    if has_heading(row, place) {
        Ok(())
    } else {
        Err(CsvFault::Row(1, place + 1, RowKind::Header))
    }
}

/// Reads the names in a header.
pub fn header(alloc: Global, row: &ByteRecord) -> Result<List<Text>, CsvFault>
    ensures { IsAnswer result (header_of (cells row.now)) }
{
    heading(row, 0)?;
    heading(row, 1)?;
    heading(row, 2)?;
    Ok(names(alloc, row)?)
}

/// Copies the cells of a record after the first three.
fn names(alloc: Global, row: &ByteRecord) -> Result<List<Text>, NoMemory>
    requires { 3 ≤ length (cells row.now) }
    ensures { IfOk result (λ names. names ≡ drop 3 (cells row.now)) }
{
    let mut names = List::new(alloc);
    for i in 0..width(row) - 3 {
        names.push(Text::copy(alloc, cell(row, i + 3))?)?;
    }
    Ok(names)
}

/// Returns the name at a place.
fn name_at(names: &[Text], place: usize) -> &[u8]
    requires { place < length names.now }
    ensures { result.now ≡ get_or names.now place [] }
{
    names[place].as_bytes()
}

/// Reads the records after a header with this number of columns and these names.
pub fn rows(
    alloc: Global,
    records: &mut Reader<&[u8]>,
    row: &mut ByteRecord,
    names: &[Text],
    columns: usize,
) -> Result<Table, CsvFault>
    requires columns { 3 ≤ columns }
    requires stands { IsOpen records.old }
    ensures { IsAnswer result (mapped (rows_table (keeps (length names.now)))
        (rows_of columns 2 names.now (cells_in (records_left records.old)))) }
{
    let keep = names.len() <= 64;
    let mut table = Table::new(alloc);
    for from in 0..names.len() {
        let found = next(records, row)?;
        if !found {
            return Err(CsvFault::Row(from + 2, 1, RowKind::Count));
        }
        table.take(row, from, name_at(names, from), columns, keep)?;
    }
    let surplus = next(records, row)?;
    if surplus {
        return Err(CsvFault::Row(names.len() + 2, 1, RowKind::Count));
    }
    Ok(table)
}
