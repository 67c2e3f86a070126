//! The rows that were read so far.
ghost use Rattle.std.specs.Prelude.{◌≡◌, ◌≤◌, ◌<◌, ◌+◌, ◌^◌, [], ◌++◌, drop, length, OnOk};
ghost use Rattle.field_core.specs.Answers.{leaving, mapped};
ghost use Rattle.case_csv.specs.Answers.{IsAnswer};
ghost use Rattle.case_csv.specs.Table.{start_of, entries_of, row_of, edge_at, row_edges};
ghost use Rattle.case_csv.specs.View.{cells, kept, with_row};

use crate::cells::{cell, entry, numeral, p_value, width};
use crate::{CsvFault, RowKind};
use case_model::{DraftEdge, Entry};
use csv::ByteRecord;
use field_core::{List, NoMemory};
use fraction::Fraction;
use std::alloc::Global;

/// The weight and the p-value in a row.
#[derive(Clone, Copy)]
pub struct Start {
    pub weight: Fraction,
    pub p: Option<Fraction>,
}

/// The weights, the p-values and the edges of the rows that were read.
#[derive(Drop)]
pub struct Table {
    pub weights: List<Fraction>,
    pub p: List<Option<Fraction>>,
    pub edges: List<DraftEdge>,
}

/// Reads the cells before the edges in the record with this number, which must be the row of this name. The header has `columns`
/// cells.
fn first_cells(
    row: &ByteRecord,
    number: usize,
    name: &[u8],
    columns: usize,
) -> Result<Start, CsvFault>
    requires { 3 ≤ columns }
    ensures { IsAnswer result (start_of columns number name.now (cells row.now)) }
{
    if width(row) != columns {
        return Err(CsvFault::Row(number, 1, RowKind::Width));
    }
    if cell(row, 0) != name {
        return Err(CsvFault::Row(number, 1, RowKind::Name));
    }
    let weight = match numeral(cell(row, 1)) {
        Ok(weight) => weight,
        Err(kind) => return Err(CsvFault::Row(number, 2, kind)),
    };
    let p = match p_value(cell(row, 2)) {
        Ok(p) => p,
        Err(kind) => return Err(CsvFault::Row(number, 3, kind)),
    };
    Ok(Start { weight, p })
}

impl Table {
    /// Returns the table of no rows.
    pub fn new(alloc: Global) -> Table
        ensures weights { result.weights ≡ [] }
        ensures p { result.p ≡ [] }
        ensures edges { result.edges ≡ [] }
    {
        Table {
            weights: List::new(alloc),
            p: List::new(alloc),
            edges: List::new(alloc),
        }
    }

    /// Appends the row of the hypothesis at a place, from its record, with its edges if `keep` is true.
    pub fn take(
        &mut self,
        row: &ByteRecord,
        from: usize,
        name: &[u8],
        columns: usize,
        keep: bool,
    ) -> Result<(), CsvFault>
        requires columns { 3 ≤ columns }
        requires from { from + 2 < 2 ^ 64 }
        ensures { IsAnswer (leaving self.new result)
            (mapped (with_row keep from self.old) (row_of columns (from + 2) name.now (cells row.now))) }
    {
        let start = first_cells(row, from + 2, name, columns)?;
        take_edges(&mut self.edges, row, from, keep)?;
        self.weights.push(start.weight)?;
        self.p.push(start.p)?;
        Ok(())
    }
}

/// Appends the edges of a row if `keep` is true.
fn take_edges(
    edges: &mut List<DraftEdge>,
    row: &ByteRecord,
    from: usize,
    keep: bool,
) -> Result<(), CsvFault>
    requires columns { 3 ≤ length (cells row.now) }
    requires from { from + 2 < 2 ^ 64 }
    ensures { IsAnswer (leaving edges.new result)
        (mapped (λ entries. edges.old ++ kept keep (row_edges from 0 entries)) (entries_of (from + 2) 4 (drop 3 (cells row.now)))) }
{
    for to in 0..width(row) - 3 {
        match entry(cell(row, to + 3)) {
            Ok(entry) => take_edge(edges, from, to, entry, keep)?,
            Err(kind) => return Err(CsvFault::Row(from + 2, to + 4, kind)),
        }
    }
    Ok(())
}

/// Appends one edge if `keep` is true, unless it is a zero from a hypothesis to itself.
fn take_edge(
    edges: &mut List<DraftEdge>,
    from: usize,
    to: usize,
    entry: Entry,
    keep: bool,
) -> Result<(), NoMemory>
    ensures { OnOk result (edges.new ≡ edges.old ++ kept keep (edge_at from to entry)) }
{
    if keep && !(from == to && entry.is_zero()) {
        edges.push(DraftEdge { from, to, entry })?;
    }
    Ok(())
}
