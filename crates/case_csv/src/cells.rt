//! The cells of records, and the value of one cell.
ghost use Rattle.std.specs.Prelude.{◌≡◌, ◌<◌, ◌≤◌, length};
ghost use Rattle.case_csv.specs.Table.{bare, cell_at, is_heading, has_heading, is_missing, number_of, p_value_of, edge_of};
ghost use Rattle.case_csv.specs.View.{cells};
ghost use Rattle.std.specs.List.{suffix_len};
ghost use Rattle.text_lines.specs.Words.{is_blank};

use crate::RowKind;
use case_model::Entry;
use csv::ByteRecord;
use fraction::Fraction;
use text_lines::{after_blanks, is_blank};

/// Returns the number of spaces and tabs at the end.
#[tactic(auto, using(crate::proofs::CellFacts::blanks_within))]
fn blanks_behind(field: &[u8]) -> usize
    ensures value { result ≡ suffix_len is_blank field.now }
    ensures within { result ≤ length field.now }
{
    field
        .iter()
        .rev()
        .take_while(|byte| is_blank(**byte))
        .count()
}

/// Returns a field without the spaces and tabs around it.
#[tactic(auto, unfolding(crate::specs::Table::bare))]
fn bare(field: &[u8]) -> &[u8]
    ensures { result.now ≡ bare field.now }
{
    let rest = after_blanks(field);
    &rest[..rest.len() - blanks_behind(rest)]
}

/// Returns the cell at a place of a record, from 0.
pub fn cell(row: &ByteRecord, place: usize) -> &[u8]
    requires { place < length (cells row.now) }
    ensures { result.now ≡ cell_at (cells row.now) place }
{
    match row.get(place) {
        Some(field) => bare(field),
        None => unreachable!(),
    }
}

/// Returns the number of cells of a record.
pub fn width(row: &ByteRecord) -> usize
    ensures { result ≡ length (cells row.now) }
{
    row.len()
}

/// Whether a cell is allowed at a place of the header, from 0.
fn is_heading(place: usize, cell: &[u8]) -> bool
    ensures { result ≡ is_heading place cell.now }
{
    if place == 0 {
        cell.is_empty() || cell == b"hypothesis".as_slice()
    } else if place == 1 {
        cell == b"weight".as_slice()
    } else {
        cell == b"p".as_slice()
    }
}

/// Whether the header has a cell at a place, from 0, that is allowed there.
pub fn has_heading(header: &ByteRecord, place: usize) -> bool
    ensures { result ≡ has_heading (cells header.now) place }
{
    place < width(header) && is_heading(place, cell(header, place))
}

/// Whether a cell is that of a missing p-value: empty or `NA`.
fn is_missing(cell: &[u8]) -> bool
    ensures { result ≡ is_missing cell.now }
{
    cell.is_empty() || cell == b"NA".as_slice()
}

/// Reads a numeral.
pub fn numeral(cell: &[u8]) -> Result<Fraction, RowKind>
    ensures { result ≡ number_of cell.now }
{
    Fraction::parse(cell).map_err(RowKind::Number)
}

/// Reads a p-value, or none from a cell that is empty or `NA`.
pub fn p_value(cell: &[u8]) -> Result<Option<Fraction>, RowKind>
    ensures { result ≡ p_value_of cell.now }
{
    if is_missing(cell) {
        return Ok(None);
    }
    let value = numeral(cell)?;
    Ok(Some(value))
}

/// Reads the expression of an edge.
pub fn entry(cell: &[u8]) -> Result<Entry, RowKind>
    ensures { result ≡ edge_of cell.now }
{
    entries::read_entry(cell).map_err(RowKind::Expr)
}
