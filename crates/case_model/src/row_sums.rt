//! The sums of the rows of tables of edges.
ghost use Rattle.std.specs.Prelude.{◌≡◌, ◌≤◌, ◌<◌, ◌*◌, length, map, true};
ghost use Rattle.field_core.specs.declared.place.Op.TheVariants.{Add};
ghost use Rattle.field_core.specs.Kind.{ok_map, or_wide};
ghost use Rattle.field_core.specs.View.{terms};
ghost use Rattle.case_model.specs.Content.{component_at};
ghost use Rattle.case_model.specs.Entries.{entry_at};
ghost use Rattle.case_model.specs.CaseFaults.{first_below, power_sum, written_row, row_sum, component_rows, rows_fault};
ghost use Rattle.case_model.specs.Sums.{ratio_at};
ghost use Rattle.case_model.specs.Tables.{are_tables};

use crate::sums::written_sum;
use crate::{CaseFault, Component, Entry};
use field_core::{Place, TooWide};
use fraction::Fraction;

/// Returns the coefficient of a power in the entry at a row and a column.
#[tactic(auto, unfolding(crate::specs::Entries::entry_at), using(std::proofs::lemmas::List::get_or_default))]
fn coefficient(count: usize, table: &[Entry], i: usize, j: usize, power: usize) -> Fraction
    requires few { count ≤ 64 }
    requires size { length table.now ≡ count * count }
    requires row { i < count }
    requires column { j < count }
    requires power { power ≤ 4 }
    ensures { result ≡ ratio_at (entry_at count table.now i j) power }
{
    table[i * count + j].coefficient(power)
}

/// Returns the sum of the coefficients of a power in a row, by ascending column.
fn power_sum(count: usize, table: &[Entry], i: usize, power: usize) -> Result<Fraction, TooWide>
    requires few { count ≤ 64 }
    requires size { length table.now ≡ count * count }
    requires row { i < count }
    requires power { power ≤ 4 }
    ensures { ok_map terms result ≡ or_wide Add (power_sum count (entry_at count table.now i) power) }
{
    written_sum(count, |j| coefficient(count, table, i, j, power))
}

/// Returns the sum of a row, power by power.
#[tactic(auto, unfolding(crate::specs::CaseFaults::written_row))]
fn row_total(count: usize, table: &[Entry], i: usize) -> Result<Entry, TooWide>
    requires few { count ≤ 64 }
    requires size { length table.now ≡ count * count }
    requires row { i < count }
    ensures { ok_map (map terms) result ≡ or_wide Add (written_row count (entry_at count table.now i)) }
{
    let constant = power_sum(count, table, i, 0)?;
    let first = power_sum(count, table, i, 1)?;
    let second = power_sum(count, table, i, 2)?;
    let third = power_sum(count, table, i, 3)?;
    let fourth = power_sum(count, table, i, 4)?;
    Ok(Entry::new([constant, first, second, third, fourth]))
}

/// Returns the fault of the sum of a row: that it is too wide, or else that it is above 1.
fn row_sum(count: usize, c: usize, table: &[Entry], i: usize) -> Option<CaseFault>
    requires few { count ≤ 64 }
    requires size { length table.now ≡ count * count }
    requires row { i < count }
    ensures { result ≡ row_sum count c table.now i }
{
    match row_total(count, table, i) {
        Ok(sum) => (!sum.is_at_most_one()).then_some(CaseFault::RowSum(c, i)),
        Err(wide) => Some(CaseFault::Wide(wide.at(Place::RowSum(i)).in_component(c))),
    }
}

/// Returns the first fault of the rows of a table.
fn first_row(count: usize, c: usize, table: &[Entry]) -> Option<CaseFault>
    requires few { count ≤ 64 }
    requires size { length table.now ≡ count * count }
    ensures { result ≡ first_below (row_sum count c table.now) count }
{
    for i in 0..count {
        let fault = row_sum(count, c, table, i);
        if fault.is_some() {
            return fault;
        }
    }
    None
}

/// Returns the first fault of the rows of the component at a place.
fn component_rows(count: usize, components: &[Component], c: usize) -> Option<CaseFault>
    requires few { count ≤ 64 }
    requires tables { are_tables count components.now ≡ true }
    requires within { c < length components.now }
    ensures { result ≡ component_rows count c (component_at components.now c) }
{
    first_row(count, c, components[c].edges.as_slice())
}

/// Returns the first fault of the rows of the components' tables.
#[tactic(auto, unfolding(crate::specs::CaseFaults::rows_fault, crate::specs::CaseFaults::first_from), using(crate::proofs::FirstFaults::walks))]
pub fn rows_fault(count: usize, components: &[Component]) -> Option<CaseFault>
    requires few { count ≤ 64 }
    requires tables { are_tables count components.now ≡ true }
    ensures { result ≡ rows_fault count components.now }
{
    for c in 0..components.len() {
        let fault = component_rows(count, components, c);
        if fault.is_some() {
            return fault;
        }
    }
    None
}
