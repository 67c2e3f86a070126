//! The reader of sheets.
ghost use Rattle.std.specs.Prelude.{◌≡◌, ◌≢◌, ◌⊎◌, IfOk, IfErr};
ghost use Rattle.case_model.specs.declared.fault.CaseFault.TheVariants.{NoMemory as OutOfMemory};
ghost use Rattle.case_csv.specs.Reading.{IsCaseOf, IsCsvFault};
ghost use Rattle.field_core.specs.Answers.{mapped};
ghost use Rattle.case_csv.specs.Answers.{IsAnswer};
ghost use Rattle.case_csv.specs.Table.{cells_of, sheet_of};
ghost use Rattle.case_csv.specs.View.{kept_draft, one_component};
ghost use Rattle.case_csv.specs.declared.fault.CsvFault.TheVariants as faults;

use crate::cells::width;
use crate::records::{next, open};
use crate::rows::{header, rows};
use crate::table::Table;
use crate::{CsvFault, RowKind};
use case_model::{Case, CaseFault, Draft, DraftComponent, Refused};
use csv::ByteRecord;
use field_core::{List, NoMemory, Number, Text};
use fraction::Fraction;
use std::alloc::Global;

/// Reads the case that CSV denotes at a level. It is refused with the first faulty record, or else with the first error in the
/// draft, or with `NoMemory`.
///
/// The first record is the header: a cell that is empty or `hypothesis`, then `weight`, `p` and the names. Each further record
/// is a row: a name of the header, in its order, a weight, a p-value, and for each hypothesis the weight of the edge to it.
/// Weights and p-values are numerals that `Fraction::parse` reads. Edges are expressions that `read_entry` reads. A cell of a
/// p-value that is empty or `NA` is a p-value that is not given, and a zero from a hypothesis to itself is not an edge. Spaces
/// and tabs around a field are ignored. There is one component, of share 1. The draft is checked once the records are read.
pub fn read_csv(alloc: Global, bytes: &[u8], alpha: Fraction) -> Result<Case, CsvFault>
    ensures case { IfOk result (IsCaseOf bytes.now alpha) }
    ensures fault { IfErr result (IsCsvFault bytes.now alpha) }
{
    match draft(alloc, bytes, alpha)?.finish(alloc) {
        Ok(case) => Ok(case),
        Err(refused) => Err(csv_fault(refused)),
    }
}

/// Reads the draft that CSV denotes at a level. If it has more than 64 names, its edges are left out.
fn draft(alloc: Global, bytes: &[u8], alpha: Fraction) -> Result<Draft, CsvFault>
    ensures { IsAnswer result (mapped (kept_draft alpha) (sheet_of (cells_of bytes.now))) }
{
    let mut records = open(alloc, bytes);
    let mut record = ByteRecord::new(alloc);
    let found = next(&mut records, &mut record)?;
    if !found {
        return Err(CsvFault::Row(1, 1, RowKind::NoHeader));
    }
    let names = header(alloc, &record)?;
    let columns = width(&record);
    let table = rows(alloc, &mut records, &mut record, names.as_slice(), columns)?;
    Ok(one_component(alloc, alpha, names, table)?)
}

/// Returns the draft of a table, with one component of share 1.
fn one_component(
    alloc: Global,
    alpha: Fraction,
    names: List<Text>,
    table: Table,
) -> Result<Draft, NoMemory>
    ensures { IfOk result (λ d. d ≡ one_component alpha names table) }
{
    let Table { weights, p, edges } = table;
    let mut components = List::new(alloc);
    components.push(DraftComponent {
        share: Fraction::one(),
        weights,
        edges,
    })?;
    Ok(Draft {
        names,
        alpha,
        p,
        components,
        stages: None,
    })
}

/// Returns the fault of CSV whose draft is refused.
fn csv_fault(refused: Refused) -> CsvFault
    ensures { ((refused.fault ≡ OutOfMemory) × (result ≡ faults.NoMemory))
        ⊎ ((refused.fault ≢ OutOfMemory) × (result ≡ faults.Case refused)) }
{
    match refused.fault {
        CaseFault::NoMemory => CsvFault::NoMemory,
        _ => CsvFault::Case(refused),
    }
}
