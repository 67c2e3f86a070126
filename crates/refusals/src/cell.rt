//! Lines of CSV that denotes no draft.
ghost use Rattle.std.specs.Prelude.{◌≡◌, IfOk};
ghost use Rattle.refusals.specs.CellRefusal.{cell_refusal};

use crate::text::{expression_refusal, malformed_at, number_refusal};
use answers::Refusal;
use case_csv::RowKind;
use field_core::NoMemory;
use std::alloc::Global;

/// Returns the refusal of a cell of CSV that isn't allowed, by its record and its column, both from 1.
#[tactic(auto, unfolding(crate::specs::CellRefusal::cell_refusal))]
pub fn cell_refusal(
    alloc: Global,
    row: usize,
    column: usize,
    kind: RowKind,
) -> Result<Refusal, NoMemory>
    ensures { IfOk result (λ refusal. refusal ≡ cell_refusal row column kind) }
{
    let place = format!(in alloc; "row {row} column {column}")?;
    match kind {
        RowKind::NoHeader | RowKind::Header => malformed_at(alloc, &place, "header"),
        RowKind::Count => malformed_at(alloc, &place, "records"),
        RowKind::Width => malformed_at(alloc, &place, "width"),
        RowKind::Name => malformed_at(alloc, &place, "name"),
        RowKind::Number(fault) => number_refusal(alloc, &place, fault),
        RowKind::Expr(fault) => expression_refusal(alloc, &place, fault),
    }
}
