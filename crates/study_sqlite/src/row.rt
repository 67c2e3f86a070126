//! The row of a look, and the look of a row.
ghost use Rattle.std.specs.Prelude.{◌≡◌, Some, IfOk, IfSome, IfNone, IsUtf8};
ghost use Rattle.graph_io.specs.declared.keeper.Look.{Look};
ghost use Rattle.study_sqlite.specs.Rows.{IsRow};

use crate::printed::printed_ratio;
use field_core::{List, NoMemory, Text};
use fraction::Fraction;
use graph_io::Look;
use std::alloc::Global;

/// The row of a look: the columns of the table of looks that the look fills.
#[derive(Drop)]
pub struct LookRow {
    pub hypothesis: i64,
    pub stage: i64,
    /// The p-value as it is printed.
    pub p: Text,
}

/// Returns the row of a look.
pub fn to_row(alloc: Global, look: &Look) -> Result<LookRow, NoMemory>
    ensures row { IfOk result (λ row. IsRow row.hypothesis row.stage row.p look.now) }
    ensures text { IfOk result (λ row. IsUtf8 row.p) }
{
    let mut p = List::new(alloc);
    Fraction::of(look.p).print(&mut p)?;
    Ok(LookRow {
        hypothesis: i64::from(look.hypothesis),
        stage: i64::from(look.stage),
        p: Text::copy(alloc, p.as_slice())?,
    })
}

/// Returns the look whose row has these values, or nothing if they are not the row of a look.
pub fn from_row(hypothesis: i64, stage: i64, p: &[u8]) -> Option<Look>
    ensures found { IfSome result (IsRow hypothesis stage p.now) }
    ensures only { (look : Look) → IsRow hypothesis stage p.now look → result ≡ Some look }
    ensures other { IfNone result ((look : Look) → ¬ IsRow hypothesis stage p.now look) }
{
    Some(Look {
        hypothesis: u32::try_from(hypothesis).ok()?,
        stage: u32::try_from(stage).ok()?,
        p: printed_ratio(p)?,
    })
}
