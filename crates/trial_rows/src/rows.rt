//! Rows one after another.
ghost use Rattle.std.specs.Prelude.{◌≡◌, ◌<◌, ◌↔◌, ◌*◌, IsTrue, length, Ok, OnOk, OnErr, IfErr};
ghost use Rattle.case_model.specs.CaseView.{content};
ghost use Rattle.entangled.specs.CaseNetView.{case_state};
ghost use Rattle.entangled.specs.CaseRun.{case_opening};
ghost use Rattle.sequential.specs.OtherPValues.{IsTrialOfGraph};
ghost use Rattle.sequential.specs.TrialView.{trial};
ghost use Rattle.trial_rows.specs.Rows.{AreRows, AreRowsTested, IsRowsFault, IsOpeningDefined};

use crate::RowsFault;
use crate::row::test_row;
use case_model::Case;
use entangled::CaseNet;
use field_core::Number;
use fraction::Fraction;
use sequential::Trial;
use std::alloc::Global;

/// Whether there are exactly one double and one mark for each of `size` hypotheses in each row.
fn are_rows(size: usize, doubles: usize, marks: usize, rows: usize) -> bool
    ensures { IsTrue result ↔ AreRows size doubles marks rows }
{
    if marks != doubles {
        return false;
    }
    match rows.checked_mul(size) {
        Some(all) => doubles == all,
        None => false,
    }
}

/// Decides each row. `p_values` has room for those of one row.
fn test_each(
    case: &Case,
    opened: &CaseNet,
    first: Trial,
    p_values: &mut [Fraction],
    doubles: &[u64],
    rejected: &mut [u8],
    statuses: &mut [u8],
)
    requires opened { case_opening (content case.now) ≡ Ok (case_state opened.now) }
    requires graph { IsTrialOfGraph (content case.now) (trial first) }
    requires room { length p_values.old ≡ length (content case.now).names }
    requires rows { AreRows (length (content case.now).names) (length doubles.now) (length rejected.old) (length statuses.old) }
    ensures { AreRowsTested (content case.now) doubles.now rejected.new statuses.new }
{
    let size = case.size();
    let mut current = first;
    for row in 0..statuses.len() {
        let start = row * size;
        let end = start + size;
        let (next, row_end) = test_row(
            case,
            opened,
            current,
            &doubles[start..end],
            p_values,
            &mut rejected[start..end],
        );
        current = next;
        statuses[row] = row_end.code();
    }
}

/// Decides a case with each of many rows of p-values in place of its own; the case may have none of its own.
///
/// `doubles` has the bits of each double, and `rejected` a mark for each hypothesis, both row by row. `statuses` has a status for
/// each row:
/// - 3 if a double has no reading; all marks of the row are then 0.
/// - 5 if each has one, but the run with the readings is undefined; all marks of the row are then 0.
/// - 0 if the row is decided with the readings. Its marks are 1 for the hypotheses that the closed test rejects, and 0 for the
///   others.
///
/// Errors; nothing is written then:
/// - `Lengths`: exactly if there aren't exactly one double and one mark for each hypothesis in each row.
/// - `Wide`: else, if the opening is undefined.
/// - `NoMemory`: else, at any time.
pub fn test_rows(
    alloc: Global,
    case: &Case,
    doubles: &[u64],
    rejected: &mut [u8],
    statuses: &mut [u8],
) -> Result<(), RowsFault>
    ensures fit { OnOk result (AreRows (length (content case.now).names) (length doubles.now) (length rejected.old) (length statuses.old)) }
    ensures opening { OnOk result (IsOpeningDefined (content case.now)) }
    ensures rows { OnOk result (AreRowsTested (content case.now) doubles.now rejected.new statuses.new) }
    ensures fault { IfErr result (IsRowsFault (content case.now) (length doubles.now) (length rejected.old) (length statuses.old)) }
    ensures rejected { OnErr result (rejected.new ≡ rejected.old) }
    ensures statuses { OnErr result (statuses.new ≡ statuses.old) }
{
    if !are_rows(case.size(), doubles.len(), rejected.len(), statuses.len()) {
        return Err(RowsFault::Lengths);
    }
    let mut p_values = vec![in alloc; Fraction::zero(); case.size()]?;
    let first = Trial::open_with(alloc, case, &p_values)?;
    let opened = CaseNet::load(alloc, case)?;
    test_each(
        case,
        &opened,
        first,
        &mut p_values,
        doubles,
        rejected,
        statuses,
    );
    Ok(())
}
