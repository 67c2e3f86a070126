//! One row: its doubles are read, and the case is decided with these p-values.
ghost use Rattle.std.specs.Prelude.{◌≡◌, ◌<◌, ℕ, true, false, length, get_or, Ok};
ghost use Rattle.std.specs.List.{list_all};
ghost use Rattle.case_model.specs.CaseView.{content};
ghost use Rattle.case_model.specs.Draft.{is_p_value};
ghost use Rattle.case_model.specs.LegalOrder.{IsListed};
ghost use Rattle.entangled.specs.CaseNetView.{case_state};
ghost use Rattle.entangled.specs.CaseRun.{case_opening};
ghost use Rattle.sequential.specs.OtherPValues.{IsTrialOfGraph};
ghost use Rattle.sequential.specs.TrialView.{trial};
ghost use Rattle.trial_rows.specs.RowEnds.{end_code};
ghost use Rattle.trial_rows.specs.Rows.{AreReadings, HasUnread, IsMark, AreUnmarked, IsRowTested};

use crate::row_end::RowEnd;
use case_model::Case;
use entangled::CaseNet;
use fraction::Fraction;
use sequential::{Priority, Trial, reject_all};
use typed_numbers::reading;

/// Reads doubles, given by their bits, into `p_values`. Returns false if one of them has no reading.
fn read_all(doubles: &[u64], p_values: &mut [Fraction]) -> bool
    requires { length p_values.old ≡ length doubles.now }
    ensures read { result ≡ true → AreReadings (length doubles.now) (λ j. get_or doubles.now j 0) p_values.new }
    ensures p_values { result ≡ true → list_all is_p_value p_values.new ≡ true }
    ensures unread { result ≡ false → HasUnread (length doubles.now) (λ j. get_or doubles.now j 0) }
{
    for j in 0..doubles.len() {
        match reading(doubles[j]) {
            Some(p) => p_values[j] = p,
            None => return false,
        }
    }
    true
}

/// Marks the hypotheses: with 1 those that are rejected in a trial, with 0 the others.
fn mark_all(current: &Trial, marks: &mut [u8])
    requires { length marks.old ≡ length (trial current.now).p_values }
    ensures { (j : ℕ) → j < length marks.new → IsMark (IsListed (trial current.now).rejected j) (get_or marks.new j 0) }
{
    for j in 0..marks.len() {
        marks[j] = current.is_rejected(j) as u8;
    }
}

/// Marks no hypothesis.
fn unmark_all(marks: &mut [u8])
    ensures { AreUnmarked (length marks.old) (λ j. get_or marks.new j 0) }
{
    marks.fill(0);
}

/// Decides a row: reads its doubles, and marks the hypotheses that the closed test rejects with them. Returns the trial, for the
/// next row, and how the row ends. Unless it is decided, each mark is 0.
///
/// `opened` are the nets of the case as they are loaded. `current` is a trial of the case, with any p-values. `p_values` has room
/// for those of the row.
pub(crate) fn test_row(
    case: &Case,
    opened: &CaseNet,
    current: Trial,
    doubles: &[u64],
    p_values: &mut [Fraction],
    marks: &mut [u8],
) -> (Trial, RowEnd)
    requires opened { case_opening (content case.now) ≡ Ok (case_state opened.now) }
    requires graph { IsTrialOfGraph (content case.now) (trial current) }
    requires doubles { length doubles.now ≡ length (content case.now).names }
    requires room { length p_values.old ≡ length (content case.now).names }
    requires marks { length marks.old ≡ length (content case.now).names }
    ensures graph { IsTrialOfGraph (content case.now) (trial result.0) }
    ensures row { IsRowTested (content case.now) (λ j. get_or doubles.now j 0) (λ j. get_or marks.new j 0) (end_code result.1) }
{
    if !read_all(doubles, p_values) {
        unmark_all(marks);
        return (current, RowEnd::Unread);
    }
    let mut current = current.reopen_with(case, opened, p_values);
    match reject_all(&mut current, Priority::First) {
        Ok(()) => {
            mark_all(&current, marks);
            (current, RowEnd::Decided)
        }
        Err(_) => {
            unmark_all(marks);
            (current, RowEnd::Wide)
        }
    }
}
