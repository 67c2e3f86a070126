//! The reader of evidence.
ghost use Rattle.std.specs.Prelude.{map, IfOk};
ghost use Rattle.field_core.specs.Answers.{IsUnless, told_as};
ghost use Rattle.field_core.specs.Kind.{ok_map};
ghost use Rattle.case_model.specs.CaseView.{content};
ghost use Rattle.evidence_check.specs.EvidenceView.{step_parts, keep_parts, IsEvidenceFor};
ghost use Rattle.evidence_check.specs.NumberReading.{case_frame};
ghost use Rattle.evidence_check.specs.ReadView.{proof_fault, said_in};
ghost use Rattle.evidence_check.specs.DocumentStatements.{evidence_reading, case_reading, said_of};
ghost use Rattle.evidence_check.specs.declared.fault.ProofText.TheVariants.{NoMemory};

use crate::document::{end, kept, nothing_after, steps, version};
use crate::loading::EvidenceNumber;
use crate::{Evidence, ProofText, Steps};
use case_model::Case;
use std::alloc::Global;
use text_lines::Ahead;

/// Returns the evidence that a text denotes, in these numbers.
fn read_in<F: EvidenceNumber>(
    alloc: Global,
    case: &Case,
    bytes: &[u8],
) -> Result<Steps<F>, ProofText>
    ensures { IsUnless NoMemory (ok_map (said_in F.parts) result)
        (told_as proof_fault (evidence_reading (case_frame F.numbers (content case.now)) bytes.now)) }
{
    let mut lines = Ahead::new(bytes);
    let version = version(&mut lines)?;
    let steps = steps(alloc, &mut lines, case)?;
    let keeps = kept(alloc, &mut lines, case, version, steps.as_slice())?;
    end(&mut lines)?;
    nothing_after(&lines)?;
    Ok(Steps {
        version,
        steps,
        keeps,
    })
}

/// Returns the evidence that a text denotes for a case, or the first line that isn't allowed in it, or `NoMemory`.
///
/// The first line is `evidence 1` or `evidence 2`. For each step `step NAME` follows, and after it, for each component
/// ascending and each earlier step in order, `flow C NAME Y`. In version 2, for each hypothesis that no step names, ascending,
/// `keep NAME` follows, and after it, for each component ascending and each step in order, `exit C NAME Y`. Last comes `end`.
/// In a flow or exit `C` is the component from 1, and `NAME` is the hypothesis of that step. `Y` is the text of a quotient that
/// `EpsQuotient::read` reads, without brackets if the case is plain. Words and lines are those of `text_lines`. Within a line
/// the first word is tested first, then the number of words, then what follows from left to right. The evidence is in fractions
/// exactly if the case is plain, and fits the case.
pub fn read(alloc: Global, case: &Case, bytes: &[u8]) -> Result<Evidence, ProofText>
    ensures read { IsUnless NoMemory (ok_map said_of result) (told_as proof_fault (case_reading (content case.now) bytes.now)) }
    ensures fits { IfOk result (IsEvidenceFor (content case.now)) }
{
    if case.is_plain() {
        Ok(Evidence::Plain(read_in(alloc, case, bytes)?))
    } else {
        Ok(Evidence::Eps(read_in(alloc, case, bytes)?))
    }
}
