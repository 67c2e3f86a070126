//! The check of a keep.
ghost use Rattle.std.specs.Prelude.{◌≡◌, ◌<◌, ℕ, map, length};
ghost use Rattle.field_core.specs.Arithmetic.{number_zero};
ghost use Rattle.field_core.specs.Order.{◌≤ε◌};
ghost use Rattle.field_core.specs.Exact.{value_of};
ghost use Rattle.field_core.specs.Kind.{ok_map};
ghost use Rattle.fraction.specs.Plain.{fraction_parts};
ghost use Rattle.field_core.specs.Sets.{whole};
ghost use Rattle.field_core.specs.Runs.{IsOrder};
ghost use Rattle.case_model.specs.CaseView.{content};
ghost use Rattle.case_model.specs.Content.{entangled};
ghost use Rattle.evidence_check.specs.EvidenceParts.{part_at};
ghost use Rattle.evidence_check.specs.EvidenceView.{hypotheses_of, keep_parts};
ghost use Rattle.evidence_check.specs.WrittenCheck.{level_by, allowed_limit, keep_check};
ghost use Rattle.evidence_check.specs.CheckStatements.{IsLoaded};
ghost use Rattle.evidence_check.specs.CaseCheck.{IsSingle, loaded_case};

use crate::event::CheckEvent;
use crate::exits::{exits, limit};
use crate::level::{level, passes_at};
use crate::sums::{all_below, require};
use crate::{KeepProof, ProofStep, Reason};
use case_model::Case;
use case_numbers::CaseNumber;
use field_core::List;
use fraction::Fraction;

/// Returns the level that the exits, none of which is below 0, allow `k` to have at most, or the first event.
fn keep_level<F: CaseNumber>(
    case: &Case,
    steps: &[ProofStep<F>],
    lists: &List<List<F>>,
    k: usize,
) -> Result<Fraction, CheckEvent>
    requires k { k < length (content case.now).names }
    requires order { IsOrder (length (content case.now).names) whole (hypotheses_of steps.now) }
    requires loaded { IsLoaded F.IsStored (loaded_case F.kind F.numbers (content case.now)) (entangled (content case.now)) }
    requires exits { (c : ℕ) → c < length (content case.now).components → (r : ℕ) → r < length (hypotheses_of steps.now)
        → number_zero ≤ε value_of (part_at F.kind (map (map F.parts) lists.now) c r) }
    ensures { ok_map fraction_parts result ≡ level_by (loaded_case F.kind F.numbers (content case.now)) k
        (λ c. allowed_limit F.kind (loaded_case F.kind F.numbers (content case.now)) (hypotheses_of steps.now)
        (part_at F.kind (map (map F.parts) lists.now) c) k c) }
{
    level(case, k, |c| limit(case, steps, lists, k, c))
}

/// Tests the conditions on a keep after all steps, in their order, up to the first event.
pub fn keep<F: CaseNumber>(
    case: &Case,
    steps: &[ProofStep<F>],
    keep: &KeepProof<F>,
) -> Result<(), CheckEvent>
    requires single { IsSingle (content case.now).inputs }
    requires below { keep.now.hypothesis < length (content case.now).names }
    requires order { IsOrder (length (content case.now).names) whole (hypotheses_of steps.now) }
    requires loaded { IsLoaded F.IsStored (loaded_case F.kind F.numbers (content case.now)) (entangled (content case.now)) }
    ensures { result ≡ keep_check F.kind (loaded_case F.kind F.numbers (content case.now)) (hypotheses_of steps.now)
        (keep_parts F.parts keep.now) }
{
    let k = keep.hypothesis;
    all_below(case.components(), |c| exits(case, steps, &keep.exits, k, c))?;
    let level = keep_level(case, steps, &keep.exits, k)?;
    require(!passes_at(case, k, &level), Reason::Legal)
}
