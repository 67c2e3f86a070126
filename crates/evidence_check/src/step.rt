//! The check of a step.
ghost use Rattle.std.specs.Prelude.{◌≡◌, ◌<◌, ◌==◌, ℕ, false, map, length};
ghost use Rattle.std.specs.List.{list_any};
ghost use Rattle.field_core.specs.Exact.{value_of};
ghost use Rattle.field_core.specs.Kind.{ok_map};
ghost use Rattle.field_core.specs.Sets.{whole, set_of};
ghost use Rattle.field_core.specs.Runs.{IsOrder};
ghost use Rattle.fraction.specs.Plain.{fraction_parts};
ghost use Rattle.case_model.specs.CaseView.{content};
ghost use Rattle.case_model.specs.Content.{entangled};
ghost use Rattle.evidence_check.specs.Evidence.{AreFlows};
ghost use Rattle.evidence_check.specs.EvidenceParts.{part_at};
ghost use Rattle.evidence_check.specs.EvidenceView.{hypotheses_of, step_parts};
ghost use Rattle.evidence_check.specs.WrittenCheck.{level_by, level_limit, step_check};
ghost use Rattle.evidence_check.specs.CheckStatements.{IsLoaded};
ghost use Rattle.evidence_check.specs.CaseCheck.{IsSingle, loaded_case};

use crate::case_sums::brought;
use crate::event::CheckEvent;
use crate::flows::{flows, in_component};
use crate::level::{is_above_zero, level, passes_at};
use crate::sums::{all_below, require};
use crate::{ProofStep, Reason};
use case_model::Case;
use case_numbers::CaseNumber;
use field_core::{List, Number, Place};
use fraction::Fraction;

/// Whether a step is of this hypothesis.
pub fn is_listed<F>(steps: &[ProofStep<F>], j: usize) -> bool
    ensures { result ≡ list_any (λ s. s.hypothesis == j) steps.now }
{
    steps.iter().any(|step| step.hypothesis == j)
}

/// Returns the limit of the weight of `k` in a component plus what flows bring to `k`, which no earlier step names. The flows meet
/// their conditions, so this is from 0 to 1.
fn limit<F: CaseNumber>(
    case: &Case,
    earlier: &[ProofStep<F>],
    lists: &List<List<F>>,
    k: usize,
    c: usize,
) -> Result<Fraction, CheckEvent>
    requires c { c < length (content case.now).components }
    requires k { k < length (content case.now).names }
    requires order { IsOrder (length (content case.now).names) whole (hypotheses_of earlier.now) }
    requires loaded { IsLoaded F.IsStored (loaded_case F.kind F.numbers (content case.now)) (entangled (content case.now)) }
    requires other { set_of (hypotheses_of earlier.now) k ≡ false }
    requires flows { AreFlows ((entangled (content case.now)).graph c) (hypotheses_of earlier.now)
        (λ e. value_of (part_at F.kind (map (map F.parts) lists.now) c e)) }
    ensures { ok_map fraction_parts result ≡ level_limit F.kind (loaded_case F.kind F.numbers (content case.now))
        (hypotheses_of earlier.now)
        (part_at F.kind (map (map F.parts) lists.now) c) k c }
{
    let flows = in_component(lists, c);
    let sum = brought(case, Place::Level(k), earlier, c, flows, k)?;
    Ok(Fraction::of(sum.limit()))
}

/// Returns the level of `k` by flows that meet their conditions, or the undefined operation.
fn step_level<F: CaseNumber>(
    case: &Case,
    earlier: &[ProofStep<F>],
    lists: &List<List<F>>,
    k: usize,
) -> Result<Fraction, CheckEvent>
    requires k { k < length (content case.now).names }
    requires order { IsOrder (length (content case.now).names) whole (hypotheses_of earlier.now) }
    requires loaded { IsLoaded F.IsStored (loaded_case F.kind F.numbers (content case.now)) (entangled (content case.now)) }
    requires other { set_of (hypotheses_of earlier.now) k ≡ false }
    requires flows { (c : ℕ) → c < length (content case.now).components
        → AreFlows ((entangled (content case.now)).graph c) (hypotheses_of earlier.now)
        (λ e. value_of (part_at F.kind (map (map F.parts) lists.now) c e)) }
    ensures { ok_map fraction_parts result ≡ level_by (loaded_case F.kind F.numbers (content case.now)) k
        (λ c. level_limit F.kind (loaded_case F.kind F.numbers (content case.now)) (hypotheses_of earlier.now)
        (part_at F.kind (map (map F.parts) lists.now) c) k c) }
{
    level(case, k, |c| limit(case, earlier, lists, k, c))
}

/// Tests the conditions on a step after earlier ones, in their order, up to the first event.
pub fn step<F: CaseNumber>(
    case: &Case,
    earlier: &[ProofStep<F>],
    step: &ProofStep<F>,
) -> Result<(), CheckEvent>
    requires single { IsSingle (content case.now).inputs }
    requires below { step.now.hypothesis < length (content case.now).names }
    requires order { IsOrder (length (content case.now).names) whole (hypotheses_of earlier.now) }
    requires loaded { IsLoaded F.IsStored (loaded_case F.kind F.numbers (content case.now)) (entangled (content case.now)) }
    ensures { result ≡ step_check F.kind (loaded_case F.kind F.numbers (content case.now)) (hypotheses_of earlier.now)
        (step_parts F.parts step.now) }
{
    let k = step.hypothesis;
    require(!is_listed(earlier, k), Reason::Repeated)?;
    all_below(case.components(), |c| flows(case, earlier, &step.flows, c))?;
    let level = step_level(case, earlier, &step.flows, k)?;
    require(is_above_zero(&level), Reason::NoLevel)?;
    require(passes_at(case, k, &level), Reason::AboveLevel)
}
