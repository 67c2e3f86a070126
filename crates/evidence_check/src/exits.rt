//! Exits of keeps.
ghost use Rattle.std.specs.Prelude.{◌≡◌, ◌<◌, ℕ, map, length};
ghost use Rattle.field_core.specs.Arithmetic.{number_zero};
ghost use Rattle.field_core.specs.Order.{◌≤ε◌};
ghost use Rattle.field_core.specs.Exact.{value_of};
ghost use Rattle.field_core.specs.Kind.{ok_map};
ghost use Rattle.field_core.specs.Sets.{whole};
ghost use Rattle.field_core.specs.Runs.{IsOrder};
ghost use Rattle.fraction.specs.Plain.{fraction_parts};
ghost use Rattle.case_model.specs.CaseView.{content};
ghost use Rattle.case_model.specs.Content.{entangled};
ghost use Rattle.evidence_check.specs.CheckSteps.{all_below};
ghost use Rattle.evidence_check.specs.EvidenceParts.{numbers_at, part_at};
ghost use Rattle.evidence_check.specs.EvidenceView.{hypotheses_of};
ghost use Rattle.evidence_check.specs.WrittenCheck.{exit_check, allowed_limit};
ghost use Rattle.evidence_check.specs.CheckStatements.{IsLoaded};
ghost use Rattle.evidence_check.specs.CaseCheck.{loaded_case};

use crate::case_sums::{allowed, hypothesis, leaving};
use crate::event::CheckEvent;
use crate::flows::in_component;
use crate::rows::number;
use crate::sums::{all_below, is_nonnegative, placed, require};
use crate::{ProofStep, Reason};
use case_model::Case;
use case_numbers::CaseNumber;
use field_core::{List, Number, Place};
use fraction::Fraction;

/// Tests the conditions on the exit, in a component, to `k` from the hypothesis of the step at place `r`.
fn exit<F: CaseNumber>(
    case: &Case,
    steps: &[ProofStep<F>],
    c: usize,
    exits: &[F],
    k: usize,
    r: usize,
) -> Result<(), CheckEvent>
    requires c { c < length (content case.now).components }
    requires k { k < length (content case.now).names }
    requires r { r < length steps.now }
    requires order { IsOrder (length (content case.now).names) whole (hypotheses_of steps.now) }
    ensures { result ≡ exit_check F.kind (loaded_case F.kind F.numbers (content case.now)) (hypotheses_of steps.now)
        (numbers_at F.kind (map F.parts exits.now)) k c r }
{
    let exit = number(exits, r);
    require(is_nonnegative(&exit), Reason::NegativeExit(c, r))?;
    let sum = leaving(case, steps, c, exits, k, r)?;
    let place = Place::Exit(hypothesis(steps, r), k);
    let order = placed(c, place, sum.compare(&exit))?;
    require(order.is_le(), Reason::ShortExit(c, r))
}

/// Tests the conditions on the exits, in a component, to `k` from the hypotheses of all steps.
pub fn exits<F: CaseNumber>(
    case: &Case,
    steps: &[ProofStep<F>],
    lists: &List<List<F>>,
    k: usize,
    c: usize,
) -> Result<(), CheckEvent>
    requires c { c < length (content case.now).components }
    requires k { k < length (content case.now).names }
    requires order { IsOrder (length (content case.now).names) whole (hypotheses_of steps.now) }
    ensures { result ≡ all_below (length (hypotheses_of steps.now))
        (exit_check F.kind (loaded_case F.kind F.numbers (content case.now)) (hypotheses_of steps.now)
        (part_at F.kind (map (map F.parts) lists.now) c) k c) }
{
    let exits = in_component(lists, c);
    all_below(steps.len(), |r| exit(case, steps, c, exits, k, r))
}

/// Returns the limit of the weight that, in a component, the exits allow `k` to have at most. The exits aren't below 0. A weight
/// above 1 is refused with `AboveOne`.
pub fn limit<F: CaseNumber>(
    case: &Case,
    steps: &[ProofStep<F>],
    lists: &List<List<F>>,
    k: usize,
    c: usize,
) -> Result<Fraction, CheckEvent>
    requires c { c < length (content case.now).components }
    requires k { k < length (content case.now).names }
    requires order { IsOrder (length (content case.now).names) whole (hypotheses_of steps.now) }
    requires loaded { IsLoaded F.IsStored (loaded_case F.kind F.numbers (content case.now)) (entangled (content case.now)) }
    requires exits { (r : ℕ) → r < length (hypotheses_of steps.now)
        → number_zero ≤ε value_of (part_at F.kind (map (map F.parts) lists.now) c r) }
    ensures { ok_map fraction_parts result ≡ allowed_limit F.kind (loaded_case F.kind F.numbers (content case.now))
        (hypotheses_of steps.now)
        (part_at F.kind (map (map F.parts) lists.now) c) k c }
{
    let sum = allowed(case, steps, c, in_component(lists, c), k)?;
    let order = placed(c, Place::Level(k), sum.compare(&F::one()))?;
    require(order.is_le(), Reason::AboveOne(c))?;
    Ok(Fraction::of(sum.limit()))
}
