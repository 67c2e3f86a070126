//! The written sums of a case.
ghost use Rattle.std.specs.Prelude.{◌≡◌, ◌<◌, ℕ, map, length};
ghost use Rattle.field_core.specs.Kind.{ok_map};
ghost use Rattle.field_core.specs.Sets.{whole};
ghost use Rattle.field_core.specs.Runs.{IsOrder};
ghost use Rattle.case_model.specs.CaseView.{content};
ghost use Rattle.evidence_check.specs.Evidence.{at_place};
ghost use Rattle.evidence_check.specs.EvidenceParts.{numbers_at};
ghost use Rattle.evidence_check.specs.EvidenceView.{hypotheses_of};
ghost use Rattle.evidence_check.specs.WrittenCheck.{brought_sum, leaving_sum, allowed_sum};
ghost use Rattle.evidence_check.specs.CaseCheck.{loaded_case};

use crate::ProofStep;
use crate::event::CheckEvent;
use crate::loading::{edge, weight};
use crate::rows::number;
use crate::sums::added;
use case_model::Case;
use case_numbers::CaseNumber;
use field_core::Place;

/// Returns the hypothesis of the step at place `e`. If the steps are of distinct hypotheses below some number, so is the result.
#[tactic(auto, unfolding(crate::specs::Evidence::at_place))]
pub fn hypothesis<F>(steps: &[ProofStep<F>], e: usize) -> usize
    requires { e < length steps.now }
    ensures place { result ≡ at_place (hypotheses_of steps.now) e }
    ensures below { (m : ℕ) → IsOrder m whole (hypotheses_of steps.now) → result < m }
{
    steps[e].hypothesis
}

/// Returns the weight of the hypothesis of a step in a component.
fn weight_of<F: CaseNumber>(case: &Case, steps: &[ProofStep<F>], c: usize, e: usize) -> F
    requires c { c < length (content case.now).components }
    requires e { e < length steps.now }
    requires order { IsOrder (length (content case.now).names) whole (hypotheses_of steps.now) }
    ensures { F.parts result ≡ (loaded_case F.kind F.numbers (content case.now)).weight c (at_place (hypotheses_of steps.now) e) }
{
    weight(case, c, hypothesis(steps, e))
}

/// Returns the edge from the hypothesis of a step to `k` in a component.
fn edge_from<F: CaseNumber>(case: &Case, steps: &[ProofStep<F>], c: usize, e: usize, k: usize) -> F
    requires c { c < length (content case.now).components }
    requires e { e < length steps.now }
    requires k { k < length (content case.now).names }
    requires order { IsOrder (length (content case.now).names) whole (hypotheses_of steps.now) }
    ensures { F.parts result ≡ (loaded_case F.kind F.numbers (content case.now)).edge c (at_place (hypotheses_of steps.now) e) k }
{
    edge(case, c, hypothesis(steps, e), k)
}

/// Returns the edge from `l` to the hypothesis of a step in a component.
fn edge_to<F: CaseNumber>(case: &Case, steps: &[ProofStep<F>], c: usize, l: usize, e: usize) -> F
    requires c { c < length (content case.now).components }
    requires l { l < length (content case.now).names }
    requires e { e < length steps.now }
    requires order { IsOrder (length (content case.now).names) whole (hypotheses_of steps.now) }
    ensures { F.parts result ≡ (loaded_case F.kind F.numbers (content case.now)).edge c l (at_place (hypotheses_of steps.now) e) }
{
    edge(case, c, l, hypothesis(steps, e))
}

/// Returns the weight of `k` in a component plus what flows through the hypotheses of earlier steps bring to `k`.
#[tactic(auto, unfolding(crate::specs::WrittenCheck::brought_sum))]
pub fn brought<F: CaseNumber>(
    case: &Case,
    place: Place,
    earlier: &[ProofStep<F>],
    c: usize,
    flows: &[F],
    k: usize,
) -> Result<F, CheckEvent>
    requires c { c < length (content case.now).components }
    requires k { k < length (content case.now).names }
    requires order { IsOrder (length (content case.now).names) whole (hypotheses_of earlier.now) }
    ensures { ok_map F.parts result ≡ brought_sum F.kind (loaded_case F.kind F.numbers (content case.now))
        (hypotheses_of earlier.now) place
        (numbers_at F.kind (map F.parts flows.now)) k c }
{
    added(
        c,
        place,
        weight(case, c, k),
        earlier.len(),
        |e| number(flows, e),
        |e| edge_from(case, earlier, c, e, k),
    )
}

/// Returns what leaves, in a component, the hypothesis of the step at place `r` for `k`, directly and by way of exits.
#[tactic(auto, unfolding(crate::specs::WrittenCheck::leaving_sum))]
pub fn leaving<F: CaseNumber>(
    case: &Case,
    steps: &[ProofStep<F>],
    c: usize,
    exits: &[F],
    k: usize,
    r: usize,
) -> Result<F, CheckEvent>
    requires c { c < length (content case.now).components }
    requires k { k < length (content case.now).names }
    requires r { r < length steps.now }
    requires order { IsOrder (length (content case.now).names) whole (hypotheses_of steps.now) }
    ensures { ok_map F.parts result ≡ leaving_sum F.kind (loaded_case F.kind F.numbers (content case.now)) (hypotheses_of steps.now)
        (numbers_at F.kind (map F.parts exits.now)) k c r }
{
    let from = hypothesis(steps, r);
    added(
        c,
        Place::Exit(from, k),
        edge(case, c, from, k),
        steps.len(),
        |e| edge_to(case, steps, c, from, e),
        |e| number(exits, e),
    )
}

/// Returns the weight that, in a component, the exits allow `k` to have at most.
#[tactic(auto, unfolding(crate::specs::WrittenCheck::allowed_sum))]
pub fn allowed<F: CaseNumber>(
    case: &Case,
    steps: &[ProofStep<F>],
    c: usize,
    exits: &[F],
    k: usize,
) -> Result<F, CheckEvent>
    requires c { c < length (content case.now).components }
    requires k { k < length (content case.now).names }
    requires order { IsOrder (length (content case.now).names) whole (hypotheses_of steps.now) }
    ensures { ok_map F.parts result ≡ allowed_sum F.kind (loaded_case F.kind F.numbers (content case.now)) (hypotheses_of steps.now)
        (numbers_at F.kind (map F.parts exits.now)) k c }
{
    added(
        c,
        Place::Level(k),
        weight(case, c, k),
        steps.len(),
        |r| weight_of(case, steps, c, r),
        |r| number(exits, r),
    )
}
