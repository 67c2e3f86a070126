//! Flows of steps.
ghost use Rattle.std.specs.Prelude.{◌≡◌, ◌<◌, ℕ, map, length, get_or, []};
ghost use Rattle.field_core.specs.Sets.{whole};
ghost use Rattle.field_core.specs.Runs.{IsOrder};
ghost use Rattle.case_model.specs.CaseView.{content};
ghost use Rattle.evidence_check.specs.CheckSteps.{all_below};
ghost use Rattle.evidence_check.specs.EvidenceParts.{numbers_at, part_at};
ghost use Rattle.evidence_check.specs.EvidenceView.{hypotheses_of};
ghost use Rattle.evidence_check.specs.WrittenCheck.{flow_check};
ghost use Rattle.evidence_check.specs.CaseCheck.{loaded_case};

use crate::case_sums::{brought, hypothesis};
use crate::event::CheckEvent;
use crate::rows::{number, row};
use crate::sums::{all_below, is_nonnegative, placed, require};
use crate::{ProofStep, Reason};
use case_model::Case;
use case_numbers::CaseNumber;
use field_core::{List, Number, Place};

/// Tests the conditions on the flow, in a component, through the hypothesis of the earlier step at place `r`.
#[tactic(auto, unfolding(crate::specs::WrittenCheck::flow_check))]
fn flow<F: CaseNumber>(
    case: &Case,
    earlier: &[ProofStep<F>],
    c: usize,
    flows: &[F],
    r: usize,
) -> Result<(), CheckEvent>
    requires c { c < length (content case.now).components }
    requires r { r < length earlier.now }
    requires order { IsOrder (length (content case.now).names) whole (hypotheses_of earlier.now) }
    ensures { result ≡ flow_check F.kind (loaded_case F.kind F.numbers (content case.now)) (hypotheses_of earlier.now)
        (numbers_at F.kind (map F.parts flows.now)) c r }
{
    let flow = number(flows, r);
    require(is_nonnegative(&flow), Reason::Negative(c, r))?;
    let at = hypothesis(earlier, r);
    let place = Place::Bound(at);
    let sum = brought(case, place, earlier, c, flows, at)?;
    let order = placed(c, place, flow.compare(&sum))?;
    require(order.is_le(), Reason::Exceeds(c, r))
}

/// Returns the numbers of a component.
pub fn in_component<F: Number>(lists: &List<List<F>>, c: usize) -> &[F]
    ensures { map F.parts result.now ≡ get_or (map (map F.parts) lists.now) c [] }
{
    row(lists, c)
}

/// Tests the conditions on the flows, in a component, through the hypotheses of earlier steps.
pub fn flows<F: CaseNumber>(
    case: &Case,
    earlier: &[ProofStep<F>],
    lists: &List<List<F>>,
    c: usize,
) -> Result<(), CheckEvent>
    requires c { c < length (content case.now).components }
    requires order { IsOrder (length (content case.now).names) whole (hypotheses_of earlier.now) }
    ensures { result ≡ all_below (length (hypotheses_of earlier.now))
        (flow_check F.kind (loaded_case F.kind F.numbers (content case.now)) (hypotheses_of earlier.now)
        (part_at F.kind (map (map F.parts) lists.now) c) c) }
{
    let flows = in_component(lists, c);
    all_below(earlier.len(), |r| flow(case, earlier, c, flows, r))
}
