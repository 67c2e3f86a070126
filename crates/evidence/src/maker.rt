//! Evidence for the decision on a case.
ghost use Rattle.std.specs.Prelude.{◌≡◌, IfOk, map, length};
ghost use Rattle.field_core.specs.Sets.{whole};
ghost use Rattle.field_core.specs.Runs.{IsOrder};
ghost use Rattle.case_model.specs.CaseView.{content};
ghost use Rattle.entangled.specs.CaseRun.{case_size};
ghost use Rattle.entangled.specs.CaseNetView.{case_state, is_of_fractions};
ghost use Rattle.sequential.specs.Decisions.{hypotheses};
ghost use Rattle.evidence_check.specs.Evidence.{others};
ghost use Rattle.evidence_check.specs.EvidenceView.{version_of, steps_of, keeps_of, IsFormOf, IsEvidenceFor};
ghost use Rattle.evidence_check.specs.CaseCheck.{IsSingle, MeetsIn};
ghost use Rattle.evidence.specs.CaseFlows.{IsCompleteOrder, case_flows, AreOpened, flows_from, has_fractions};
ghost use Rattle.evidence.specs.Made.{MakesAll, written_evidence};

use crate::run::evidence;
use case_model::Case;
use entangled::CaseNet;
use evidence_check::Evidence;
use field_core::{List, NoMemory};
use sequential::{Decision, RunFault, StepLine};
use std::alloc::Global;

/// Why no evidence is made.
pub type MakeFault = RunFault;

/// Returns the hypotheses of lines, in their order.
#[tactic(auto, using(std::proofs::lemmas::List::map_push, std::proofs::lemmas::List::take_more, std::proofs::lemmas::List::take_all))]
fn hypotheses(alloc: Global, lines: &[StepLine]) -> Result<List<usize>, NoMemory>
    ensures { IfOk result (λ js. js ≡ hypotheses lines.now) }
{
    let mut hypotheses = List::new(alloc);
    for line in lines {
        hypotheses.push(line.hypothesis)?;
    }
    Ok(hypotheses)
}

/// Returns the evidence of the nets of a case, which were just opened, along a list of distinct hypotheses.
#[tactic(auto, unfolding(entangled::specs::CaseNetView::case_state))]
fn evidence_of(
    alloc: Global,
    nets: &mut CaseNet,
    hypotheses: &[usize],
) -> Result<Evidence, MakeFault>
    requires opened { AreOpened (case_state nets.old) }
    requires order { IsOrder (case_size (case_state nets.old)) whole hypotheses.now }
    ensures made { MakesAll written_evidence result (flows_from (case_state nets.old) hypotheses.now) }
    ensures form { IfOk result (λ v. has_fractions v ≡ is_of_fractions nets.old) }
    ensures version { IfOk result (λ v. version_of v ≡ 2) }
{
    match nets {
        CaseNet::Plain(bundle) => {
            let steps = evidence(alloc, bundle, hypotheses)?;
            Ok(Evidence::Plain(steps))
        }
        CaseNet::Eps(bundle) => {
            let steps = evidence(alloc, bundle, hypotheses)?;
            Ok(Evidence::Eps(steps))
        }
    }
}

/// Returns the evidence of a case along a complete legal order.
fn evidence_along(alloc: Global, case: &Case, hypotheses: &[usize]) -> Result<Evidence, MakeFault>
    requires { IsCompleteOrder (content case.now) hypotheses.now }
    ensures made { MakesAll written_evidence result (case_flows (content case.now) hypotheses.now) }
    ensures form { IfOk result (IsFormOf (content case.now)) }
    ensures version { IfOk result (λ v. version_of v ≡ 2) }
{
    let mut nets = CaseNet::load(alloc, case)?;
    evidence_of(alloc, &mut nets, hypotheses)
}

/// Returns evidence for the decision on a case that has a p-value for each hypothesis. The steps of the decision must be a complete
/// legal order of the case; those of each decision are, by the law `decisions_are_complete_orders`.
///
/// The evidence is of version 2. It lists the steps of the decision and has keeps for all other hypotheses. Its flows and exits are
/// the numbers of the written flow run. It meets its conditions, so that `check` doesn't find a broken one.
///
/// Unless out of memory, the call is refused with `MakeFault::Wide` exactly if the written flow run is undefined, with the step,
/// counted from 1; step 0 is the opening.
pub fn make(alloc: Global, case: &Case, decision: &Decision) -> Result<Evidence, MakeFault>
    requires single { IsSingle (content case.now).inputs }
    requires order { IsCompleteOrder (content case.now) (hypotheses decision.now.steps) }
    ensures made { MakesAll written_evidence result (case_flows (content case.now) (hypotheses decision.now.steps)) }
    ensures fits { IfOk result (λ v. IsEvidenceFor (content case.now) v) }
    ensures version { IfOk result (λ v. version_of v ≡ 2) }
    ensures lists { IfOk result (λ v. map (λ s. s.hypothesis) (steps_of v) ≡ hypotheses decision.now.steps) }
    ensures keeps { IfOk result (λ v. map (λ x. x.hypothesis) (keeps_of v) ≡ others (length
        (content case.now).names) (hypotheses decision.now.steps)) }
    ensures meets { IfOk result (λ v. MeetsIn (content case.now) (steps_of v) (keeps_of v)) }
{
    let hypotheses = hypotheses(alloc, decision.steps.as_slice())?;
    evidence_along(alloc, case, hypotheses.as_slice())
}
