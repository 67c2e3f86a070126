//! The command `evidence`.
ghost use Rattle.std.specs.Prelude.{IfOk};
ghost use Rattle.answers.specs.Stages.{seen_by};
ghost use Rattle.case_model.specs.CaseView.{content};
ghost use Rattle.evidence.specs.CaseFlows.{IsCompleteOrder};
ghost use Rattle.graph_cli.specs.Accepted.{IsOfKind};
ghost use Rattle.graph_cli.specs.Check.{said_of};
ghost use Rattle.graph_cli.specs.Evidence.{IsFlowRun, flown, confirmed, evidence_stage};
ghost use Rattle.graph_cli.specs.Troubles.{Meets};
ghost use Rattle.graph_cli.specs.declared.kind.InputKind.TheVariants.{Single};
ghost use Rattle.sequential.specs.Decisions.{hypotheses};

use crate::commands::check::check_evidence;
use crate::commands::test::decide_case;
use crate::no_answer::{NoAnswer, Run};
use answers::Answer;
use case_model::Case;
use evidence::{make, write};
use evidence_check::{Evidence, Verdict};
use field_core::List;
use sequential::{Decision, Priority};
use std::alloc::Global;

/// Makes the evidence of the flow run along the steps of a decision.
fn make_evidence(alloc: Global, case: &Case, decision: &Decision) -> Result<Evidence, NoAnswer>
    requires single { IsOfKind Single (content case.now).inputs }
    requires order { IsCompleteOrder (content case.now) (hypotheses decision.now.steps) }
    ensures meets { Meets (seen_by said_of (flown (content case.now) decision.now)) result }
    ensures run { IfOk result (IsFlowRun (content case.now) decision.now) }
{
    match make(alloc, case, decision) {
        Ok(proof) => Ok(proof),
        Err(fault) => Err(NoAnswer::of_run(Run::Flows, fault)),
    }
}

/// Writes the text of the evidence of a flow run, on which the verdict of the check is yes.
fn checked_text(
    alloc: Global,
    case: &Case,
    decision: &Decision,
    proof: &Evidence,
) -> Result<List<u8>, NoAnswer>
    requires single { IsOfKind Single (content case.now).inputs }
    requires order { IsCompleteOrder (content case.now) (hypotheses decision.now.steps) }
    requires run { IsFlowRun (content case.now) decision.now proof.now }
    ensures { Meets (confirmed (content case.now) (said_of proof.now)) result }
{
    let verdict = check_evidence(case, proof)?;
    match verdict {
        Verdict::Yes => Ok(write(alloc, case, proof)?),
        Verdict::No(_, _) => unreachable!(),
    }
}

/// Returns the answer of `evidence` for a case. The decision comes first, then the flow run along its steps; its evidence is
/// printed only if the verdict of the check on it is yes.
#[tactic(auto, unfolding(crate::specs::Evidence::evidence_stage))]
pub fn evidence_answer(alloc: Global, case: &Case, priority: Priority) -> Result<Answer, NoAnswer>
    requires { IsOfKind Single (content case.now).inputs }
    ensures { Meets (evidence_stage priority (content case.now)) result }
{
    let decision = decide_case(alloc, case, priority)?;
    let proof = make_evidence(alloc, case, &decision)?;
    let text = checked_text(alloc, case, &decision, &proof)?;
    Ok(Answer::done(text))
}
