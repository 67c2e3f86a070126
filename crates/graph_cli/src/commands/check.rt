//! The command `check`.
ghost use Rattle.std.specs.Prelude.{◌≡◌, MatchResult, IfOk};
ghost use Rattle.case_model.specs.CaseView.{content};
ghost use Rattle.evidence_check.specs.EvidenceView.{IsEvidenceFor};
ghost use Rattle.graph_cli.specs.Accepted.{IsOfKind};
ghost use Rattle.graph_cli.specs.Check.{said_of, checked, answer_to, check_stage};
ghost use Rattle.graph_cli.specs.Troubles.{Meets};
ghost use Rattle.graph_cli.specs.declared.kind.InputKind.TheVariants.{Single};

use crate::no_answer::NoAnswer;
use crate::trouble::Trouble;
use answers::{Answer, Status};
use case_model::Case;
use evidence_check::{Evidence, Verdict, check, read};
use field_core::NoMemory;
use refusals::{When, no_text, part_at};
use report::check_text;
use std::alloc::Global;

/// Returns the verdict of the check on evidence.
pub fn check_evidence(case: &Case, proof: &Evidence) -> Result<Verdict, Trouble>
    requires single { IsOfKind Single (content case.now).inputs }
    requires fits { IsEvidenceFor (content case.now) proof.now }
    ensures { MatchResult result (checked (content case.now) (said_of proof.now)).Gives
        (checked (content case.now) (said_of proof.now)).Refuses }
{
    match check(case, proof) {
        Ok(verdict) => Ok(verdict),
        Err(wide) => {
            let when = When::Check(part_at(proof, wide.step));
            Err(Trouble::Wide(when, wide.at))
        }
    }
}

/// Returns the answer to a verdict.
fn answer_to(
    alloc: Global,
    case: &Case,
    proof: &Evidence,
    verdict: Verdict,
) -> Result<Answer, NoMemory>
    ensures { IfOk result (λ answer. answer ≡ answer_to (content case.now) (said_of proof.now) verdict) }
{
    match verdict {
        Verdict::Yes => Ok(Answer::done(check_text(alloc, case, proof)?)),
        Verdict::No(n, reason) => Ok(Answer {
            status: Status::No,
            text: no_text(alloc, case.names(), proof, n, reason)?,
        }),
    }
}

/// Returns the answer of `check` for a case and the text of evidence.
#[tactic(auto, unfolding(crate::specs::Check::check_stage))]
pub fn check_answer(alloc: Global, case: &Case, bytes: &[u8]) -> Result<Answer, NoAnswer>
    requires { IsOfKind Single (content case.now).inputs }
    ensures { Meets (check_stage (content case.now) bytes.now) result }
{
    let proof = read(alloc, case, bytes)?;
    let verdict = check_evidence(case, &proof)?;
    Ok(answer_to(alloc, case, &proof, verdict)?)
}
