//! The checker.
ghost use Rattle.std.specs.Prelude.{◌≡◌, ◌<◌, ◌↔◌, ℕ, [], map, length, Ok, IfOk, All};
ghost use Rattle.field_core.specs.Kind.{ok_map};
ghost use Rattle.field_core.specs.Sets.{whole};
ghost use Rattle.field_core.specs.Runs.{IsOrder};
ghost use Rattle.case_model.specs.CaseView.{content};
ghost use Rattle.case_model.specs.Content.{entangled, IsRejectedIn};
ghost use Rattle.case_model.specs.LegalOrder.{IsListed};
ghost use Rattle.case_numbers.specs.Numbers.{CanRunIn};
ghost use Rattle.evidence_check.specs.Evidence.{others};
ghost use Rattle.evidence_check.specs.EvidenceView.{hypotheses_of, step_parts, keep_parts, steps_of, keeps_of, IsOfCase};
ghost use Rattle.evidence_check.specs.CheckSteps.{numbered};
ghost use Rattle.evidence_check.specs.WrittenCheck.{steps_check, keeps_check};
ghost use Rattle.evidence_check.specs.CheckStatements.{IsLoaded};
ghost use Rattle.evidence_check.specs.CaseCheck.{IsSingle, loaded_case, check_in, case_check, verdict_of, MeetsIn};
ghost use Rattle.evidence_check.specs.declared.verdict.Reason.{Reason as Broken};
ghost use Rattle.evidence_check.specs.declared.verdict.Verdict.TheVariants.{Yes, No};

use crate::event::{CheckEvent, CheckEventAt};
use crate::keep::keep;
use crate::loading::{EvidenceNumber, load};
use crate::step::step;
use crate::{CheckWide, Evidence, KeepProof, ProofStep, Steps, Verdict};
use case_model::Case;
use case_numbers::CaseNumber;

/// Returns the outcome of a step or keep, an event with the number of that step or keep.
#[tactic(auto, unfolding(crate::specs::CheckSteps::numbered))]
fn numbered(number: usize, checked: Result<(), CheckEvent>) -> Result<(), CheckEventAt>
    ensures { result ≡ numbered number checked }
{
    match checked {
        Ok(()) => Ok(()),
        Err(event) => Err(CheckEventAt { number, event }),
    }
}

/// Returns the answer of a check that ended so: yes if nothing was found, no with a broken condition, or the undefined operation.
#[tactic(auto, unfolding(crate::specs::CaseCheck::verdict_of))]
pub fn verdict(checked: Result<(), CheckEventAt>) -> Result<Verdict, CheckWide>
    ensures { result ≡ verdict_of checked }
{
    match checked {
        Ok(()) => Ok(Verdict::Yes),
        Err(CheckEventAt { number, event }) => match event {
            CheckEvent::Broken(reason) => Ok(Verdict::No(number, reason)),
            CheckEvent::Undefined(at) => Err(CheckWide { step: number, at }),
        },
    }
}

/// Tests the conditions on all steps, in their order, up to the first event. If none comes, the steps are of distinct hypotheses.
pub fn steps<F: CaseNumber>(case: &Case, steps: &[ProofStep<F>]) -> Result<(), CheckEventAt>
    requires single { IsSingle (content case.now).inputs }
    requires below { All (λ s. s.hypothesis < length (content case.now).names) (map (step_parts F.parts) steps.now) }
    requires loaded { IsLoaded F.IsStored (loaded_case F.kind F.numbers (content case.now)) (entangled (content case.now)) }
    ensures checked { ok_map (λ u. hypotheses_of steps.now) result ≡ steps_check F.kind
        (loaded_case F.kind F.numbers (content case.now)) []
        (map (step_parts F.parts) steps.now) }
    ensures order { IfOk result (λ u. IsOrder (length (content case.now).names) whole (hypotheses_of steps.now)) }
{
    for s in 0..steps.len() {
        numbered(s + 1, step(case, &steps[..s], &steps[s]))?;
    }
    Ok(())
}

/// Tests the conditions on all keeps, in their order, up to the first event. Keeps are numbered after the steps.
pub fn keeps<F: CaseNumber>(
    case: &Case,
    steps: &[ProofStep<F>],
    keeps: &[KeepProof<F>],
) -> Result<(), CheckEventAt>
    requires single { IsSingle (content case.now).inputs }
    requires below { All (λ x. x.hypothesis < length (content case.now).names) (map (keep_parts F.parts) keeps.now) }
    requires order { IsOrder (length (content case.now).names) whole (hypotheses_of steps.now) }
    requires loaded { IsLoaded F.IsStored (loaded_case F.kind F.numbers (content case.now)) (entangled (content case.now)) }
    ensures { result ≡ keeps_check F.kind (loaded_case F.kind F.numbers (content case.now)) (hypotheses_of steps.now) (length steps.now)
        (map (keep_parts F.parts) keeps.now) }
{
    for x in 0..keeps.len() {
        numbered(steps.len() + x + 1, keep(case, steps, &keeps[x]))?;
    }
    Ok(())
}

/// Checks evidence in the numbers `F`: loads the case, as step 0, and then tests the steps and the keeps, up to the first event.
fn checked<F: EvidenceNumber>(case: &Case, proof: &Steps<F>) -> Result<(), CheckEventAt>
    requires single { IsSingle (content case.now).inputs }
    requires runs { CanRunIn F.numbers (content case.now) }
    requires steps { All (λ s. s.hypothesis < length (content case.now).names) (map (step_parts F.parts) proof.now.steps) }
    requires keeps { All (λ x. x.hypothesis < length (content case.now).names) (map (keep_parts F.parts) proof.now.keeps) }
    ensures { result ≡ check_in F.kind F.numbers (content case.now) (map (step_parts F.parts) proof.now.steps)
        (map (keep_parts F.parts) proof.now.keeps) }
{
    let listed = proof.steps.as_slice();
    let kept = proof.keeps.as_slice();
    numbered(0, load::<F>(case))?;
    steps(case, listed)?;
    keeps(case, listed, kept)
}

/// Checks evidence for a case, in the numbers of the evidence, up to the first event.
fn checked_for(case: &Case, proof: &Evidence) -> Result<(), CheckEventAt>
    requires single { IsSingle (content case.now).inputs }
    requires of_case { IsOfCase (content case.now) proof.now }
    ensures { result ≡ case_check (content case.now) (steps_of proof.now) (keeps_of proof.now) }
{
    match proof {
        Evidence::Plain(proof) => checked(case, proof),
        Evidence::Eps(proof) => checked(case, proof),
    }
}

/// Checks evidence by its conditions, for a case that has a p-value for each hypothesis.
///
/// The conditions are tested in their order: those on each step, and then those on each keep. The answer is
/// - `Verdict::No` exactly if a broken condition comes first,
/// - `CheckWide` exactly if an undefined written operation comes first,
/// - `Verdict::Yes` exactly if neither comes.
///
/// A yes implies that the closed test rejects each hypothesis of a step, and, if the keeps are of all others, that it rejects no
/// other. A number past the end of its list is 0. The call takes no memory and removes nothing.
pub fn check(case: &Case, proof: &Evidence) -> Result<Verdict, CheckWide>
    requires single { IsSingle (content case.now).inputs }
    requires of_case { IsOfCase (content case.now) proof.now }
    ensures answer { result ≡ verdict_of (case_check (content case.now) (steps_of proof.now) (keeps_of proof.now)) }
    ensures yes { result ≡ Ok Yes → MeetsIn (content case.now) (steps_of proof.now) (keeps_of proof.now) }
    ensures no { (n : ℕ) (reason : Broken) → result ≡ Ok (No n reason)
        → ¬ MeetsIn (content case.now) (steps_of proof.now) (keeps_of proof.now) }
    ensures rejected { result ≡ Ok Yes → (j : ℕ) → IsListed (map (λ s. s.hypothesis) (steps_of proof.now)) j
        → IsRejectedIn (content case.now) j }
    ensures all { result ≡ Ok Yes → map (λ x. x.hypothesis) (keeps_of proof.now)
        ≡ others (length (content case.now).names) (map (λ s. s.hypothesis) (steps_of proof.now)) → (j : ℕ)
        → IsListed (map (λ s. s.hypothesis) (steps_of proof.now)) j
        ↔ IsRejectedIn (content case.now) j }
{
    verdict(checked_for(case, proof))
}
