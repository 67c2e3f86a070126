//! Whether evidence is of a case.
ghost use Rattle.std.specs.Prelude.{◌<◌, ◌↔◌, IsTrue, All};
ghost use Rattle.case_model.specs.CaseView.{content};
ghost use Rattle.evidence_check.specs.EvidenceView.{IsOfCase};

use crate::{Evidence, KeepProof, ProofStep, Steps};
use case_model::Case;

/// Whether the hypotheses of steps are below `m`.
fn steps_below<F>(m: usize, steps: &[ProofStep<F>]) -> bool
    ensures { IsTrue result ↔ All (λ s. s.hypothesis < m) steps.now }
{
    steps.iter().all(|step| step.hypothesis < m)
}

/// Whether the hypotheses of keeps are below `m`.
fn keeps_below<F>(m: usize, keeps: &[KeepProof<F>]) -> bool
    ensures { IsTrue result ↔ All (λ x. x.hypothesis < m) keeps.now }
{
    keeps.iter().all(|keep| keep.hypothesis < m)
}

/// Whether the hypotheses of steps and keeps are below `m`.
fn are_below<F>(m: usize, proof: &Steps<F>) -> bool
    ensures { IsTrue result ↔ (All (λ s. s.hypothesis < m) proof.now.steps × All (λ x. x.hypothesis < m) proof.now.keeps) }
{
    steps_below(m, proof.steps.as_slice()) && keeps_below(m, proof.keeps.as_slice())
}

/// Whether evidence is of a case, as `check` requires: it is in fractions if the case is plain, and else in quotients, and its
/// hypotheses are those of the case. The call takes no memory.
pub fn is_of_case(case: &Case, proof: &Evidence) -> bool
    ensures { IsTrue result ↔ IsOfCase (content case.now) proof.now }
{
    match proof {
        Evidence::Plain(proof) => case.is_plain() && are_below(case.size(), proof),
        Evidence::Eps(proof) => !case.is_plain() && are_below(case.size(), proof),
    }
}
