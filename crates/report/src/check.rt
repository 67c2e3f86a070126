//! What the command `check` prints.
ghost use Rattle.std.specs.Prelude.{◌≡◌, ◌++◌, IfOk, OnOk, map};
ghost use Rattle.std.specs.List.{flat_map};
ghost use Rattle.case_model.specs.CaseView.{content};
ghost use Rattle.evidence_check.specs.EvidenceView.{hypotheses_of, version_of, steps_of, keeps_of};
ghost use Rattle.report.specs.TestReport.{spaced_name};
ghost use Rattle.report.specs.CheckReport.{listed_line, keeps_line, check_report};

use crate::lines::put_name;
use case_model::Case;
use evidence_check::{Evidence, KeepProof, ProofStep, Steps};
use field_core::{List, NoMemory};
use std::alloc::Global;

/// Appends the names of the hypotheses of steps.
fn put_step_names<F>(
    text: &mut List<u8>,
    case: &Case,
    steps: &[ProofStep<F>],
) -> Result<(), NoMemory>
    ensures { OnOk result (text.new ≡ text.old ++ flat_map (spaced_name (content case.now)) (hypotheses_of steps.now)) }
{
    for step in steps {
        put_name(text, case, step.hypothesis)?;
    }
    Ok(())
}

/// Appends the names of the hypotheses of keeps.
fn put_keep_names<F>(
    text: &mut List<u8>,
    case: &Case,
    keeps: &[KeepProof<F>],
) -> Result<(), NoMemory>
    ensures { OnOk result (text.new ≡ text.old ++ flat_map (spaced_name (content case.now)) (map (λ x. x.hypothesis) keeps.now)) }
{
    for keep in keeps {
        put_name(text, case, keep.hypothesis)?;
    }
    Ok(())
}

/// Appends the line of the hypotheses of the steps.
#[tactic(auto, unfolding(crate::specs::CheckReport::listed_line))]
fn put_listed<F>(text: &mut List<u8>, case: &Case, steps: &[ProofStep<F>]) -> Result<(), NoMemory>
    ensures { OnOk result (text.new ≡ text.old ++ listed_line (content case.now) (hypotheses_of steps.now)) }
{
    text.append(b"listed")?;
    put_step_names(text, case, steps)?;
    text.push(b'\n')
}

/// Appends the line of the hypotheses of the keeps, if the version has this line.
#[tactic(auto, unfolding(crate::specs::CheckReport::keeps_line))]
fn put_keeps<F>(
    text: &mut List<u8>,
    case: &Case,
    version: u8,
    keeps: &[KeepProof<F>],
) -> Result<(), NoMemory>
    ensures { OnOk result (text.new ≡ text.old ++ keeps_line (content case.now) version (map (λ x. x.hypothesis) keeps.now)) }
{
    if version != 2 {
        return Ok(());
    }
    text.append(b"kept")?;
    put_keep_names(text, case, keeps)?;
    text.push(b'\n')
}

/// Appends the hypotheses of evidence: those of the steps, and those of the keeps.
fn put_hypotheses<F>(text: &mut List<u8>, case: &Case, proof: &Steps<F>) -> Result<(), NoMemory>
    ensures { OnOk result (text.new ≡ text.old ++ (listed_line (content case.now)
        (hypotheses_of proof.now.steps) ++ keeps_line (content case.now) proof.now.version
        (map (λ x. x.hypothesis) proof.now.keeps))) }
{
    put_listed(text, case, proof.steps.as_slice())?;
    put_keeps(text, case, proof.version, proof.keeps.as_slice())
}

/// Appends the hypotheses of evidence for a case.
fn put_evidence(text: &mut List<u8>, case: &Case, proof: &Evidence) -> Result<(), NoMemory>
    ensures { OnOk result (text.new ≡ text.old ++ (listed_line (content case.now) (map (λ s. s.hypothesis)
        (steps_of proof.now)) ++ keeps_line (content case.now) (version_of proof.now)
        (map (λ x. x.hypothesis) (keeps_of proof.now)))) }
{
    match proof {
        Evidence::Plain(proof) => put_hypotheses(text, case, proof),
        Evidence::Eps(proof) => put_hypotheses(text, case, proof),
    }
}

/// Returns what the command `check` prints of evidence that holds, or `NoMemory`. It is `yes`, the names of the hypotheses of the
/// steps in their order, and in version 2 those of the keeps.
#[tactic(auto, unfolding(crate::specs::CheckReport::check_report))]
pub fn check_text(alloc: Global, case: &Case, proof: &Evidence) -> Result<List<u8>, NoMemory>
    ensures { IfOk result (λ text. text ≡ check_report (content case.now) (version_of proof.now) (map
        (λ s. s.hypothesis) (steps_of proof.now)) (map (λ x. x.hypothesis) (keeps_of proof.now))) }
{
    let mut text = List::new(alloc);
    text.append(b"yes\n")?;
    put_evidence(&mut text, case, proof)?;
    text.append(b"end\n")?;
    Ok(text)
}
