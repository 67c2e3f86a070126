//! The writer of evidence.
ghost use Rattle.std.specs.Prelude.{◌≡◌, ◌+◌, ◌<◌, ◌++◌, [], ◌∷◌, map, length, get_or, IfOk, OnOk, All};
ghost use Rattle.std.specs.Fmt.{decimal};
ghost use Rattle.text_lines.specs.Spelling.{spaced, text_of};
ghost use Rattle.case_model.specs.CaseView.{content};
ghost use Rattle.evidence_check.specs.declared.quantity.Quantity.TheVariants.{Flow, Exit};
ghost use Rattle.evidence_check.specs.EvidenceParts.{AreFull, FlowsFit, ExitsFit};
ghost use Rattle.evidence_check.specs.EvidenceView.{hypotheses_of, step_parts, keep_parts, FitsCase, IsEvidenceFor};
ghost use Rattle.evidence_check.specs.DocumentLines.{keyword, version_words, step_words, number_words, keep_words};
ghost use Rattle.evidence_check.specs.EvidenceLines.{number_lines, list_lines, step_lines, keep_lines, evidence_lines};
ghost use Rattle.evidence_check.specs.NumberReading.{case_frame};
ghost use Rattle.evidence_check.specs.NumberTexts.{number_text};
ghost use Rattle.evidence_check.specs.DocumentStatements.{SaysEvidence, evidence_text};
ghost use Rattle.evidence.specs.EvidenceText.{line_text};

use case_model::Case;
use case_numbers::CaseNumber;
use eps_quotient::EpsQuotient;
use evidence_check::{Evidence, KeepProof, ProofStep, Quantity, Steps, keyword};
use field_core::{List, NoMemory};
use fraction::Fraction;
use std::alloc::Global;

/// Numbers that evidence is written in.
trait WrittenNumber: CaseNumber {
    /// Appends a blank and the number.
    fn put(&self, text: &mut List<u8>) -> Result<(), NoMemory>
        ensures { OnOk result (text.new ≡ text.old ++ spaced (number_text Self.numbers (Self.parts self.now))) };
}

impl WrittenNumber for Fraction {
    fn put(&self, text: &mut List<u8>) -> Result<(), NoMemory> {
        text.push(b' ')?;
        self.print(text)
    }
}

impl WrittenNumber for EpsQuotient {
    fn put(&self, text: &mut List<u8>) -> Result<(), NoMemory> {
        text.push(b' ')?;
        self.print(text)
    }
}

/// Appends a blank and a whole number.
fn put_whole(text: &mut List<u8>, number: u8) -> Result<(), NoMemory>
    ensures { OnOk result (text.new ≡ text.old ++ spaced (decimal number)) }
{
    text.push(b' ')?;
    text.append_unsigned(number as u128)
}

/// Appends a blank and the name of a hypothesis.
#[tactic(auto, using(std::proofs::lemmas::Option::get_or_from_slice_get))]
fn put_name(text: &mut List<u8>, case: &Case, hypothesis: usize) -> Result<(), NoMemory>
    requires { hypothesis < length (content case.now).names }
    ensures { OnOk result (text.new ≡ text.old ++ spaced (get_or (content case.now).names hypothesis [])) }
{
    text.push(b' ')?;
    text.append(case.name(hypothesis))
}

/// Appends the line of the version.
fn put_version(text: &mut List<u8>, version: u8) -> Result<(), NoMemory>
    ensures { OnOk result (text.new ≡ text.old ++ line_text (version_words version)) }
{
    text.append(b"evidence")?;
    put_whole(text, version)?;
    text.push(b'\n')
}

/// Appends the line of a number.
fn put_number<F: WrittenNumber>(
    text: &mut List<u8>,
    case: &Case,
    quantity: Quantity,
    c: usize,
    hypothesis: usize,
    number: &F,
) -> Result<(), NoMemory>
    requires c { c < 8 }
    requires hypothesis { hypothesis < length (content case.now).names }
    ensures { OnOk result (text.new ≡ text.old ++ line_text
        (number_words (case_frame F.numbers (content case.now)) quantity c hypothesis (F.parts number.now))) }
{
    text.append(keyword(quantity))?;
    put_whole(text, c as u8 + 1)?;
    put_name(text, case, hypothesis)?;
    number.put(text)?;
    text.push(b'\n')
}

/// Appends the numbers of a component, one for each of these steps.
#[tactic(auto, using(evidence_check::proofs::ReadAnswers::known_at))]
fn put_numbers<F: WrittenNumber>(
    text: &mut List<u8>,
    case: &Case,
    quantity: Quantity,
    c: usize,
    steps: &[ProofStep<F>],
    numbers: &[F],
) -> Result<(), NoMemory>
    requires c { c < 8 }
    requires known { All (λ j. j < length (content case.now).names) (hypotheses_of steps.now) }
    requires count { length numbers.now ≡ length steps.now }
    ensures { OnOk result (text.new ≡ text.old ++ text_of
        (number_lines (case_frame F.numbers (content case.now)) quantity c (hypotheses_of steps.now) (map F.parts numbers.now))) }
{
    for e in 0..steps.len() {
        put_number(text, case, quantity, c, steps[e].hypothesis, &numbers[e])?;
    }
    Ok(())
}

/// Appends the numbers of all components, in each one for each of these steps.
fn put_lists<F: WrittenNumber>(
    text: &mut List<u8>,
    case: &Case,
    quantity: Quantity,
    steps: &[ProofStep<F>],
    lists: &[List<F>],
) -> Result<(), NoMemory>
    requires known { All (λ j. j < length (content case.now).names) (hypotheses_of steps.now) }
    requires full { AreFull (length (content case.now).components) (length steps.now) (map (map F.parts) lists.now) }
    ensures { OnOk result (text.new ≡ text.old ++ text_of
        (list_lines (case_frame F.numbers (content case.now)) quantity 0 (hypotheses_of steps.now) (map (map F.parts) lists.now))) }
{
    for c in 0..case.components() {
        put_numbers(text, case, quantity, c, steps, lists[c].as_slice())?;
    }
    Ok(())
}

/// Appends the line of the step of a hypothesis.
fn put_rejected<F: WrittenNumber>(
    text: &mut List<u8>,
    case: &Case,
    hypothesis: usize,
) -> Result<(), NoMemory>
    requires { hypothesis < length (content case.now).names }
    ensures { OnOk result (text.new ≡ text.old ++ line_text (step_words (case_frame F.numbers (content case.now)) hypothesis)) }
{
    text.append(b"step")?;
    put_name(text, case, hypothesis)?;
    text.push(b'\n')
}

/// Appends the line of the keep of a hypothesis.
fn put_kept<F: WrittenNumber>(
    text: &mut List<u8>,
    case: &Case,
    hypothesis: usize,
) -> Result<(), NoMemory>
    requires { hypothesis < length (content case.now).names }
    ensures { OnOk result (text.new ≡ text.old ++ line_text (keep_words (case_frame F.numbers (content case.now)) hypothesis)) }
{
    text.append(b"keep")?;
    put_name(text, case, hypothesis)?;
    text.push(b'\n')
}

/// Appends a step after others: its line, and its flows.
fn put_step<F: WrittenNumber>(
    text: &mut List<u8>,
    case: &Case,
    earlier: &[ProofStep<F>],
    step: &ProofStep<F>,
) -> Result<(), NoMemory>
    requires known { All (λ j. j < length (content case.now).names) (hypotheses_of earlier.now) }
    requires below { step.now.hypothesis < length (content case.now).names }
    requires full { AreFull (length (content case.now).components) (length earlier.now) (map (map F.parts) step.now.flows) }
    ensures { OnOk result (text.new ≡ text.old ++ text_of (step_words (case_frame F.numbers (content case.now)) step.now.hypothesis
        ∷ list_lines (case_frame F.numbers (content case.now)) Flow 0 (hypotheses_of earlier.now) (map (map F.parts) step.now.flows))) }
{
    put_rejected::<F>(text, case, step.hypothesis)?;
    put_lists(text, case, Quantity::Flow, earlier, step.flows.as_slice())
}

/// Appends all steps.
fn put_steps<F: WrittenNumber>(
    text: &mut List<u8>,
    case: &Case,
    steps: &[ProofStep<F>],
) -> Result<(), NoMemory>
    requires known { All (λ j. j < length (content case.now).names) (hypotheses_of steps.now) }
    requires fit { FlowsFit (length (content case.now).components) 0 (map (step_parts F.parts) steps.now) }
    ensures { OnOk result (text.new ≡ text.old ++ text_of (step_lines (case_frame F.numbers (content case.now)) [] (map
        (step_parts F.parts) steps.now))) }
{
    for s in 0..steps.len() {
        put_step(text, case, &steps[..s], &steps[s])?;
    }
    Ok(())
}

/// Appends a keep: its line, and its exits.
fn put_keep<F: WrittenNumber>(
    text: &mut List<u8>,
    case: &Case,
    steps: &[ProofStep<F>],
    keep: &KeepProof<F>,
) -> Result<(), NoMemory>
    requires known { All (λ j. j < length (content case.now).names) (hypotheses_of steps.now) }
    requires below { keep.now.hypothesis < length (content case.now).names }
    requires full { AreFull (length (content case.now).components) (length steps.now) (map (map F.parts) keep.now.exits) }
    ensures { OnOk result (text.new ≡ text.old ++ text_of (keep_words (case_frame F.numbers (content case.now)) keep.now.hypothesis
        ∷ list_lines (case_frame F.numbers (content case.now)) Exit 0 (hypotheses_of steps.now) (map (map F.parts) keep.now.exits))) }
{
    put_kept::<F>(text, case, keep.hypothesis)?;
    put_lists(text, case, Quantity::Exit, steps, keep.exits.as_slice())
}

/// Appends all keeps.
fn put_keeps<F: WrittenNumber>(
    text: &mut List<u8>,
    case: &Case,
    steps: &[ProofStep<F>],
    keeps: &[KeepProof<F>],
) -> Result<(), NoMemory>
    requires known { All (λ j. j < length (content case.now).names) (hypotheses_of steps.now) }
    requires below { All (λ x. x.hypothesis < length (content case.now).names) (map (keep_parts F.parts) keeps.now) }
    requires fit { ExitsFit (length (content case.now).components) (length steps.now) (map (keep_parts F.parts) keeps.now) }
    ensures { OnOk result (text.new ≡ text.old ++ text_of
        (keep_lines (case_frame F.numbers (content case.now)) (hypotheses_of steps.now) (map (keep_parts F.parts) keeps.now))) }
{
    for keep in keeps {
        put_keep(text, case, steps, keep)?;
    }
    Ok(())
}

/// Returns the text of evidence in these numbers.
fn written<F: WrittenNumber>(
    alloc: Global,
    case: &Case,
    proof: &Steps<F>,
) -> Result<List<u8>, NoMemory>
    requires { FitsCase (content case.now) proof.now.version (map (step_parts F.parts) proof.now.steps)
        (map (keep_parts F.parts) proof.now.keeps) }
    ensures { IfOk result (λ text. text ≡ text_of
        (evidence_lines (case_frame F.numbers (content case.now)) proof.now.version
        (map (step_parts F.parts) proof.now.steps) (map (keep_parts F.parts) proof.now.keeps))) }
{
    let steps = proof.steps.as_slice();
    let mut text = List::new(alloc);
    put_version(&mut text, proof.version)?;
    put_steps(&mut text, case, steps)?;
    put_keeps(&mut text, case, steps, proof.keeps.as_slice())?;
    text.append(b"end\n")?;
    Ok(text)
}

/// Returns the text of evidence for a case, or `NoMemory`.
///
/// Its lines are those that `evidence_check::read` reads, in their order, with one blank between words and a line feed after
/// each line. Numbers are written by `Fraction::print` if the case is plain, and else by `EpsQuotient::print`. The text denotes
/// this evidence and no other, so `evidence_check::read` gives it back. Nothing is required of the p-values of the case.
pub fn write(alloc: Global, case: &Case, proof: &Evidence) -> Result<List<u8>, NoMemory>
    requires { IsEvidenceFor (content case.now) proof.now }
    ensures text { IfOk result (λ text. text ≡ evidence_text (content case.now) proof.now) }
    ensures says { IfOk result (λ text. SaysEvidence (content case.now) text proof.now) }
{
    match proof {
        Evidence::Plain(proof) => written(alloc, case, proof),
        Evidence::Eps(proof) => written(alloc, case, proof),
    }
}
