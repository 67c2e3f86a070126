//! A document of evidence, line by line.
ghost use Rattle.std.specs.Prelude.{◌≡◌, ◌<◌, ◌≤◌, ℕ, List as Seq, [], ◌∷◌, map, length, IfOk, IfErr, IfSome, All};
ghost use Rattle.field_core.specs.Answers.{told_as};
ghost use Rattle.text_lines.specs.Forms.{Line as OneLine, Many, words_seen, all_read};
ghost use Rattle.text_lines.specs.Kinds.{maybe, each_of};
ghost use Rattle.text_lines.specs.View.{row};
ghost use Rattle.case_model.specs.CaseView.{content};
ghost use Rattle.case_model.specs.Names.{position_of};
ghost use Rattle.evidence_check.specs.DocumentLines.{Frame, kinds, version_line, step_line, number_line, keep_line, end_line};
ghost use Rattle.evidence_check.specs.Document.{component_numbers, numbers, step, keep, kept};
ghost use Rattle.evidence_check.specs.NumberReading.{case_frame};
ghost use Rattle.evidence_check.specs.Evidence.{others};
ghost use Rattle.evidence_check.specs.EvidenceView.{hypotheses_of, step_parts, keep_parts};
ghost use Rattle.evidence_check.specs.ReadView.{proof_fault, Reads};
ghost use Rattle.evidence_check.specs.declared.fault.ProofKind.TheVariants.{Ended};
ghost use Rattle.evidence_check.specs.declared.fault.ProofText.TheVariants as faults;

use crate::loading::EvidenceNumber;
use crate::step::is_listed;
use crate::{KeepProof, ProofKind, ProofStep, ProofText, Quantity, rules};
use case_model::Case;
use field_core::List;
use std::alloc::Global;
use text_lines::{Ahead, Line};

/// Takes the next line, which must be there.
pub fn next_line<'a>(lines: &mut Ahead<'a>) -> Result<Line<'a>, ProofText>
    ensures found { IfOk result (λ line. lines.old.rows ≡ row line ∷ lines.new.rows) }
    ensures fault { IfErr result (λ fault. (lines.old.rows ≡ []) × (fault ≡ faults.Line lines.old.end Ended)) }
    ensures end { lines.new.end ≡ lines.old.end }
{
    match lines.first() {
        Some(line) => {
            lines.skip();
            Ok(line)
        }
        None => Err(ProofText::Line(lines.end(), ProofKind::Ended)),
    }
}

/// Reads the number of a hypothesis in a component.
fn number<F: EvidenceNumber>(
    lines: &mut Ahead,
    case: &Case,
    quantity: Quantity,
    c: usize,
    hypothesis: usize,
) -> Result<F, ProofText>
    requires c { c < 8 }
    requires known { hypothesis < length (content case.now).names }
    ensures said { Reads (OneLine (number_line (case_frame F.numbers (content case.now)) quantity c hypothesis))
        F.parts lines.old result lines.new }
    ensures end { lines.new.end ≡ lines.old.end }
{
    let line = next_line(lines)?;
    match rules::number(&line, quantity, c, case.name(hypothesis)) {
        Ok(number) => Ok(number),
        Err(kind) => Err(ProofText::Line(line.number, kind)),
    }
}

/// Reads the numbers of a component, one for each of these steps.
fn numbers<F: EvidenceNumber>(
    alloc: Global,
    lines: &mut Ahead,
    case: &Case,
    quantity: Quantity,
    c: usize,
    steps: &[ProofStep<F>],
) -> Result<List<F>, ProofText>
    requires c { c < 8 }
    requires known { All (λ j. j < length (content case.now).names) (hypotheses_of steps.now) }
    ensures said { Reads (component_numbers (case_frame F.numbers (content case.now)) quantity (hypotheses_of steps.now) c) (map F.parts)
        lines.old result lines.new }
    ensures end { lines.new.end ≡ lines.old.end }
{
    let mut numbers = List::new(alloc);
    for e in 0..steps.len() {
        numbers.push(number(lines, case, quantity, c, steps[e].hypothesis)?)?;
    }
    Ok(numbers)
}

/// Reads the numbers of all components, in each one for each of these steps.
fn lists<F: EvidenceNumber>(
    alloc: Global,
    lines: &mut Ahead,
    case: &Case,
    quantity: Quantity,
    steps: &[ProofStep<F>],
) -> Result<List<List<F>>, ProofText>
    requires known { All (λ j. j < length (content case.now).names) (hypotheses_of steps.now) }
    ensures said { Reads (numbers (case_frame F.numbers (content case.now)) quantity (hypotheses_of steps.now)) (map (map F.parts))
        lines.old result lines.new }
    ensures end { lines.new.end ≡ lines.old.end }
{
    let mut lists = List::new(alloc);
    for c in 0..case.components() {
        lists.push(numbers(alloc, lines, case, quantity, c, steps)?)?;
    }
    Ok(lists)
}

/// Takes the line of a step, if the next line is one, and returns its hypothesis.
fn next_step(lines: &mut Ahead, case: &Case) -> Result<Option<usize>, ProofText>
    ensures said { (T : Frame) → ((name : Seq ℕ) → T.position name ≡ position_of name (content case.now).names)
        → Reads (maybe (step_line T)) (λ j. j) lines.old result lines.new }
    ensures known { IfOk result (λ found. IfSome found (λ j. j < length (content case.now).names)) }
    ensures taken { IfOk result (λ found. IfSome found (λ _. length lines.new.rows < length lines.old.rows)) }
    ensures end { lines.new.end ≡ lines.old.end }
{
    let Some(line) = lines.first() else {
        return Ok(None);
    };
    match rules::step(&line, case) {
        Ok(Some(hypothesis)) => {
            lines.skip();
            Ok(Some(hypothesis))
        }
        Ok(None) => Ok(None),
        Err(kind) => Err(ProofText::Line(line.number, kind)),
    }
}

/// Reads the flows that follow the line of a step, one through the hypothesis of each earlier step in each component.
fn step<F: EvidenceNumber>(
    alloc: Global,
    lines: &mut Ahead,
    case: &Case,
    earlier: &[ProofStep<F>],
    hypothesis: usize,
) -> Result<ProofStep<F>, ProofText>
    requires known { All (λ j. j < length (content case.now).names) (hypotheses_of earlier.now) }
    ensures said { Reads (step (case_frame F.numbers (content case.now)) (map (step_parts F.parts) earlier.now) hypothesis)
        (step_parts F.parts) lines.old result lines.new }
    ensures hypothesis { IfOk result (λ s. s.hypothesis ≡ hypothesis) }
    ensures left { IfOk result (λ _. length lines.new.rows ≤ length lines.old.rows) }
    ensures end { lines.new.end ≡ lines.old.end }
{
    let flows = lists(alloc, lines, case, Quantity::Flow, earlier)?;
    Ok(ProofStep { hypothesis, flows })
}

/// Reads all steps.
pub fn steps<F: EvidenceNumber>(
    alloc: Global,
    lines: &mut Ahead,
    case: &Case,
) -> Result<List<ProofStep<F>>, ProofText>
    ensures said { Reads (Many (step_line (case_frame F.numbers (content case.now))) (step (case_frame F.numbers (content case.now))) [])
        (map (step_parts F.parts)) lines.old result lines.new }
    ensures known { IfOk result (λ steps. All (λ j. j < length (content case.now).names) (hypotheses_of steps)) }
    ensures end { lines.new.end ≡ lines.old.end }
{
    let mut steps = List::new(alloc);
    while let Some(hypothesis) = next_step(lines, case)? {
        steps.push(step(alloc, lines, case, steps.as_slice(), hypothesis)?)?;
    }
    Ok(steps)
}

/// Reads the line of the keep of a hypothesis.
fn keep_line<F: EvidenceNumber>(
    lines: &mut Ahead,
    case: &Case,
    hypothesis: usize,
) -> Result<(), ProofText>
    requires known { hypothesis < length (content case.now).names }
    ensures said { Reads (OneLine (keep_line (case_frame F.numbers (content case.now)) hypothesis))
        (λ _. hypothesis) lines.old result lines.new }
    ensures end { lines.new.end ≡ lines.old.end }
{
    let line = next_line(lines)?;
    match rules::keep(&line, case.name(hypothesis)) {
        Ok(()) => Ok(()),
        Err(kind) => Err(ProofText::Line(line.number, kind)),
    }
}

/// Reads the keep of a hypothesis: its line, and its exits.
fn keep<F: EvidenceNumber>(
    alloc: Global,
    lines: &mut Ahead,
    case: &Case,
    steps: &[ProofStep<F>],
    hypothesis: usize,
) -> Result<KeepProof<F>, ProofText>
    requires hypothesis { hypothesis < length (content case.now).names }
    requires known { All (λ j. j < length (content case.now).names) (hypotheses_of steps.now) }
    ensures said { Reads (keep (case_frame F.numbers (content case.now)) (hypotheses_of steps.now) hypothesis) (keep_parts F.parts)
        lines.old result lines.new }
    ensures end { lines.new.end ≡ lines.old.end }
{
    keep_line::<F>(lines, case, hypothesis)?;
    let exits = lists(alloc, lines, case, Quantity::Exit, steps)?;
    Ok(KeepProof { hypothesis, exits })
}

/// Reads the keeps of all hypotheses that no step names, ascending.
fn keeps<F: EvidenceNumber>(
    alloc: Global,
    lines: &mut Ahead,
    case: &Case,
    steps: &[ProofStep<F>],
) -> Result<List<KeepProof<F>>, ProofText>
    requires known { All (λ j. j < length (content case.now).names) (hypotheses_of steps.now) }
    ensures said { Reads (each_of (keep (case_frame F.numbers (content case.now)) (hypotheses_of steps.now))
        (others (length (content case.now).names) (hypotheses_of steps.now))) (map (keep_parts F.parts)) lines.old result lines.new }
    ensures end { lines.new.end ≡ lines.old.end }
{
    let mut keeps = List::new(alloc);
    for k in 0..case.size() {
        if !is_listed(steps, k) {
            keeps.push(keep(alloc, lines, case, steps, k)?)?;
        }
    }
    Ok(keeps)
}

/// Reads the keeps of a version: in version 2 those of all hypotheses that no step names, and else none.
pub fn kept<F: EvidenceNumber>(
    alloc: Global,
    lines: &mut Ahead,
    case: &Case,
    version: u8,
    steps: &[ProofStep<F>],
) -> Result<List<KeepProof<F>>, ProofText>
    requires known { All (λ j. j < length (content case.now).names) (hypotheses_of steps.now) }
    ensures said { Reads (each_of (keep (case_frame F.numbers (content case.now)) (hypotheses_of steps.now))
        (kept (case_frame F.numbers (content case.now)) version (hypotheses_of steps.now)))
        (map (keep_parts F.parts)) lines.old result lines.new }
    ensures end { lines.new.end ≡ lines.old.end }
{
    if version == 2 {
        keeps(alloc, lines, case, steps)
    } else {
        Ok(List::new(alloc))
    }
}

/// Reads the line of the version.
pub fn version(lines: &mut Ahead) -> Result<u8, ProofText>
    ensures said { Reads (OneLine version_line) (λ v. v) lines.old result lines.new }
    ensures end { lines.new.end ≡ lines.old.end }
{
    let line = next_line(lines)?;
    match rules::version(&line) {
        Ok(version) => Ok(version),
        Err(kind) => Err(ProofText::Line(line.number, kind)),
    }
}

/// Reads the line of the end.
pub fn end(lines: &mut Ahead) -> Result<(), ProofText>
    ensures said { Reads (OneLine end_line) (λ done. done) lines.old result lines.new }
    ensures end { lines.new.end ≡ lines.old.end }
{
    let line = next_line(lines)?;
    match rules::end(&line) {
        Ok(()) => Ok(()),
        Err(kind) => Err(ProofText::Line(line.number, kind)),
    }
}

/// Refuses a text of which a line is left.
pub fn nothing_after(lines: &Ahead) -> Result<(), ProofText>
    ensures { result ≡ told_as proof_fault (all_read kinds tt (words_seen lines.now.rows)) }
{
    match lines.first() {
        Some(line) => Err(ProofText::Line(line.number, ProofKind::Unexpected)),
        None => Ok(()),
    }
}
