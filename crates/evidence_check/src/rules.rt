//! What the lines of evidence denote.
ghost use Rattle.std.specs.Prelude.{◌≡◌, ◌+◌, ◌<◌, ℕ, List as Seq, length, IfOk, IfSome};
ghost use Rattle.std.specs.Fmt.{decimal};
ghost use Rattle.std.specs.Str.{bytes_eq};
ghost use Rattle.field_core.specs.Kind.{ok_map};
ghost use Rattle.text_lines.specs.Words.{words_of};
ghost use Rattle.case_model.specs.CaseView.{content};
ghost use Rattle.case_model.specs.Names.{position_of};
ghost use Rattle.text_lines.specs.Kinds.{if_any, expected};
ghost use Rattle.evidence_check.specs.DocumentLines.{Frame, kinds, version_line, step_line, number_line, keep_line, end_line};
ghost use Rattle.evidence_check.specs.NumberReading.{number_in_text};

use crate::loading::EvidenceNumber;
use crate::quantity::{keyword, place_fault};
use crate::{ProofKind, Quantity};
use case_model::Case;
use text_lines::Line;

/// Returns the version that a line denotes.
pub fn version(line: &Line) -> Result<u8, ProofKind>
    ensures { result ≡ expected kinds (version_line (words_of line.now.text.now)) }
{
    let Some(words) = line.words_after(b"evidence") else {
        return Err(ProofKind::Unexpected);
    };
    let Some(word) = words.one() else {
        return Err(ProofKind::WordCount);
    };
    if word == b"1".as_slice() {
        Ok(1)
    } else if word == b"2".as_slice() {
        Ok(2)
    } else {
        Err(ProofKind::Version)
    }
}

/// Returns the hypothesis of a step, if the line is that of a step.
pub fn step(line: &Line, case: &Case) -> Result<Option<usize>, ProofKind>
    ensures said { (T : Frame) → ((name : Seq ℕ) → T.position name ≡ position_of name (content case.now).names)
        → result ≡ if_any (step_line T (words_of line.now.text.now)) }
    ensures known { IfOk result (λ found. IfSome found (λ j. j < length (content case.now).names)) }
{
    let Some(words) = line.words_after(b"step") else {
        return Ok(None);
    };
    let Some(name) = words.one() else {
        return Err(ProofKind::WordCount);
    };
    match case.position(name) {
        Some(hypothesis) => Ok(Some(hypothesis)),
        None => Err(ProofKind::UnknownName),
    }
}

/// Whether a word is the number of a component, counted from 1.
fn is_component(word: &[u8], c: usize) -> bool
    requires { c < 8 }
    ensures { result ≡ bytes_eq word.now (decimal (c + 1)) }
{
    word == [b'1' + c as u8].as_slice()
}

/// Returns the number of a line for this component and the hypothesis of this name.
pub fn number<F: EvidenceNumber>(
    line: &Line,
    quantity: Quantity,
    c: usize,
    name: &[u8],
) -> Result<F, ProofKind>
    requires { c < 8 }
    ensures said { (T : Frame) (h : ℕ) → T.name h ≡ name.now
        → ((text : Seq ℕ) → T.number text ≡ number_in_text F.numbers text)
        → ok_map F.parts result ≡ expected kinds (number_line T quantity c h (words_of line.now.text.now)) }
{
    let Some(words) = line.words_after(keyword(quantity)) else {
        return Err(ProofKind::Unexpected);
    };
    let Some((component, hypothesis, text)) = words.three() else {
        return Err(ProofKind::WordCount);
    };
    if !is_component(component, c) || hypothesis != name {
        return Err(place_fault(quantity));
    }
    match F::read(text) {
        Some(number) => Ok(number),
        None => Err(ProofKind::Number),
    }
}

/// Checks that a line is that of the keep of the hypothesis of this name.
pub fn keep(line: &Line, name: &[u8]) -> Result<(), ProofKind>
    ensures said { (T : Frame) (h : ℕ) → T.name h ≡ name.now
        → ok_map (λ _. h) result ≡ expected kinds (keep_line T h (words_of line.now.text.now)) }
{
    let Some(words) = line.words_after(b"keep") else {
        return Err(ProofKind::Unexpected);
    };
    let Some(word) = words.one() else {
        return Err(ProofKind::WordCount);
    };
    if word == name {
        Ok(())
    } else {
        Err(ProofKind::Unexpected)
    }
}

/// Checks that a line is that of the end.
pub fn end(line: &Line) -> Result<(), ProofKind>
    ensures { result ≡ expected kinds (end_line (words_of line.now.text.now)) }
{
    let Some(mut words) = line.words_after(b"end") else {
        return Err(ProofKind::Unexpected);
    };
    match words.next() {
        Some(_) => Err(ProofKind::WordCount),
        None => Ok(()),
    }
}
