//! Lines of evidence: why it doesn't hold, and why a text denotes none.
ghost use Rattle.std.specs.Prelude.{◌≡◌, Some, IfOk, length, map};
ghost use Rattle.std.specs.List.{slice_get};
ghost use Rattle.evidence_check.specs.EvidenceView.{hypotheses_of, steps_of, keeps_of};
ghost use Rattle.refusals.specs.ProofRefusal.{part_at, part_words, name_or_place, reason_words, no_line, proof_refusal};

use crate::line::{Counted, Named, Names};
use crate::text::malformed_at;
use answers::Refusal;
use evidence_check::{Evidence, KeepProof, ProofKind, ProofStep, Reason};
use field_core::{List, NoMemory, Text};
use std::alloc::Global;
use std::fmt;

/// A step of evidence by its number, from 1, or a keep by its hypothesis. Step 0 is the loading of the case.
#[derive(Clone, Copy, PartialEq, Eq, Debug)]
pub enum ProofPart {
    Step(usize),
    Keep(usize),
}

/// Returns the hypothesis of the step at a place.
fn listed_at<F>(steps: &[ProofStep<F>], r: usize) -> Option<usize>
    ensures { result ≡ slice_get (hypotheses_of steps.now) r }
{
    steps.get(r).map(|step| step.hypothesis)
}

/// Returns the hypothesis of the keep at a place.
fn kept_at<F>(keeps: &[KeepProof<F>], x: usize) -> Option<usize>
    ensures { result ≡ slice_get (map (λ x. x.hypothesis) keeps.now) x }
{
    keeps.get(x).map(|keep| keep.hypothesis)
}

/// Returns how many steps there are.
fn step_count(proof: &Evidence) -> usize
    ensures { result ≡ length (map (λ s. s.hypothesis) (steps_of proof.now)) }
{
    match proof {
        Evidence::Plain(proof) => proof.steps.len(),
        Evidence::Eps(proof) => proof.steps.len(),
    }
}

/// Returns the hypothesis of the step at a place of evidence.
fn step_at(proof: &Evidence, r: usize) -> Option<usize>
    ensures { result ≡ slice_get (map (λ s. s.hypothesis) (steps_of proof.now)) r }
{
    match proof {
        Evidence::Plain(proof) => listed_at(proof.steps.as_slice(), r),
        Evidence::Eps(proof) => listed_at(proof.steps.as_slice(), r),
    }
}

/// Returns the hypothesis of the keep at a place of evidence.
fn keep_at(proof: &Evidence, x: usize) -> Option<usize>
    ensures { result ≡ slice_get (map (λ x. x.hypothesis) (keeps_of proof.now)) x }
{
    match proof {
        Evidence::Plain(proof) => kept_at(proof.keeps.as_slice(), x),
        Evidence::Eps(proof) => kept_at(proof.keeps.as_slice(), x),
    }
}

/// Returns the step or the keep with this number, from 1, where the keeps are numbered after the steps. Past the last keep it is
/// the step with the number.
#[tactic(auto, unfolding(crate::specs::ProofRefusal::part_at))]
pub fn part_at(proof: &Evidence, n: usize) -> ProofPart
    ensures { result ≡ part_at (map (λ s. s.hypothesis) (steps_of proof.now)) (map (λ x. x.hypothesis) (keeps_of proof.now)) n }
{
    let steps = step_count(proof);
    if n <= steps {
        return ProofPart::Step(n);
    }
    match keep_at(proof, n - (steps + 1)) {
        Some(k) => ProofPart::Keep(k),
        None => ProofPart::Step(n),
    }
}

impl fmt::Display for Named<'_, ProofPart> {
    ghost output = { λ named. Some (part_words named.names.0.now named.it) };

    #[tactic(auto, unfolding(crate::specs::ProofRefusal::part_words))]
    fn fmt<W: fmt::Write>(&self, f: &mut fmt::Formatter<W>) -> fmt::Result {
        let names = self.names;
        match self.it {
            ProofPart::Step(n) => write!(f, "step {n}"),
            ProofPart::Keep(k) => write!(f, "keep {}", names.of(k)),
        }
    }
}

/// The step at a place of evidence, which prints as its hypothesis; past the last step it prints as its place, counted from 1.
#[derive(Clone, Copy)]
struct StepAt<'a> {
    names: Names<'a>,
    proof: &'a Evidence,
    place: usize,
}

impl fmt::Display for StepAt<'_> {
    ghost output = { λ step. Some (name_or_place step.names.0.now step.place
        (slice_get (map (λ s. s.hypothesis) (steps_of step.proof.now)) step.place)) };

    fn fmt<W: fmt::Write>(&self, f: &mut fmt::Formatter<W>) -> fmt::Result {
        match step_at(self.proof, self.place) {
            Some(j) => self.names.of(j).fmt(f),
            None => Counted(self.place).fmt(f),
        }
    }
}

/// Why evidence doesn't hold, with the names of the case.
#[derive(Clone, Copy)]
struct Broken<'a> {
    names: Names<'a>,
    proof: &'a Evidence,
    reason: Reason,
}

impl fmt::Display for Broken<'_> {
    ghost output = { λ it. Some (reason_words it.names.0.now (map (λ s. s.hypothesis) (steps_of it.proof.now)) it.reason) };

    #[tactic(auto, unfolding(crate::specs::ProofRefusal::reason_words))]
    fn fmt<W: fmt::Write>(&self, f: &mut fmt::Formatter<W>) -> fmt::Result {
        let step = |place| StepAt {
            names: self.names,
            proof: self.proof,
            place,
        };
        match self.reason {
            Reason::Repeated => f.write_str("repeated"),
            Reason::Negative(c, r) => {
                write!(f, "component {} flow of {} negative", Counted(c), step(r))
            }
            Reason::Exceeds(c, r) => {
                write!(f, "component {} flow of {} exceeds", Counted(c), step(r))
            }
            Reason::NoLevel => f.write_str("no level"),
            Reason::AboveLevel => f.write_str("above level"),
            Reason::NegativeExit(c, r) => {
                write!(f, "component {} exit of {} negative", Counted(c), step(r))
            }
            Reason::ShortExit(c, r) => {
                write!(f, "component {} exit of {} short", Counted(c), step(r))
            }
            Reason::AboveOne(c) => write!(f, "component {} level above one", Counted(c)),
            Reason::Legal => f.write_str("legal"),
        }
    }
}

/// Returns the line of evidence that doesn't hold: its first broken condition, at the step or keep with this number, from 1.
#[tactic(auto, unfolding(crate::specs::ProofRefusal::no_line))]
pub fn no_text(
    alloc: Global,
    names: &[Text],
    proof: &Evidence,
    n: usize,
    reason: Reason,
) -> Result<List<u8>, NoMemory>
    ensures { IfOk result (λ text. text ≡ no_line names.now (map (λ s. s.hypothesis) (steps_of proof.now)) (map
        (λ x. x.hypothesis) (keeps_of proof.now)) n reason) }
{
    let names = Names(names);
    let part = names.of(part_at(proof, n));
    let broken = Broken {
        names,
        proof,
        reason,
    };
    let line = format!(in alloc; "no: {part}: {broken}\n")?;
    Ok(List::of(line.into_bytes()))
}

/// Returns the refusal of a line of evidence, by its number from 1, that isn't allowed.
#[tactic(auto, unfolding(crate::specs::ProofRefusal::proof_refusal))]
pub fn proof_refusal(alloc: Global, line: usize, kind: ProofKind) -> Result<Refusal, NoMemory>
    ensures { IfOk result (λ refusal. refusal ≡ proof_refusal line kind) }
{
    let place = format!(in alloc; "proof line {line}")?;
    match kind {
        ProofKind::Unexpected => malformed_at(alloc, &place, "unexpected"),
        ProofKind::Ended => malformed_at(alloc, &place, "ended"),
        ProofKind::WordCount => malformed_at(alloc, &place, "words"),
        ProofKind::Version => malformed_at(alloc, &place, "version"),
        ProofKind::UnknownName => malformed_at(alloc, &place, "unknown name"),
        ProofKind::FlowPlace => malformed_at(alloc, &place, "flow"),
        ProofKind::ExitPlace => malformed_at(alloc, &place, "exit"),
        ProofKind::Number => malformed_at(alloc, &place, "number"),
    }
}
