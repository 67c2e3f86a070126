//! Lines of operations that have a part past its size.
ghost use Rattle.std.specs.Prelude.{◌≡◌, Some, IfOk};
ghost use Rattle.field_core.specs.NumberedSets.{members};
ghost use Rattle.refusals.specs.WideRefusal.{names_of_members, when_words, place_words, op_words, wide_refusal};

use crate::line::{Counted, Named, Names, Shown, refusal};
use crate::proof::ProofPart;
use answers::{Cause, Refusal};
use field_core::{NoMemory, Op, Place, Text, WideAt};
use std::alloc::Global;
use std::fmt;

/// When an operation is written:
/// - in a sum of the case (`Reading`);
/// - in a step of the decision, of the run of adjusted values, or of the flow run;
/// - in the run of a set of hypotheses, or in Simes' test of a set, whose bit `k` is 1 if the hypothesis `k` is a member;
/// - in the opening of a study, in the settling after an arrival, or in that after a look of the keeper;
/// - in the check of evidence.
///
/// Steps and looks count from 1, and 0 is the opening; arrivals count from 1.
#[derive(Clone, Copy, PartialEq, Eq, Debug)]
pub enum When {
    Reading,
    Step(usize),
    AdjustedStep(usize),
    EvidenceStep(usize),
    Set(u32),
    SimesSet(u32),
    Opening,
    Arrival(usize),
    Look(usize),
    Check(ProofPart),
}

/// Whether a hypothesis is a member of a set.
#[tactic(auto, unfolding(field_core::specs::NumberedSets::members))]
fn is_member(set: u32, k: usize) -> bool
    ensures { result ≡ members set k }
{
    k < 32 && (set >> k) & 1 == 1
}

/// The members of a set, with the names of the case. Each member prints as a space and its name.
#[derive(Clone, Copy)]
struct Members<'a> {
    names: Names<'a>,
    set: u32,
}

impl fmt::Display for Members<'_> {
    ghost output = { λ it. Some (names_of_members it.set 0 it.names.0.now) };

    fn fmt<W: fmt::Write>(&self, f: &mut fmt::Formatter<W>) -> fmt::Result {
        for (k, name) in self.names.0.iter().enumerate() {
            if is_member(self.set, k) {
                write!(f, " {}", Shown(name))?;
            }
        }
        Ok(())
    }
}

impl fmt::Display for Named<'_, When> {
    ghost output = { λ named. Some (when_words named.names.0.now named.it) };

    #[tactic(auto, unfolding(crate::specs::WideRefusal::when_words))]
    fn fmt<W: fmt::Write>(&self, f: &mut fmt::Formatter<W>) -> fmt::Result {
        let names = self.names;
        match self.it {
            When::Reading => f.write_str("reading"),
            When::Step(n) => write!(f, "step {n}"),
            When::AdjustedStep(n) => write!(f, "adjusted step {n}"),
            When::EvidenceStep(n) => write!(f, "evidence step {n}"),
            When::Set(set) => write!(f, "set{}", Members { names, set }),
            When::SimesSet(set) => write!(f, "simes set{}", Members { names, set }),
            When::Opening => f.write_str("opening"),
            When::Arrival(n) => write!(f, "arrival {n}"),
            When::Look(n) => write!(f, "look {n}"),
            When::Check(part) => write!(f, "check {}", names.of(part)),
        }
    }
}

impl fmt::Display for Named<'_, Place> {
    ghost output = { λ named. Some (place_words named.names.0.now named.it) };

    #[tactic(auto, unfolding(crate::specs::WideRefusal::place_words))]
    fn fmt<W: fmt::Write>(&self, f: &mut fmt::Formatter<W>) -> fmt::Result {
        let names = self.names;
        match self.it {
            Place::Weight(i) => write!(f, "weight of {}", names.of(i)),
            Place::Loss(i) => write!(f, "loss of {}", names.of(i)),
            Place::Edge(i, j) => write!(f, "edge {} {}", names.of(i), names.of(j)),
            Place::Share(i) => write!(f, "share of {}", names.of(i)),
            Place::Ratio(i) => write!(f, "ratio of {}", names.of(i)),
            Place::Flow(i) => write!(f, "flow of {}", names.of(i)),
            Place::Visit(i, j) => write!(f, "visit {} {}", names.of(i), names.of(j)),
            Place::Exit(i, j) => write!(f, "exit {} {}", names.of(i), names.of(j)),
            Place::Bound(i) => write!(f, "bound of {}", names.of(i)),
            Place::Level(i) => write!(f, "level of {}", names.of(i)),
            Place::WeightSum => f.write_str("weight sum"),
            Place::RowSum(i) => write!(f, "row sum of {}", names.of(i)),
            Place::ShareSum => f.write_str("share sum"),
            Place::SpendSum(i) => write!(f, "spend sum of {}", names.of(i)),
        }
    }
}

/// Returns the name of an operation.
#[tactic(auto, unfolding(crate::specs::WideRefusal::op_words))]
fn op_words(op: Op) -> &'static str
    ensures { result.now ≡ op_words op }
{
    match op {
        Op::Add => "add",
        Op::Sub => "sub",
        Op::Mul => "mul",
        Op::Div => "div",
    }
}

/// Returns the refusal of an operation that has a part past its size.
#[tactic(auto, unfolding(crate::specs::WideRefusal::wide_refusal))]
pub fn wide_refusal(
    alloc: Global,
    names: &[Text],
    when: When,
    wide: &WideAt,
) -> Result<Refusal, NoMemory>
    ensures { IfOk result (λ refusal. refusal ≡ wide_refusal names.now when wide.now) }
{
    let names = Names(names);
    let when = names.of(when);
    let component = Counted(wide.component);
    let place = names.of(wide.place);
    let op = op_words(wide.op);
    let line = format!(in alloc; "too wide: {when}: component {component} {place} {op}\n")?;
    Ok(refusal(Cause::TooWide, line))
}
