//! Lines of the faults of a case.
ghost use Rattle.std.specs.Prelude.{◌≡◌, ◌≢◌, ◌++◌, Some, IfOk, codes};
ghost use Rattle.std.specs.Fmt.{decimal};
ghost use Rattle.case_model.specs.declared.fault.CaseFault.TheVariants.{NoMemory as OutOfMemory};
ghost use Rattle.refusals.specs.LinePieces.{past_limit, malformed_at};
ghost use Rattle.refusals.specs.CaseRefusal.{part_words, case_kind, case_refusal};

use crate::line::{Counted, Named, Names, refusal};
use crate::wide::{When, wide_refusal};
use answers::{Cause, Refusal};
use case_model::{CaseFault, PartPlace};
use field_core::{NoMemory, Text};
use std::alloc::Global;
use std::fmt;

impl fmt::Display for Named<'_, PartPlace> {
    ghost output = { λ named. Some (part_words named.names.0.now named.it) };

    #[tactic(auto, unfolding(crate::specs::CaseRefusal::part_words))]
    fn fmt<W: fmt::Write>(&self, f: &mut fmt::Formatter<W>) -> fmt::Result {
        let names = self.names;
        match self.it {
            PartPlace::Alpha => f.write_str("alpha"),
            PartPlace::Share(c) => write!(f, "share component {}", Counted(c)),
            PartPlace::Weight(c, i) => {
                write!(f, "weight of {} component {}", names.of(i), Counted(c))
            }
            PartPlace::Edge(c, i, j) => {
                write!(f, "edge {} {}", names.of(i), names.of(j))?;
                write!(f, " component {}", Counted(c))
            }
            PartPlace::P(i) => write!(f, "p of {}", names.of(i)),
            PartPlace::Spend(i, t) => write!(f, "spend of {} stage {}", names.of(i), Counted(t)),
            PartPlace::Step(i, n) => write!(f, "step {} of {}", Counted(n), names.of(i)),
            PartPlace::Arrival(n) => write!(f, "arrival {}", Counted(n)),
        }
    }
}

/// Prints what is wrong with a case that is malformed, and nothing for any other fault.
impl fmt::Display for Named<'_, CaseFault> {
    ghost output = { λ named. Some (case_kind named.names.0.now named.it) };

    #[tactic(auto, unfolding(crate::specs::CaseRefusal::case_kind, crate::specs::CaseRefusal::part_words))]
    fn fmt<W: fmt::Write>(&self, f: &mut fmt::Formatter<W>) -> fmt::Result {
        let names = self.names;
        match self.it {
            CaseFault::NoHypothesis => f.write_str("no hypothesis"),
            CaseFault::NameForm(i) => write!(f, "name {}", Counted(i)),
            CaseFault::DuplicateName(i) => write!(f, "duplicate name {}", Counted(i)),
            CaseFault::NoComponent => f.write_str("no component"),
            CaseFault::AlphaRange => names.of(PartPlace::Alpha).fmt(f),
            CaseFault::ShareRange(c) => names.of(PartPlace::Share(c)).fmt(f),
            CaseFault::ShareSum => f.write_str("share sum"),
            CaseFault::WeightCount(c) => write!(f, "weight count component {}", Counted(c)),
            CaseFault::WeightRange(c, i) => names.of(PartPlace::Weight(c, i)).fmt(f),
            CaseFault::WeightSum(c) => write!(f, "weight sum component {}", Counted(c)),
            CaseFault::SelfEdge(c, i) => {
                write!(f, "self edge of {} component {}", names.of(i), Counted(c))
            }
            CaseFault::RepeatedEdge(c, i, j) => {
                write!(f, "repeated {}", names.of(PartPlace::Edge(c, i, j)))
            }
            CaseFault::EdgeRange(c, i, j) => names.of(PartPlace::Edge(c, i, j)).fmt(f),
            CaseFault::RowSum(c, i) => {
                write!(f, "row sum of {} component {}", names.of(i), Counted(c))
            }
            CaseFault::Mixed => f.write_str("mixed"),
            CaseFault::PCount(n) => write!(f, "p count {n}"),
            CaseFault::PMissing(i) => write!(f, "p missing {}", names.of(i)),
            CaseFault::PRange(i) => names.of(PartPlace::P(i)).fmt(f),
            CaseFault::NoStage => f.write_str("no stage"),
            CaseFault::SpendCount(i) => write!(f, "spend count {}", Counted(i)),
            CaseFault::StepOrder(i, n) => names.of(PartPlace::Step(i, n)).fmt(f),
            CaseFault::SpendRange(i, t) => names.of(PartPlace::Spend(i, t)).fmt(f),
            CaseFault::SpendSum(i) => write!(f, "spend sum of {}", names.of(i)),
            CaseFault::ArrivalStage(n) => write!(f, "arrival {} stage", Counted(n)),
            CaseFault::ArrivalRepeated(n) => write!(f, "arrival {} repeated", Counted(n)),
            CaseFault::ArrivalRange(n) => write!(f, "arrival {} p", Counted(n)),
            CaseFault::TooMany(_)
            | CaseFault::TooManyComponents(_)
            | CaseFault::TooManyStages(_)
            | CaseFault::TooManySteps(_, _)
            | CaseFault::PartTooLong(_)
            | CaseFault::Wide(_)
            | CaseFault::NoMemory => Ok(()),
        }
    }
}

/// Returns the refusal of a case that is malformed.
#[tactic(auto, unfolding(crate::specs::LinePieces::malformed_at))]
fn malformed_case(alloc: Global, names: &[Text], fault: &CaseFault) -> Result<Refusal, NoMemory>
    ensures { IfOk result (λ refusal. refusal ≡ malformed_at (codes "case") (case_kind names.now fault.now)) }
{
    let kind = Names(names).of(*fault);
    Ok(refusal(
        Cause::Malformed,
        format!(in alloc; "malformed: case: {kind}\n")?,
    ))
}

/// Returns the refusal of a number that has a part past its limit.
#[tactic(auto, unfolding(crate::specs::LinePieces::past_limit))]
fn too_long(alloc: Global, names: &[Text], place: PartPlace) -> Result<Refusal, NoMemory>
    ensures { IfOk result (λ refusal. refusal ≡ past_limit (codes "case: part " ++ part_words names.now place)) }
{
    let part = Names(names).of(place);
    Ok(refusal(
        Cause::Limit,
        format!(in alloc; "limit: case: part {part}\n")?,
    ))
}

/// Returns the refusal of a quantity of which there is more than is allowed.
#[tactic(auto, unfolding(crate::specs::LinePieces::past_limit))]
fn too_many(alloc: Global, quantity: &str, n: u64) -> Result<Refusal, NoMemory>
    ensures { IfOk result (λ refusal. refusal ≡ past_limit (quantity.now ++ codes " " ++ decimal n)) }
{
    Ok(refusal(Cause::Limit, format!(in alloc; "limit: {quantity} {n}\n")?))
}

/// Returns the refusal for an error in a case with these names; `NoMemory` if the fault is that, or when out of memory.
#[tactic(auto, unfolding(crate::specs::CaseRefusal::case_refusal))]
pub fn case_refusal(alloc: Global, names: &[Text], fault: &CaseFault) -> Result<Refusal, NoMemory>
    ensures line { IfOk result (λ refusal. refusal ≡ case_refusal names.now fault.now) }
    ensures memory { IfOk result (λ refusal. fault.now ≢ OutOfMemory) }
{
    match *fault {
        CaseFault::TooMany(n) => too_many(alloc, "hypotheses", n),
        CaseFault::TooManyComponents(n) => too_many(alloc, "components", n),
        CaseFault::TooManyStages(n) => too_many(alloc, "stages", n),
        CaseFault::TooManySteps(_, n) => too_many(alloc, "spend steps", n),
        CaseFault::PartTooLong(place) => too_long(alloc, names, place),
        CaseFault::Wide(wide) => wide_refusal(alloc, names, When::Reading, &wide),
        CaseFault::NoMemory => Err(NoMemory),
        _ => malformed_case(alloc, names, fault),
    }
}
