//! The looks at a case: its arrivals come in their order, and after each the study is settled.
ghost use Rattle.std.specs.Prelude.{◌≡◌, ◌<◌, ◌≤◌, length, drop, IfOk, IfErr};
ghost use Rattle.case_model.specs.Content.{Content};
ghost use Rattle.case_model.specs.CaseView.{content};
ghost use Rattle.staged_levels.specs.Studies.{MayArrive};
ghost use Rattle.staged_levels.specs.StudyAnswers.{IsStaged};
ghost use Rattle.staged_levels.specs.StudyContents.{IsStudy, size_of};
ghost use Rattle.staged_levels.specs.StudyView.{study};
ghost use Rattle.staged_levels.specs.StudyCalls.{IsArrival};
ghost use Rattle.staged_levels.specs.Looks.{arrivals_of, IsLook, IsLookFault, AreLooks, IsLooksFault};

use crate::{Event, SettleFault, Settled, Study};
use case_model::{Arrival, Case, Inputs};
use entangled::OpenFault;
use field_core::{List, NoMemory, WideAt};
use std::alloc::Global;

/// Why there are no looks at a case.
#[derive(Clone, Copy, PartialEq, Eq, Debug)]
pub enum LooksFault {
    /// The first operation of the opening that is undefined.
    Opening(WideAt),
    /// The first operation of a settling that is undefined, and the number of the arrival before that settling, from 1.
    Arriving(usize, WideAt),
    /// Out of memory.
    NoMemory,
}

impl From<NoMemory> for LooksFault {
    ghost use Rattle.std.specs.Prelude.{◌≡◌};
    ghost use Rattle.staged_levels.specs.declared.case_looks.LooksFault.TheVariants.{NoMemory as OutOfMemory};

    ghost from_gives = { λ _ fault. fault ≡ OutOfMemory };

    fn from(_: NoMemory) -> LooksFault {
        LooksFault::NoMemory
    }
}

impl From<OpenFault> for LooksFault {
    ghost use Rattle.std.specs.Prelude.{◌≡◌};
    ghost use Rattle.staged_levels.specs.Looks.{at_opening};

    ghost from_gives = { λ opening fault. fault ≡ at_opening opening };

    fn from(fault: OpenFault) -> LooksFault {
        match fault {
            OpenFault::Wide(wide) => LooksFault::Opening(wide),
            OpenFault::NoMemory => LooksFault::NoMemory,
        }
    }
}

/// Returns the arrivals of a case.
fn arrivals_of(case: &Case) -> &[Arrival]
    requires { IsStaged (content case.now).inputs }
    ensures { result.now ≡ arrivals_of (content case.now).inputs }
{
    match case.inputs() {
        Inputs::Staged(stages) => stages.arrivals(),
        _ => unreachable!(),
    }
}

/// Appends a p-value, which may arrive, to those that have arrived.
fn arrive(current: &mut Study, arrival: &Arrival)
    requires below { arrival.now.hypothesis < size_of (study current.old) }
    requires may { (c : Content) → IsStudy c (study current.old) → MayArrive c (study current.old).looks.values arrival.now }
    ensures study { (c : Content) → IsStudy c (study current.old) → IsStudy c (study current.new) }
    ensures arrival { (c : Content) → IsStudy c (study current.old)
        → IsArrival c (study current.old).looks arrival.now (study current.new).looks }
    ensures size { size_of (study current.new) ≡ size_of (study current.old) }
{
    match current.step(Event::Arrive(arrival.hypothesis, arrival.stage, arrival.p)) {
        Ok(()) => (),
        Err(_) => unreachable!(),
    }
}

/// Returns the rejections after the first `n`.
pub fn settled_after(settled: &[Settled], n: usize) -> &[Settled]
    requires { n ≤ length settled.now }
    ensures { result.now ≡ drop n settled.now }
{
    &settled[n..]
}

/// Returns the rejections that the arrival with this number, which may come, brings; or the fault of the settling after it.
fn look(
    alloc: Global,
    current: &mut Study,
    arrival: &Arrival,
    n: usize,
) -> Result<List<Settled>, LooksFault>
    requires below { arrival.now.hypothesis < size_of (study current.old) }
    requires may { (c : Content) → IsStudy c (study current.old) → MayArrive c (study current.old).looks.values arrival.now }
    ensures study { (c : Content) → IsStudy c (study current.old) → IsStudy c (study current.new) }
    ensures look { IfOk result (λ added. (c : Content) → IsStudy c (study current.old)
        → IsLook c (study current.old).looks arrival.now added (study current.new).looks) }
    ensures fault { IfErr result (λ fault. (c : Content) → IsStudy c (study current.old)
        → IsLookFault c (study current.old).looks arrival.now n fault) }
    ensures size { size_of (study current.new) ≡ size_of (study current.old) }
{
    let before = current.settled().len();
    arrive(current, arrival);
    if let Err(SettleFault::Wide(wide)) = current.settle() {
        return Err(LooksFault::Arriving(n, wide));
    }
    let mut added = List::new(alloc);
    added.append(settled_after(current.settled(), before))?;
    Ok(added)
}

/// Returns the rejections that each arrival brings, of a case whose p-values are those of stages. The arrivals come in their
/// order. After each, the first hypothesis that is legal is rejected, until none is legal.
///
/// Unless out of memory, the call is refused with `LooksFault::Opening` exactly if the written opening is undefined. It is refused
/// with `LooksFault::Arriving` exactly if the opening is defined and some removal isn't, at the first such arrival.
pub fn looks(alloc: Global, case: &Case) -> Result<List<List<Settled>>, LooksFault>
    requires { IsStaged (content case.now).inputs }
    ensures looks { IfOk result (AreLooks (content case.now)) }
    ensures fault { IfErr result (IsLooksFault (content case.now)) }
{
    let mut study = Study::open(alloc, case)?;
    let arrivals = arrivals_of(case);
    let mut looks = List::new(alloc);
    for i in 0..arrivals.len() {
        looks.push(look(alloc, &mut study, &arrivals[i], i + 1)?)?;
    }
    Ok(looks)
}
