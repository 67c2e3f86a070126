//! What a study answers.
ghost use Rattle.std.specs.Prelude.{◌≡◌, ◌≤◌, ◌+◌, ◌++◌, IfOk, OnOk, length, codes};
ghost use Rattle.std.specs.List.{AllByRecursion};
ghost use Rattle.answers.specs.Devices.{keeping};
ghost use Rattle.answers.specs.Lines.{line, done, refused};
ghost use Rattle.answers.specs.Ways.{EndsIn};
ghost use Rattle.case_model.specs.CaseView.{content};
ghost use Rattle.refusals.specs.WideRefusal.{wide_refusal};
ghost use Rattle.refusals.specs.declared.wide.When.TheVariants.{Look as AfterLook};
ghost use Rattle.staged_levels.specs.StudyAnswers.{IsStaged};
ghost use Rattle.study_cli.specs.Asking.{looks_asked};
ghost use Rattle.study_cli.specs.CommandLines.{IsBelow};
ghost use Rattle.study_cli.specs.KeeperWays.{opening_ways, answer_ways};

use crate::command::StudyCommand;
use crate::replying::{CommandStop, replies};
use answers::{Answer, Refusal, Status, Stop};
use case_model::Case;
use field_core::{List, NoMemory, WideAt};
use graph_io::Keeper;
use refusals::{When, record_refusal, wide_refusal};
use report::opened_text;
use std::alloc::Global;
use study_register::{Register, RegisterFault};

/// Returns a refusal as an answer.
fn refusal_answer(refusal: Refusal) -> Answer
    ensures { result ≡ refused refusal }
{
    Answer {
        status: Status::Refused(refusal.cause),
        text: refusal.line,
    }
}

/// Opens the study of a case, and takes all looks that a keeper holds.
fn open_register<K: Keeper>(alloc: Global, case: &Case, keeper: &mut K) -> Result<Register, Stop>
    requires { IsStaged (content case.now).inputs }
    ensures ends { EndsIn (opening_ways (content case.now) (keeping K.Keeper keeper.old) (keeping K.Keeper keeper.new)) result }
    ensures kept { K.looks keeper.new ≡ K.looks keeper.old }
    ensures later { K.faults keeper.old ≤ K.faults keeper.new }
    ensures turns { K.calls keeper.new ≤ K.calls keeper.old + 1 }
    ensures loaded { OnOk result (K.calls keeper.new ≡ K.calls keeper.old + 1) }
{
    match Register::open(alloc, case, keeper) {
        Ok(register) => Ok(register),
        Err(RegisterFault::BadLook(n, _)) => Err(Stop::Refused(record_refusal(alloc, n)?)),
        Err(RegisterFault::Wide(n, wide)) => Err(Stop::Refused(wide_refusal(
            alloc,
            case.names(),
            When::Look(n),
            &wide,
        )?)),
        Err(RegisterFault::Fault) => Err(Stop::KeeperFault),
        Err(RegisterFault::NoMemory) => Err(Stop::NoMemory),
    }
}

/// Returns the answer if a command stops part way.
fn stopped_answer(
    alloc: Global,
    case: &Case,
    place: usize,
    wide: &WideAt,
) -> Result<Answer, NoMemory>
    ensures { IfOk result (λ answer. answer ≡ refused (wide_refusal (content case.now).names (AfterLook place) wide.now)) }
{
    let refusal = wide_refusal(alloc, case.names(), When::Look(place), wide)?;
    Ok(refusal_answer(refusal))
}

/// Returns a text of replies, with its last line, as an answer.
fn done_answer(text: List<u8>) -> Result<Answer, NoMemory>
    ensures { IfOk result (λ answer. answer ≡ done (text ++ line (codes "end"))) }
{
    let mut whole = text;
    whole.append(b"end\n")?;
    Ok(Answer::done(whole))
}

/// Answers commands in a study of a case. The commands ask for looks of hypotheses of the case.
///
/// First all looks that the keeper holds are taken in their order, and then the commands are replied to. A look that is taken
/// by a command is put after those of the keeper. If the settling after a look is undefined, the answer names the operation,
/// and the looks before it stay kept.
///
/// A refusal comes exactly if the opening of the case is undefined or a kept look can't be taken, and then no look is added.
/// The keeper is asked only after a defined opening of the case. It is called once to load its looks, and then once for each
/// look that is taken, but not for one that is refused. The first call that fails is the last. The calls are at most one more
/// than the looks that the commands ask for.
pub(crate) fn study_answer<K: Keeper>(
    alloc: Global,
    case: &Case,
    keeper: &mut K,
    commands: &[StudyCommand],
) -> Result<Answer, Stop>
    requires staged { IsStaged (content case.now).inputs }
    requires below { AllByRecursion (IsBelow (length (content case.now).names)) commands.now }
    ensures ends { EndsIn (answer_ways (content case.now) commands.now
        (keeping K.Keeper keeper.old) (keeping K.Keeper keeper.new)) result }
    ensures later { K.faults keeper.old ≤ K.faults keeper.new }
    ensures turns { K.calls keeper.new ≤ K.calls keeper.old + (1 + looks_asked commands.now) }
{
    let mut register = open_register(alloc, case, keeper)?;
    let mut text = opened_text(alloc, case, register.count())?;
    match replies(alloc, case, &mut register, keeper, commands, &mut text) {
        Ok(()) => Ok(done_answer(text)?),
        Err(CommandStop::Wide(place, wide)) => Ok(stopped_answer(alloc, case, place, &wide)?),
        Err(CommandStop::Fault) => Err(Stop::KeeperFault),
        Err(CommandStop::NoMemory) => Err(Stop::NoMemory),
    }
}
