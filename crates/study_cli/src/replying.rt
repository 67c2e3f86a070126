//! Replies to commands, one by one.
ghost use Rattle.std.specs.Prelude.{◌≡◌, ◌≢◌, ◌≤◌, ◌<◌, ◌+◌, [], ◌∷◌, Err, OnOk, IfErr, false, length};
ghost use Rattle.std.specs.List.{AllByRecursion};
ghost use Rattle.answers.specs.Devices.{keeping};
ghost use Rattle.case_model.specs.CaseView.{content};
ghost use Rattle.staged_levels.specs.StudyContents.{IsStudy};
ghost use Rattle.study_cli.specs.CommandLines.{IsBelow};
ghost use Rattle.study_cli.specs.Asking.{asks, looks_asked};
ghost use Rattle.study_cli.specs.declared.command.StudyCommand.TheVariants.{Take as AskTake};
ghost use Rattle.study_register.specs.RegisterView.{study_in, looks_in, is_spent};
ghost use Rattle.study_cli.specs.AnswerView.{RepliesTo, RepliesToAll, StopsOver};

use crate::command::StudyCommand;
use case_model::Case;
use field_core::{List, NoMemory, WideAt};
use graph_io::{Keeper, Look};
use report::{put_refused, put_shown, put_taken};
use staged_levels::settled_after;
use std::alloc::Global;
use study_register::{AddFault, Register};

/// Why commands aren't replied to.
#[derive(Clone, Copy)]
pub(crate) enum CommandStop {
    /// The first operation that is undefined of the settling after the look of this place, counted from 1.
    Wide(usize, WideAt),
    /// The keeper failed, and counted it.
    Fault,
    /// Out of memory.
    NoMemory,
}

impl From<NoMemory> for CommandStop {
    ghost use Rattle.std.specs.Prelude.{◌≡◌};
    ghost use Rattle.study_cli.specs.declared.replying.CommandStop.TheVariants.{NoMemory};

    ghost from_gives = { λ _ stop. stop ≡ NoMemory };

    fn from(_: NoMemory) -> CommandStop {
        CommandStop::NoMemory
    }
}

/// Replies to the command of this number, which asks for a look.
fn take<K: Keeper>(
    alloc: Global,
    case: &Case,
    register: &mut Register,
    keeper: &mut K,
    number: usize,
    look: &Look,
    text: &mut List<u8>,
) -> Result<(), CommandStop>
    requires below { look.now.hypothesis < length (content case.now).names }
    requires study { IsStudy (content case.now) (study_in register.old) }
    requires fresh { is_spent register.old ≡ false }
    ensures study { IsStudy (content case.now) (study_in register.new) }
    ensures replied { OnOk result (RepliesTo (content case.now) number (looks_in register.old) (AskTake look.now)
        (keeping K.Keeper keeper.old) (keeping K.Keeper keeper.new) text.old text.new (looks_in register.new)) }
    ensures stopped { IfErr result (StopsOver (content case.now) number (looks_in register.old) (AskTake look.now ∷ [])
        (keeping K.Keeper keeper.old) (keeping K.Keeper keeper.new)) }
    ensures fresh { OnOk result (is_spent register.new ≡ false) }
    ensures later { K.faults keeper.old ≤ K.faults keeper.new }
    ensures counted { result ≢ Err CommandStop.Fault → K.faults keeper.new ≡ K.faults keeper.old }
    ensures turns { K.calls keeper.new ≤ K.calls keeper.old + 1 }
{
    let before = register.settled().len();
    let place = register.next_place();
    match register.add(alloc, keeper, look) {
        Ok(()) => {
            let rejections = settled_after(register.settled(), before);
            Ok(put_taken(alloc, text, case, look, rejections)?)
        }
        Err(AddFault::Refused(fault)) => Ok(put_refused(alloc, text, number, &fault)?),
        Err(AddFault::Wide(wide)) => Err(CommandStop::Wide(place, wide)),
        Err(AddFault::Fault) => Err(CommandStop::Fault),
        Err(AddFault::NoMemory) => Err(CommandStop::NoMemory),
    }
}

/// Replies to the command of this number.
fn reply<K: Keeper>(
    alloc: Global,
    case: &Case,
    register: &mut Register,
    keeper: &mut K,
    number: usize,
    command: &StudyCommand,
    text: &mut List<u8>,
) -> Result<(), CommandStop>
    requires below { IsBelow (length (content case.now).names) command.now }
    requires study { IsStudy (content case.now) (study_in register.old) }
    requires fresh { is_spent register.old ≡ false }
    ensures study { IsStudy (content case.now) (study_in register.new) }
    ensures replied { OnOk result (RepliesTo (content case.now) number (looks_in register.old) command.now
        (keeping K.Keeper keeper.old) (keeping K.Keeper keeper.new) text.old text.new (looks_in register.new)) }
    ensures stopped { IfErr result (StopsOver (content case.now) number (looks_in register.old) (command.now ∷ [])
        (keeping K.Keeper keeper.old) (keeping K.Keeper keeper.new)) }
    ensures fresh { OnOk result (is_spent register.new ≡ false) }
    ensures later { K.faults keeper.old ≤ K.faults keeper.new }
    ensures counted { result ≢ Err CommandStop.Fault → K.faults keeper.new ≡ K.faults keeper.old }
    ensures turns { K.calls keeper.new ≤ K.calls keeper.old + asks command.now }
{
    match command {
        StudyCommand::Take(look) => take(alloc, case, register, keeper, number, look, text),
        StudyCommand::Show => Ok(put_shown(
            alloc,
            text,
            case,
            register.count(),
            register.settled(),
        )?),
    }
}

/// Replies to commands one by one, with each reply put after the text.
pub(crate) fn replies<K: Keeper>(
    alloc: Global,
    case: &Case,
    register: &mut Register,
    keeper: &mut K,
    commands: &[StudyCommand],
    text: &mut List<u8>,
) -> Result<(), CommandStop>
    requires below { AllByRecursion (IsBelow (length (content case.now).names)) commands.now }
    requires study { IsStudy (content case.now) (study_in register.old) }
    requires fresh { is_spent register.old ≡ false }
    ensures replied { OnOk result (RepliesToAll (content case.now) (looks_in register.old) commands.now
        (keeping K.Keeper keeper.old) (keeping K.Keeper keeper.new) text.old text.new (looks_in register.new)) }
    ensures stopped { IfErr result (StopsOver (content case.now) 1 (looks_in register.old) commands.now
        (keeping K.Keeper keeper.old) (keeping K.Keeper keeper.new)) }
    ensures later { K.faults keeper.old ≤ K.faults keeper.new }
    ensures counted { result ≢ Err CommandStop.Fault → K.faults keeper.new ≡ K.faults keeper.old }
    ensures turns { K.calls keeper.new ≤ K.calls keeper.old + looks_asked commands.now }
{
    for i in 0..commands.len() {
        reply(alloc, case, register, keeper, i + 1, &commands[i], text)?;
    }
    Ok(())
}
