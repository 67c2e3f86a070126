//! The top call of studies.
ghost use Rattle.std.specs.Prelude.{◌≡◌, ◌<◌, IfOk, OnOk, length};
ghost use Rattle.std.specs.List.{AllByRecursion};
ghost use Rattle.std.specs.Io.KnownBytes.{IsAtEnd};
ghost use Rattle.answers.specs.Devices.{reading, writing, keeping};
ghost use Rattle.answers.specs.Runs.{Runs, Uses, IsConcluded};
ghost use Rattle.answers.specs.Ways.{EndsIn, IfConcluded, over_values};
ghost use Rattle.case_model.specs.CaseView.{content};
ghost use Rattle.command_words.specs.Asked.{study_asked};
ghost use Rattle.command_words.specs.WordBytes.{words_in};
ghost use Rattle.graph_cli.specs.Accepted.{IsTakenWithin};
ghost use Rattle.study_cli.specs.CommandLines.{IsBelow};
ghost use Rattle.study_cli.specs.StudyOutcome.{
  study_needs,
  commands_in,
  study_ways,
  ways_of,
  HasStudyCase,
  HasNoStudyCase,
  HasStudyCommands,
  IsCalledWithin,
  ReadsCase,
  ReadsCommands,
  AsksKeeper,
  RefusesCase,
  CallsWithin,
  TakesFrom,
};

use crate::answer::study_answer;
use crate::command::StudyCommand;
use crate::fault::CommandsFault;
use crate::reading::read_commands;
use answers::{Answer, Stop, conclude, take_whole};
use case_model::Case;
use command_words::{StudyCall, read_study};
use field_core::List;
use graph_cli::{InputKind, Needs, accepted_case};
use graph_io::{Keeper, Sink, Source};
use refusals::{commands_refusal, usage};
use std::alloc::Global;

/// Returns what a study needs of its case.
#[tactic(auto, unfolding(crate::specs::StudyOutcome::study_needs))]
fn study_needs() -> Needs
    ensures { result ≡ study_needs }
{
    Needs::new(InputKind::Awaited, 64)
}

/// Returns the commands that a text denotes for a case.
fn commands_in(alloc: Global, case: &Case, bytes: &[u8]) -> Result<List<StudyCommand>, Stop>
    ensures ends { EndsIn (over_values (commands_in (content case.now) bytes.now)) result }
    ensures below { IfOk result (AllByRecursion (IsBelow (length (content case.now).names))) }
{
    match read_commands(alloc, case, bytes) {
        Ok(commands) => Ok(commands),
        Err(CommandsFault::Line(n, kind)) => Err(Stop::Refused(commands_refusal(alloc, n, kind)?)),
        Err(CommandsFault::NoMemory) => Err(Stop::NoMemory),
    }
}

/// Returns what a study answers to a case, commands and kept looks. It takes from the commands only after a case that it can
/// take, and asks the keeper only after all commands are accepted.
#[tactic(auto, using(graph_cli::proofs::Taken::untouched, answers::proofs::Stopping::concluded), unfolding(crate::specs::StudyOutcome::study_call))]
fn study_call<S: Source, T: Source, K: Keeper>(
    alloc: Global,
    call: &StudyCall<'_>,
    case: &mut S,
    commands: &mut T,
    keeper: &mut K,
) -> Result<Answer, Stop>
    ensures ends { EndsIn (study_ways (study_asked call.now) (reading S.Source case.old) (reading S.Source case.new)
        (reading T.Source commands.old) (reading T.Source commands.new)
        (keeping K.Keeper keeper.old) (keeping K.Keeper keeper.new)) result }
    ensures ended { OnOk result (IsAtEnd (S.left case.new) × IsAtEnd (T.left commands.new)) }
    ensures commands_kept { ¬ HasStudyCase (study_asked call.now) (S.left case.old) → commands.new ≡ commands.old }
    ensures keeper_kept { ¬ HasStudyCommands (study_asked call.now) (S.left case.old) (T.left commands.old) → keeper.new ≡ keeper.old }
    ensures commands_asked { ¬ HasNoStudyCase (study_asked call.now) (S.left case.old) →
        IfConcluded (T.calls commands.old < T.calls commands.new) result }
    ensures case_taken { IsTakenWithin S.left S.calls case.old case.new }
    ensures commands_taken { IsTakenWithin T.left T.calls commands.old commands.new }
    ensures turns { IsCalledWithin (study_asked call.now) (S.left case.old) (T.left commands.old)
        (K.calls keeper.old) (K.calls keeper.new) }
{
    let accepted = accepted_case(alloc, &call.format, study_needs(), case)?;
    let bytes = take_whole(alloc, b"commands ", commands)?;
    let list = commands_in(alloc, &accepted, bytes.as_slice())?;
    study_answer(alloc, &accepted, keeper, list.as_slice())
}

/// Returns the answer that these words, this case, these commands and the kept looks require.
#[tactic(auto, using(graph_cli::proofs::Taken::untouched, crate::proofs::AskedStudies::unasked))]
fn answer<S: Source, T: Source, K: Keeper>(
    alloc: Global,
    words: &[String],
    case: &mut S,
    commands: &mut T,
    keeper: &mut K,
) -> Result<Answer, Stop>
    ensures ends { EndsIn (ways_of (words_in words.now) (reading S.Source case.old) (reading S.Source case.new)
        (reading T.Source commands.old) (reading T.Source commands.new)
        (keeping K.Keeper keeper.old) (keeping K.Keeper keeper.new)) result }
    ensures case { TakesFrom S.left (ReadsCase (words_in words.now)) case.old case.new result }
    ensures commands { TakesFrom T.left (ReadsCommands (words_in words.now) (S.left case.old)) commands.old commands.new result }
    ensures keeper_kept { ¬ AsksKeeper (words_in words.now) (S.left case.old) (T.left commands.old) → keeper.new ≡ keeper.old }
    ensures commands_asked { ReadsCommands (words_in words.now) (S.left case.old) →
        ¬ RefusesCase (words_in words.now) (S.left case.old) → IfConcluded (T.calls commands.old < T.calls commands.new) result }
    ensures case_taken { IsTakenWithin S.left S.calls case.old case.new }
    ensures commands_taken { IsTakenWithin T.left T.calls commands.old commands.new }
    ensures turns { CallsWithin (words_in words.now) (S.left case.old) (T.left commands.old)
        (K.calls keeper.old) (K.calls keeper.new) }
{
    match read_study(words) {
        Err(n) => Err(Stop::Refused(usage(alloc, n)?)),
        Ok(call) => study_call(alloc, &call, case, commands, keeper),
    }
}

/// Makes a call of the program whose first word is `study`, and does all that the call does.
///
/// - `words` are the words after the program's name, `case` is standard input, `commands` is the file that `file_word` names, and
///   `keeper` keeps the looks.
/// - `out` gets the text of the answer, or one line that names the reason why there is none.
/// - A source that isn't read stays as it was. `commands` is read only after a case that a study can take, and then before
///   anything is answered. `keeper` is asked only after all commands are accepted.
/// - An input may have at most 4194304 bytes. If a source isn't read to its end, at most one byte more than that is taken from it.
/// - First the kept looks are taken in their order, and then each command is replied to. A look that is taken is kept, and one
///   that is refused changes nothing. The calls of `keeper` are at most one more than the looks that the commands ask for.
///
/// Statuses:
/// - 0: done
/// - 2: the words aren't accepted
/// - 3: the case, the commands or a kept look are malformed, or the case isn't one of stages without arrivals
/// - 4: an input is past a limit
/// - 5: a number of the case, of its opening or of the settling after a look is too wide
/// - 6: a source that is read had a fault
/// - 7: `out` had a fault
/// - 8: out of memory
/// - 9: the keeper had a fault, after a case whose opening is defined
pub fn run_study<S: Source, T: Source, K: Keeper, W: Sink>(
    alloc: Global,
    words: &[String],
    case: &mut S,
    commands: &mut T,
    keeper: &mut K,
    out: &mut W,
) -> u8
    ensures runs { Runs (ways_of (words_in words.now) (reading S.Source case.old) (reading S.Source case.new)
        (reading T.Source commands.old) (reading T.Source commands.new) (keeping K.Keeper keeper.old) (keeping K.Keeper keeper.new))
        (writing W.Sink out.old) (writing W.Sink out.new) result }
    ensures case { Uses S.left (ReadsCase (words_in words.now)) case.old case.new result }
    ensures commands { Uses T.left (ReadsCommands (words_in words.now) (S.left case.old)) commands.old commands.new result }
    ensures untouched { ¬ AsksKeeper (words_in words.now) (S.left case.old) (T.left commands.old) → keeper.new ≡ keeper.old }
    ensures commands_asked { ReadsCommands (words_in words.now) (S.left case.old) →
        ¬ RefusesCase (words_in words.now) (S.left case.old) → IsConcluded result → T.calls commands.old < T.calls commands.new }
    ensures case_taken { IsTakenWithin S.left S.calls case.old case.new }
    ensures commands_taken { IsTakenWithin T.left T.calls commands.old commands.new }
    ensures turns { CallsWithin (words_in words.now) (S.left case.old) (T.left commands.old)
        (K.calls keeper.old) (K.calls keeper.new) }
{
    let outcome = answer(alloc, words, case, commands, keeper);
    conclude(out, &outcome)
}
