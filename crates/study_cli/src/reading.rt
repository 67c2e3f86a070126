//! The reader of commands.
ghost use Rattle.std.specs.Prelude.{IfOk, length};
ghost use Rattle.std.specs.List.{AllByRecursion};
ghost use Rattle.field_core.specs.Answers.{IsUnless, told_as};
ghost use Rattle.case_model.specs.CaseView.{content};
ghost use Rattle.study_cli.specs.Commands.{commands_of};
ghost use Rattle.study_cli.specs.CommandLines.{IsBelow};
ghost use Rattle.study_cli.specs.CommandFaults.{on_line};
ghost use Rattle.study_cli.specs.declared.fault.CommandsFault.TheVariants.{NoMemory};

use crate::command::StudyCommand;
use crate::fault::CommandsFault;
use crate::rules;
use case_model::Case;
use field_core::List;
use std::alloc::Global;
use text_lines::Lines;

/// Reads a text of commands, line by line.
#[tactic(auto, unfolding(crate::specs::Commands::commands_of))]
fn read(alloc: Global, case: &Case, bytes: &[u8]) -> Result<List<StudyCommand>, CommandsFault>
    ensures { IsUnless NoMemory result (told_as on_line (commands_of (content case.now).names bytes.now)) }
{
    let mut commands = List::new(alloc);
    for line in Lines::new(bytes) {
        commands.push(rules::command(&line, case)?)?;
    }
    Ok(commands)
}

/// Returns the commands that a text denotes for a case, or the first line that denotes none, or `NoMemory`.
///
/// Words and lines are those of `text_lines`. A line is `look NAME K N`, the name of a hypothesis, the number of a stage in 1 to 9
/// digits and a numeral, or `show`. Within a line the first word is tested first, then the number of words, then what follows
/// from left to right.
pub(crate) fn read_commands(
    alloc: Global,
    case: &Case,
    bytes: &[u8],
) -> Result<List<StudyCommand>, CommandsFault>
    ensures read { IsUnless NoMemory result (told_as on_line (commands_of (content case.now).names bytes.now)) }
    ensures below { IfOk result (AllByRecursion (IsBelow (length (content case.now).names))) }
{
    read(alloc, case, bytes)
}
