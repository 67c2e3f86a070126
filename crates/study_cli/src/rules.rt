//! Commands as the words of a line denote them.
ghost use Rattle.std.specs.Prelude.{◌≡◌};
ghost use Rattle.field_core.specs.Answers.{told_as};
ghost use Rattle.case_model.specs.CaseView.{content};
ghost use Rattle.edge_text.specs.WordReading.{numeral, whole};
ghost use Rattle.text_lines.specs.Words.{words_of};
ghost use Rattle.text_lines.specs.Kinds.{expected};
ghost use Rattle.edge_text.specs.Document.{kinds};
ghost use Rattle.study_cli.specs.Commands.{look, show, command};
ghost use Rattle.study_cli.specs.declared.fault.CommandsFault.TheVariants as faults;

use crate::command::StudyCommand;
use crate::fault::CommandsFault;
use case_model::Case;
use edge_text::LineKind;
use field_core::Ratio;
use fraction::Fraction;
use graph_io::Look;
use numerals::whole_number;
use text_lines::{Line, Words};

/// Returns the value of a numeral on a line.
fn numeral(line: &Line, word: &[u8]) -> Result<Ratio, CommandsFault>
    ensures { result ≡ told_as (faults.Line line.now.number) (numeral word.now) }
{
    match Fraction::parse(word) {
        Ok(value) => Ok(value.ratio()),
        Err(fault) => Err(CommandsFault::Line(line.number, LineKind::Number(fault))),
    }
}

/// Returns a whole number on a line.
#[tactic(auto, using(edge_text::proofs::WordAnswers::whole_found, edge_text::proofs::WordAnswers::whole_refused))]
fn whole(line: &Line, word: &[u8]) -> Result<u32, CommandsFault>
    ensures { result ≡ told_as (faults.Line line.now.number) (whole word.now) }
{
    match whole_number(word, 9) {
        Some(number) => Ok(number as u32),
        None => Err(CommandsFault::Line(line.number, LineKind::Whole)),
    }
}

/// Returns the look that the words after `look` denote, of a hypothesis of the case.
fn look(line: &Line, words: Words, case: &Case) -> Result<StudyCommand, CommandsFault>
    ensures { result ≡ told_as (faults.Line line.now.number) (look (content case.now).names (words_of words.entry)) }
{
    let Some((name, stage, p)) = words.three() else {
        return Err(CommandsFault::Line(line.number, LineKind::WordCount));
    };
    let Some(hypothesis) = case.position(name) else {
        return Err(CommandsFault::Line(line.number, LineKind::UnknownName));
    };
    let stage = whole(line, stage)?;
    let p = numeral(line, p)?;
    Ok(StudyCommand::Take(Look {
        hypothesis: hypothesis as u32,
        stage,
        p,
    }))
}

/// Returns the command of a line after `show`: no word follows.
fn show(line: &Line, mut words: Words) -> Result<StudyCommand, CommandsFault>
    ensures { result ≡ told_as (faults.Line line.now.number) (show (words_of words.entry)) }
{
    match words.next() {
        None => Ok(StudyCommand::Show),
        Some(_) => Err(CommandsFault::Line(line.number, LineKind::WordCount)),
    }
}

/// Returns the command that a line denotes.
pub fn command(line: &Line, case: &Case) -> Result<StudyCommand, CommandsFault>
    ensures { result ≡ told_as (faults.Line line.now.number) (expected kinds (command (content case.now).names line.now.text.now)) }
{
    if let Some(words) = line.words_after(b"look") {
        return look(line, words, case);
    }
    if let Some(words) = line.words_after(b"show") {
        return show(line, words);
    }
    Err(CommandsFault::Line(line.number, LineKind::Unexpected))
}
