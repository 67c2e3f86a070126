//! The command `canon`.
ghost use Rattle.case_model.specs.CaseView.{content};
ghost use Rattle.graph_cli.specs.Canon.{sheet_stage, canon_stage};
ghost use Rattle.graph_cli.specs.Troubles.{Meets};

use crate::no_answer::NoAnswer;
use crate::trouble::Trouble;
use answers::Answer;
use case_csv::{fits_sheet, write_csv};
use case_json::write_json;
use case_model::Case;
use command_words::Format;
use edge_text::write_text;
use std::alloc::Global;

/// Writes the sheet of a case. A case that no sheet can hold is of the wrong kind.
#[tactic(auto, unfolding(crate::specs::Canon::sheet_stage))]
fn sheet_answer(alloc: Global, case: &Case) -> Result<Answer, NoAnswer>
    ensures { Meets (sheet_stage (content case.now)) result }
{
    if !fits_sheet(case) {
        return Err(NoAnswer::Refused(Trouble::Kind));
    }
    Ok(Answer::done(write_csv(alloc, case)?))
}

/// Returns the answer of `canon` for a case: its canonical document in a format.
#[tactic(auto, unfolding(crate::specs::Canon::canon_stage))]
pub fn canon_answer(alloc: Global, case: &Case, format: Format) -> Result<Answer, NoAnswer>
    ensures { Meets (canon_stage format (content case.now)) result }
{
    match format {
        Format::Text => Ok(Answer::done(write_text(alloc, case)?)),
        Format::Csv => sheet_answer(alloc, case),
        Format::Json => Ok(Answer::done(write_json(alloc, case)?)),
    }
}
