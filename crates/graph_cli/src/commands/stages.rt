//! The command `stages`.
ghost use Rattle.case_model.specs.CaseView.{content};
ghost use Rattle.graph_cli.specs.Accepted.{IsOfKind};
ghost use Rattle.graph_cli.specs.Stages.{stages_stage};
ghost use Rattle.graph_cli.specs.Troubles.{Meets};
ghost use Rattle.graph_cli.specs.declared.kind.InputKind.TheVariants.{Staged};

use crate::no_answer::NoAnswer;
use answers::Answer;
use case_model::Case;
use report::stages_text;
use staged_levels::looks;
use std::alloc::Global;

/// Returns the answer of `stages` for a case.
#[tactic(auto, unfolding(crate::specs::Stages::stages_stage))]
pub fn stages_answer(alloc: Global, case: &Case) -> Result<Answer, NoAnswer>
    requires { IsOfKind Staged (content case.now).inputs }
    ensures { Meets (stages_stage (content case.now)) result }
{
    let looks = looks(alloc, case)?;
    Ok(Answer::done(stages_text(alloc, case, looks.as_slice())?))
}
