//! The command `weights`.
ghost use Rattle.std.specs.Prelude.{◌≤◌, length};
ghost use Rattle.case_model.specs.CaseView.{content};
ghost use Rattle.graph_cli.specs.Troubles.{Meets};
ghost use Rattle.graph_cli.specs.Weights.{weights_stage};

use crate::no_answer::NoAnswer;
use answers::Answer;
use case_model::Case;
use closed_test::WeightTable;
use report::weights_text;
use std::alloc::Global;

/// Returns the answer of `weights` for a case.
#[tactic(auto, unfolding(crate::specs::Weights::weights_stage))]
pub fn weights_answer(alloc: Global, case: &Case) -> Result<Answer, NoAnswer>
    requires { length (content case.now).names ≤ 16 }
    ensures { Meets (weights_stage (content case.now)) result }
{
    let table = WeightTable::build(alloc, case)?;
    Ok(Answer::done(weights_text(alloc, case, &table)?))
}
