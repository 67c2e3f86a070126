//! The command `test`.
ghost use Rattle.case_model.specs.CaseView.{content};
ghost use Rattle.graph_cli.specs.Accepted.{IsOfKind};
ghost use Rattle.graph_cli.specs.declared.kind.InputKind.TheVariants.{Single};
ghost use Rattle.graph_cli.specs.Test.{decided, adjusted, test_stage};
ghost use Rattle.graph_cli.specs.Troubles.{Meets};

use crate::no_answer::{NoAnswer, Run};
use adjusted_p::{Adjusted, adjust};
use answers::Answer;
use case_model::Case;
use field_core::List;
use report::test_text;
use sequential::{Decision, Priority, decide};
use std::alloc::Global;

/// Decides a case with a priority.
pub(crate) fn decide_case(
    alloc: Global,
    case: &Case,
    priority: Priority,
) -> Result<Decision, NoAnswer>
    requires { IsOfKind Single (content case.now).inputs }
    ensures { Meets (decided priority (content case.now)) result }
{
    match decide(alloc, case, priority) {
        Ok(decision) => Ok(decision),
        Err(fault) => Err(NoAnswer::of_run(Run::Deciding, fault)),
    }
}

/// Returns the adjusted values of a case.
fn adjust_case(alloc: Global, case: &Case) -> Result<List<Adjusted>, NoAnswer>
    requires { IsOfKind Single (content case.now).inputs }
    ensures { Meets (adjusted (content case.now)) result }
{
    match adjust(alloc, case) {
        Ok(values) => Ok(values),
        Err(fault) => Err(NoAnswer::of_run(Run::Adjusting, fault)),
    }
}

/// Returns the answer of `test` for a case: the decision comes first, then the adjusted values.
#[tactic(auto, unfolding(crate::specs::Test::test_stage))]
pub fn test_answer(alloc: Global, case: &Case, priority: Priority) -> Result<Answer, NoAnswer>
    requires { IsOfKind Single (content case.now).inputs }
    ensures { Meets (test_stage priority (content case.now)) result }
{
    let decision = decide_case(alloc, case, priority)?;
    let values = adjust_case(alloc, case)?;
    Ok(Answer::done(test_text(alloc, case, &decision, values.as_slice())?))
}
