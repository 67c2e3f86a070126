//! The command `bounds`.
ghost use Rattle.std.specs.Prelude.{◌≤◌, length};
ghost use Rattle.case_model.specs.CaseView.{content};
ghost use Rattle.graph_cli.specs.Bounds.{bounds_stage};
ghost use Rattle.graph_cli.specs.Accepted.{IsOfKind};
ghost use Rattle.graph_cli.specs.declared.kind.InputKind.TheVariants.{Single};
ghost use Rattle.graph_cli.specs.Troubles.{Meets};

use crate::no_answer::NoAnswer;
use answers::Answer;
use case_model::Case;
use closed_test::ClosedTable;
use discovery_bound::Bounds;
use report::bounds_text;
use std::alloc::Global;

/// Returns the answer of `bounds` for a case.
#[tactic(auto, unfolding(crate::specs::Bounds::bounds_stage))]
pub fn bounds_answer(alloc: Global, case: &Case) -> Result<Answer, NoAnswer>
    requires single { IsOfKind Single (content case.now).inputs }
    requires few { length (content case.now).names ≤ 16 }
    ensures { Meets (bounds_stage (content case.now)) result }
{
    let table = ClosedTable::build(alloc, case)?;
    let bounds = Bounds::build(alloc, case.size(), table.closed_table())?;
    Ok(Answer::done(bounds_text(alloc, case, &bounds)?))
}
