//! The command `simes`.
ghost use Rattle.std.specs.Prelude.{◌≤◌, length};
ghost use Rattle.case_model.specs.CaseView.{content};
ghost use Rattle.graph_cli.specs.Accepted.{IsOfKind};
ghost use Rattle.graph_cli.specs.declared.kind.InputKind.TheVariants.{Single};
ghost use Rattle.graph_cli.specs.Simes.{simes_stage};
ghost use Rattle.graph_cli.specs.Troubles.{Meets};

use crate::no_answer::NoAnswer;
use answers::Answer;
use case_model::Case;
use closed_test::WeightTable;
use discovery_bound::Bounds;
use report::simes_text;
use simes_test::{SimesTable, leaders};
use std::alloc::Global;

/// Returns the answer of `simes` for a case: the weights of all sets come first, then their sums.
#[tactic(auto, unfolding(crate::specs::Simes::simes_stage))]
pub fn simes_answer(alloc: Global, case: &Case) -> Result<Answer, NoAnswer>
    requires single { IsOfKind Single (content case.now).inputs }
    requires few { length (content case.now).names ≤ 16 }
    ensures { Meets (simes_stage (content case.now)) result }
{
    let weights = WeightTable::build(alloc, case)?;
    let table = SimesTable::build(alloc, case, &weights)?;
    let closed = table.closed_table();
    let bounds = Bounds::build(alloc, case.size(), closed)?;
    let ranking = leaders(alloc, case)?;
    Ok(Answer::done(simes_text(alloc, case, &bounds, closed, ranking.as_slice())?))
}
