//! The command `sample`.
ghost use Rattle.case_model.specs.CaseView.{content};
ghost use Rattle.answers.specs.Ways.{EndsIn, over_values};
ghost use Rattle.graph_cli.specs.Accepted.{IsOfKind};
ghost use Rattle.graph_cli.specs.Sample.{decided_sample, sample_stage};
ghost use Rattle.graph_cli.specs.Troubles.{Meets};
ghost use Rattle.graph_cli.specs.declared.kind.InputKind.TheVariants.{Single};

use crate::commands::catalogue_faults::catalogue_refusal;
use crate::commands::test::decide_case;
use crate::no_answer::{NoAnswer, ending_of};
use answers::{Answer, Stop};
use case_model::Case;
use catalogue::sample;
use report::sample_text;
use sequential::Priority;
use std::alloc::Global;

/// Decides a sample with the priority `first`, and returns the report of both; `seed` is the seed of the sample.
fn decide_sample(alloc: Global, case: &Case, seed: u64) -> Result<Answer, NoAnswer>
    requires { IsOfKind Single (content case.now).inputs }
    ensures { Meets (decided_sample seed (content case.now)) result }
{
    let decision = decide_case(alloc, case, Priority::First)?;
    Ok(Answer::done(sample_text(alloc, case, seed, &decision)?))
}

/// Returns the answer of `sample`: a sample is made, decided and reported.
#[tactic(auto, unfolding(crate::specs::Sample::sample_stage))]
pub fn sample_answer(alloc: Global, size: u64, seed: u64) -> Result<Answer, Stop>
    ensures { EndsIn (over_values (sample_stage size seed)) result }
{
    match sample(alloc, size, seed) {
        Ok(case) => ending_of(alloc, &case, decide_sample(alloc, &case, seed)),
        Err(fault) => Err(Stop::Refused(catalogue_refusal(alloc, size, &fault)?)),
    }
}
