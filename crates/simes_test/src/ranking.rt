//! The hypotheses by ascending p-value.
ghost use Rattle.std.specs.Prelude.{◌≡◌, map, length, IfOk};
ghost use Rattle.case_model.specs.Sums.{number_at};
ghost use Rattle.case_model.specs.Content.{ForSingle};
ghost use Rattle.case_model.specs.CaseView.{content};
ghost use Rattle.sequential.specs.TrialAnswers.{IsSingle};
ghost use Rattle.simes_test.specs.Leaders.{AreLeaders};
ghost use Rattle.simes_test.specs.Ranking.{by_position, position_of};

use case_model::Case;
use field_core::{List, NoMemory};
use fraction::Fraction;
use sequential::single_p_values;
use std::alloc::{AllocError, Global};

/// A hypothesis, ordered by its p-value, and by its position among equal ones.
#[derive(Clone, Copy, PartialEq, Eq, PartialOrd, Ord)]
struct Ranked {
    p_value: Fraction,
    position: usize,
}

/// Returns the hypotheses by position.
fn by_position(alloc: Global, p_values: &[Fraction]) -> Result<Vec<Ranked>, AllocError>
    ensures { IfOk result (λ v. v.items ≡ by_position p_values.now) }
{
    p_values
        .iter()
        .enumerate()
        .map(|(position, p_value)| Ranked {
            p_value: *p_value,
            position,
        })
        .collect(alloc)
}

/// Returns the positions of hypotheses, in their order.
fn positions(alloc: Global, ranked: &[Ranked]) -> Result<Vec<usize>, AllocError>
    ensures { IfOk result (λ v. v.items ≡ map position_of ranked.now) }
{
    ranked.iter().map(|ranked| ranked.position).collect(alloc)
}

/// Returns the positions of all hypotheses of a case that has a p-value for each, by ascending p-value, equal ones by position.
pub fn leaders(alloc: Global, case: &Case) -> Result<List<usize>, NoMemory>
    requires { IsSingle (content case.now).inputs }
    ensures { IfOk result (λ js. ForSingle (content case.now).inputs (λ ps. AreLeaders (length
        (content case.now).names) (number_at ps) js)) }
{
    let mut ranked = by_position(alloc, single_p_values(case))?;
    ranked.sort()?;
    let positions = positions(alloc, &ranked)?;
    Ok(List::of(positions))
}
