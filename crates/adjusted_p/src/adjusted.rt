//! Adjusted p-values of cases.
ghost use Rattle.std.specs.Prelude.{◌≡◌, ℕ, [], replicate, IfOk, IfErr, OnOk};
ghost use Rattle.field_core.specs.declared.place.WideAt.{WideAt};
ghost use Rattle.fraction.specs.View.{number_of};
ghost use Rattle.case_model.specs.Content.{Content};
ghost use Rattle.case_model.specs.Sums.{one_ratio};
ghost use Rattle.case_model.specs.CaseView.{content};
ghost use Rattle.sequential.specs.Trials.{IsTrialOf};
ghost use Rattle.sequential.specs.TrialAnswers.{IsSingle};
ghost use Rattle.sequential.specs.TrialView.{trial};
ghost use Rattle.sequential.specs.WideDecisions.{IsDecideFault};
ghost use Rattle.sequential.specs.declared.priority.Priority.TheVariants.{Ratio as ByRatio};
ghost use Rattle.adjusted_p.specs.AdjustedLists.{not_reached, AreAdjusted};
ghost use Rattle.adjusted_p.specs.RatioRuns.{IsGreater};
ghost use Rattle.adjusted_p.specs.WrittenRun.{IsWideAdjusting, IsAdjustFault};
ghost use Rattle.adjusted_p.specs.Adjusting.{IsAdjustingRun};

use crate::AdjustFault;
use case_model::Case;
use field_core::{List, NoMemory, Number};
use fraction::Fraction;
use sequential::Trial;
use std::alloc::Global;

/// The adjusted value of a hypothesis: the least level from 0 to 1 at which the closed test rejects the hypothesis, marked as
/// reached. If the test rejects it at no such level, the value is 1, marked as not reached.
#[derive(Clone, Copy, PartialEq, Eq, Debug)]
pub struct Adjusted {
    pub value: Fraction,
    pub reached: bool,
}

/// Returns the greater of two fractions.
fn greater(x: &Fraction, y: &Fraction) -> Fraction
    ensures { IsGreater (number_of x.now) (number_of y.now) (number_of result) }
{
    if *x <= *y { *y } else { *x }
}

/// Returns the level 1.
fn level_one() -> Fraction
    ensures { result ≡ one_ratio }
{
    Fraction::one()
}

/// Returns a list of `count` values of 1 that aren't reached.
fn none_reached(alloc: Global, count: usize) -> Result<List<Adjusted>, NoMemory>
    ensures { IfOk result (λ values. values ≡ replicate count not_reached) }
{
    let mut values = List::new(alloc);
    for _ in 0..count {
        values.push(Adjusted {
            value: level_one(),
            reached: false,
        })?;
    }
    Ok(values)
}

/// Rejects by the least ratio at the level 1, one hypothesis after another, and returns the adjusted values.
fn run(alloc: Global, current: &mut Trial) -> Result<List<Adjusted>, AdjustFault>
    requires { (trial current.old).rejected ≡ [] }
    ensures run { IfOk result (λ values. (c : Content) → IsTrialOf c (trial current.old) → c.alpha ≡ one_ratio
        → IsAdjustingRun c (trial current.new) values) }
    ensures fault { IfErr result (λ fault. (c : Content) → IsTrialOf c (trial current.old) → c.alpha ≡ one_ratio
        → IsDecideFault c ByRatio fault) }
{
    let mut values = none_reached(alloc, current.size())?;
    let mut before = Fraction::zero();
    loop {
        let step = current.rejected().len() + 1;
        match current.reject_least_ratio() {
            Ok(Some(next)) => {
                before = greater(&before, &next.ratio);
                values.set(
                    next.line.hypothesis,
                    Adjusted {
                        value: before,
                        reached: true,
                    },
                );
            }
            Ok(None) => return Ok(values),
            Err(wide) => return Err(AdjustFault::Wide(step, wide)),
        }
    }
}

/// Returns the adjusted values of a case that has a p-value for each hypothesis, by ascending position. Each is the least level
/// from 0 to 1 at which the closed test rejects the hypothesis, and is reached. If the test rejects it at no such level, the value
/// is 1 and not reached.
///
/// The run takes the remaining hypothesis with the least ratio of p-value and weight, the first among equals, as long as the
/// ratio is at most 1. Its value is the greater of the ratio and the value before. Unless out of memory, the call is refused with
/// `AdjustFault::Wide` exactly if this written run is undefined, with the step, counted from 1; step 0 is the opening.
pub fn adjust(alloc: Global, case: &Case) -> Result<List<Adjusted>, AdjustFault>
    requires { IsSingle (content case.now).inputs }
    ensures values { IfOk result (AreAdjusted (content case.now)) }
    ensures fault { IfErr result (IsAdjustFault (content case.now)) }
    ensures defined { OnOk result ((n : ℕ) (w : WideAt) → ¬ IsWideAdjusting (content case.now) n w) }
{
    let mut current = Trial::open_at(alloc, case, level_one())?;
    run(alloc, &mut current)
}
