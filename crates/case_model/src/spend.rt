//! What hypotheses spend of their levels at the stages, and the tests of what one hypothesis spends.
ghost use Rattle.std.specs.Prelude.{◌≡◌, ◌==◌, length};
ghost use Rattle.std.specs.List.{list_all};

use crate::fraction_tests::{is_below_zero, is_level_range, is_short_level};
use crate::spend_step::{copied, falling_step, first_sum_fault, is_later, weight_before};
use crate::stage_levels::{at_stage, meets_fraction, meets_level, table_level};
use crate::sums::total_fault;
use crate::{CaseFault, PartPlace, SpendStep};
use field_core::{List, NoMemory, Place};
use fraction::Fraction;
use std::alloc::Global;

/// What a hypothesis spends at the stages: a fraction of its level at each, or a table that gives the levels by its weight.
#[derive(Drop)]
pub enum Spend {
    /// The fraction of the level at each stage.
    Shares(List<Fraction>),
    /// Steps, by ascending weight.
    Table(List<SpendStep>),
}

impl Spend {
    ghost use Rattle.std.specs.Prelude.{◌≡◌, ◌≤◌, ◌↔◌, IsTrue, IfOk, true};
    ghost use Rattle.fraction.specs.View.{number_of};
    ghost use Rattle.case_model.specs.Draft.{is_level, is_p_value};
    ghost use Rattle.case_model.specs.StagedCase.{has_short_fractions};
    ghost use Rattle.case_model.specs.StagedTest.{Meets};
    ghost use Rattle.case_model.specs.CaseFaults.{
      long_fraction,
      long_step,
      has_all_stages,
      too_many_steps,
      step_order,
      spend_range,
      spend_sum,
    };

    /// Returns a spend with the same content, or `NoMemory`.
    pub fn copy(&self, alloc: Global) -> Result<Spend, NoMemory>
        ensures { IfOk result (λ spend. spend ≡ self.now) }
    {
        match self {
            Spend::Shares(fractions) => Ok(Spend::Shares(copied(alloc, fractions.as_slice())?)),
            Spend::Table(steps) => Ok(Spend::Table(SpendStep::copied(alloc, steps.as_slice())?)),
        }
    }

    /// Whether a p-value meets the level of a stage, from 1, at a weight: the weight and the level are above 0, and the
    /// p-value is at most the level. The spend and the level `alpha` are those of a case; `p` is from 0 to 1 with a
    /// denominator of at most 10^30.
    pub fn meets(&self, alpha: &Fraction, t: usize, weight: &Fraction, p: &Fraction) -> bool
        requires spend { has_short_fractions self.now ≡ true }
        requires alpha { is_level alpha.now ≡ true }
        requires stage { 1 ≤ t }
        requires p { is_p_value p.now ≡ true }
        ensures { IsTrue result ↔ Meets self.now (number_of alpha.now) t (number_of weight.now) (number_of p.now) }
    {
        match self {
            Spend::Shares(fractions) => match at_stage(fractions.as_slice(), t) {
                Some(fraction) => meets_fraction(&fraction, alpha, weight, p),
                None => false,
            },
            Spend::Table(steps) => match table_level(steps.as_slice(), t, weight) {
                Some(level) => meets_level(&level, weight, p),
                None => false,
            },
        }
    }

    /// Returns the fault of the first fraction with a part above 10,000.
    #[tactic(auto, unfolding(crate::specs::CaseFaults::long_fraction, crate::specs::CaseFaults::first_from), using(crate::proofs::FirstFaults::walks))]
    pub(crate) fn long_fraction(&self, i: usize) -> Option<CaseFault>
        ensures { result ≡ long_fraction i self.now }
    {
        match self {
            Spend::Shares(fractions) => {
                let fractions = fractions.as_slice();
                for t in 0..fractions.len() {
                    if !is_short_level(&fractions[t]) {
                        return Some(CaseFault::PartTooLong(PartPlace::Spend(i, t)));
                    }
                }
                None
            }
            Spend::Table(_) => None,
        }
    }

    /// Returns the fault of the first step with a part above 10^18.
    #[tactic(auto, unfolding(crate::specs::CaseFaults::long_step, crate::specs::CaseFaults::first_from), using(crate::proofs::FirstFaults::walks))]
    pub(crate) fn long_step(&self, i: usize) -> Option<CaseFault>
        ensures { result ≡ long_step i self.now }
    {
        match self {
            Spend::Shares(_) => None,
            Spend::Table(steps) => {
                let steps = steps.as_slice();
                for n in 0..steps.len() {
                    if !steps[n].is_short() {
                        return Some(CaseFault::PartTooLong(PartPlace::Step(i, n)));
                    }
                }
                None
            }
        }
    }

    /// Whether a list has `count` fractions; or a table has a step, and each of its steps has `count` levels.
    pub(crate) fn has_all_stages(&self, count: u64) -> bool
        ensures { result ≡ has_all_stages count self.now }
    {
        match self {
            Spend::Shares(fractions) => fractions.len() as u64 == count,
            Spend::Table(steps) => !steps.is_empty() && have_levels(steps.as_slice(), count),
        }
    }

    /// Returns the fault of the number of steps.
    #[tactic(auto, unfolding(crate::specs::CaseFaults::too_many_steps))]
    pub(crate) fn too_many_steps(&self, i: usize) -> Option<CaseFault>
        ensures { result ≡ too_many_steps i self.now }
    {
        match self {
            Spend::Shares(_) => None,
            Spend::Table(steps) => {
                let count = steps.len() as u64;
                (count > 32).then_some(CaseFault::TooManySteps(i, count))
            }
        }
    }

    /// Returns the fault of the first step whose weight isn't above 0, at most 1 and above that of the step before.
    #[tactic(auto, unfolding(crate::specs::CaseFaults::step_order, crate::specs::CaseFaults::first_from), using(crate::proofs::FirstFaults::walks))]
    pub(crate) fn step_order(&self, i: usize) -> Option<CaseFault>
        ensures { result ≡ step_order i self.now }
    {
        match self {
            Spend::Shares(_) => None,
            Spend::Table(steps) => {
                let steps = steps.as_slice();
                for n in 0..steps.len() {
                    let from = &steps[n].from;
                    if !is_level_range(from) || !is_later(weight_before(steps, n), from) {
                        return Some(CaseFault::StepOrder(i, n));
                    }
                }
                None
            }
        }
    }

    /// Returns the fault of the first fraction below 0; or of the first level, step by step, that is below 0 or below that of the
    /// step before.
    #[tactic(auto, unfolding(crate::specs::CaseFaults::spend_range, crate::specs::CaseFaults::first_from), using(crate::proofs::FirstFaults::walks))]
    pub(crate) fn range_fault(&self, i: usize) -> Option<CaseFault>
        ensures { result ≡ spend_range i self.now }
    {
        match self {
            Spend::Shares(fractions) => {
                let fractions = fractions.as_slice();
                for t in 0..fractions.len() {
                    if is_below_zero(&fractions[t]) {
                        return Some(CaseFault::SpendRange(i, t));
                    }
                }
                None
            }
            Spend::Table(steps) => falling_step(i, steps.as_slice()),
        }
    }

    /// Returns the first fault of the sums: that of the fractions, or those of the steps.
    #[tactic(auto, unfolding(crate::specs::CaseFaults::spend_sum, crate::specs::Sums::ratio_at), using(std::proofs::lemmas::List::get_or_default))]
    pub(crate) fn sum_fault(&self, i: usize, alpha: &Fraction) -> Option<CaseFault>
        ensures { result ≡ spend_sum alpha.now i self.now }
    {
        match self {
            Spend::Shares(fractions) => {
                let fractions = fractions.as_slice();
                let above = CaseFault::SpendSum(i);
                total_fault(
                    fractions.len(),
                    |t| fractions[t],
                    0,
                    Place::SpendSum(i),
                    above,
                )
            }
            Spend::Table(steps) => first_sum_fault(i, steps.as_slice(), alpha),
        }
    }
}

/// Whether each step has this number of levels.
fn have_levels(steps: &[SpendStep], count: u64) -> bool
    ensures { result ≡ list_all (λ s. length s.levels == count) steps.now }
{
    steps.iter().all(|step| step.levels.len() as u64 == count)
}
