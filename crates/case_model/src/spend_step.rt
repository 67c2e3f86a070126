//! Steps of tables of levels, and the tests of one table.
ghost use Rattle.std.specs.Prelude.{◌≡◌, IfOk};
ghost use Rattle.std.specs.Option.{option_map};
ghost use Rattle.case_model.specs.CaseFaults.{first_of, is_later, is_lower, level_of, step_before, falling_level, step_sum};

use crate::CaseFault;
use crate::fraction_tests::{are_short, is_below_zero, is_short};
use crate::sums::written_sum;
use field_core::{List, NoMemory, Number, Place, TooWide};
use fraction::Fraction;
use std::alloc::Global;

/// A step of a table of levels: the weight from which the step counts, and the level of each stage from this weight on.
#[derive(Drop)]
pub struct SpendStep {
    pub from: Fraction,
    pub levels: List<Fraction>,
}

impl SpendStep {
    ghost use Rattle.std.specs.Prelude.{◌≡◌, ◌&&◌, length, IfOk};
    ghost use Rattle.std.specs.List.{list_all};
    ghost use Rattle.case_model.specs.Draft.{is_short};
    ghost use Rattle.field_core.specs.declared.place.Op.TheVariants.{Add};
    ghost use Rattle.field_core.specs.Kind.{ok_map, or_wide};
    ghost use Rattle.field_core.specs.View.{terms};
    ghost use Rattle.case_model.specs.Sums.{ratio_at, written_sum};
    ghost use Rattle.case_model.specs.CaseFaults.{step_sum};

    /// Returns a step with the same content, or `NoMemory`.
    fn copy(&self, alloc: Global) -> Result<SpendStep, NoMemory>
        ensures { IfOk result (λ step. step ≡ self.now) }
    {
        Ok(SpendStep {
            from: self.from,
            levels: copied(alloc, self.levels.as_slice())?,
        })
    }

    /// Returns the same steps, or `NoMemory`.
    pub(crate) fn copied(alloc: Global, steps: &[SpendStep]) -> Result<List<SpendStep>, NoMemory>
        ensures { IfOk result (λ copies. copies ≡ steps.now) }
    {
        let mut all = List::new(alloc);
        for n in 0..steps.len() {
            all.push(steps[n].copy(alloc)?)?;
        }
        Ok(all)
    }

    /// Whether the parts of the step's weight and of its levels are at most 10^18.
    pub(crate) fn is_short(&self) -> bool
        ensures { result ≡ (is_short self.now.from && list_all is_short self.now.levels) }
    {
        is_short(&self.from) && are_short(self.levels.as_slice())
    }

    /// Returns the written sum of the step's levels, or that it is too wide.
    #[tactic(auto, unfolding(crate::specs::Sums::ratio_at), using(std::proofs::lemmas::List::get_or_default))]
    fn sum(&self) -> Result<Fraction, TooWide>
        ensures { ok_map terms result ≡ or_wide Add (written_sum (length self.now.levels) (ratio_at self.now.levels)) }
    {
        let levels = self.levels.as_slice();
        written_sum(levels.len(), |t| levels[t])
    }

    /// Returns the fault of the sum of the step's levels, for the hypothesis `i`. The bound is the step's weight times the level
    /// `alpha`; the fault is that the sum or the bound is too wide, or that the sum is above the bound.
    #[tactic(auto, unfolding(crate::specs::CaseFaults::step_sum))]
    pub(crate) fn sum_fault(&self, i: usize, alpha: &Fraction) -> Option<CaseFault>
        ensures { result ≡ step_sum i alpha.now self.now }
    {
        let place = Place::SpendSum(i);
        let sum = match self.sum() {
            Ok(sum) => sum,
            Err(wide) => return Some(CaseFault::Wide(wide.at(place).in_component(0))),
        };
        match self.from.mul(alpha) {
            Ok(bound) => (sum > bound).then_some(CaseFault::SpendSum(i)),
            Err(wide) => Some(CaseFault::Wide(wide.at(place).in_component(0))),
        }
    }
}

/// Returns the same fractions, or `NoMemory`.
pub fn copied(alloc: Global, fractions: &[Fraction]) -> Result<List<Fraction>, NoMemory>
    ensures { IfOk result (λ copies. copies ≡ fractions.now) }
{
    Ok(List::of(fractions.to_vec(alloc)?))
}

/// Returns the weight of the step before place `n`, if there is one.
#[tactic(auto, unfolding(crate::specs::CaseFaults::step_before))]
pub fn weight_before(steps: &[SpendStep], n: usize) -> Option<Fraction>
    ensures { result ≡ option_map (λ s. s.from) (step_before steps.now n) }
{
    if n == 0 {
        return None;
    }
    match steps.get(n - 1) {
        Some(before) => Some(before.from),
        None => None,
    }
}

/// Whether a weight is above that of the step before, if there is one.
#[tactic(auto, using(crate::proofs::Comparisons::orders))]
pub fn is_later(before: Option<Fraction>, from: &Fraction) -> bool
    ensures { result ≡ is_later before from.now }
{
    match before {
        Some(before) => *from > before,
        None => true,
    }
}

/// Returns the level of a stage, counted from 0, in the step before place `n`, if there is one.
#[tactic(auto, unfolding(crate::specs::CaseFaults::step_before))]
fn level_before(steps: &[SpendStep], n: usize, t: usize) -> Option<Fraction>
    ensures { result ≡ level_of (step_before steps.now n) t }
{
    if n == 0 {
        return None;
    }
    match steps.get(n - 1) {
        Some(before) => before.levels.as_slice().get(t).copied(),
        None => None,
    }
}

/// Whether a level is below that of the step before, if there is one.
#[tactic(auto, using(crate::proofs::Comparisons::orders))]
fn is_lower(before: Option<Fraction>, level: &Fraction) -> bool
    ensures { result ≡ is_lower before level.now }
{
    match before {
        Some(before) => *level < before,
        None => false,
    }
}

/// Returns the fault of the first level of the step at place `n` that is below 0, or below that of the step before.
#[tactic(auto, unfolding(crate::specs::CaseFaults::falling_level, crate::specs::CaseFaults::first_from), using(crate::proofs::FirstFaults::walks))]
fn falling_level(i: usize, steps: &[SpendStep], n: usize, levels: &[Fraction]) -> Option<CaseFault>
    ensures { result ≡ falling_level i (step_before steps.now n) levels.now }
{
    for t in 0..levels.len() {
        let level = &levels[t];
        if is_below_zero(level) || is_lower(level_before(steps, n, t), level) {
            return Some(CaseFault::SpendRange(i, t));
        }
    }
    None
}

/// Returns the fault of the first level, step by step, that is below 0, or below that of the step before.
#[tactic(auto, unfolding(crate::specs::CaseFaults::first_from), using(crate::proofs::FirstFaults::walks))]
pub fn falling_step(i: usize, steps: &[SpendStep]) -> Option<CaseFault>
    ensures { result ≡ first_of (λ n s. falling_level i (step_before steps.now n) s.levels) steps.now }
{
    for n in 0..steps.len() {
        let fault = falling_level(i, steps, n, steps[n].levels.as_slice());
        if fault.is_some() {
            return fault;
        }
    }
    None
}

/// Returns the first fault of the sums of the steps of a hypothesis.
#[tactic(auto, unfolding(crate::specs::CaseFaults::first_from), using(crate::proofs::FirstFaults::walks))]
pub fn first_sum_fault(i: usize, steps: &[SpendStep], alpha: &Fraction) -> Option<CaseFault>
    ensures { result ≡ first_of (λ _ s. step_sum i alpha.now s) steps.now }
{
    for step in steps {
        let fault = step.sum_fault(i, alpha);
        if fault.is_some() {
            return fault;
        }
    }
    None
}
