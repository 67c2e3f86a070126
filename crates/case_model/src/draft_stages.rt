//! Stages of drafts, and their tests.
ghost use Rattle.std.specs.Prelude.{◌≡◌, ◌||◌, not, nat_le};
ghost use Rattle.std.specs.List.{list_all, list_any};
ghost use Rattle.case_model.specs.Draft.{is_of, arrives_among};
ghost use Rattle.case_model.specs.CaseFaults.{
  ◌or◌,
  first_of,
  has_all_stages,
  long_arrival,
  spend_count,
  step_order,
  spend_range,
  spend_sum,
  spends_fault,
  arrival_stage,
  arrival_repeated,
  arrival_range,
  arrivals_fault,
};

use crate::first_faults::first_fault;
use crate::fraction_tests::{is_short_p_value, is_unit};
use crate::{CaseFault, PartPlace, Spend};
use field_core::List;
use fraction::Fraction;

/// A p-value that arrived: of a hypothesis, by its position, at a stage, from 1.
#[derive(Clone, Copy)]
pub struct Arrival {
    pub hypothesis: usize,
    pub stage: usize,
    pub p: Fraction,
}

/// The stages of a draft: how many there are, what each hypothesis spends at them, and the p-values that arrived.
#[derive(Drop)]
pub struct DraftStages {
    pub count: u64,
    pub spend: List<Spend>,
    pub arrivals: List<Arrival>,
}

impl DraftStages {
    ghost use Rattle.std.specs.Prelude.{◌≡◌};
    ghost use Rattle.std.specs.List.{list_all};
    ghost use Rattle.case_model.specs.Draft.{arrives_among};
    ghost use Rattle.case_model.specs.CaseFaults.{long_stage_part, stages_fault};

    /// Whether each p-value that arrived is of one of a number of hypotheses.
    pub(crate) fn has_known_arrivals(&self, count: usize) -> bool
        ensures { result ≡ list_all (arrives_among count) self.now.arrivals }
    {
        self.arrivals
            .iter()
            .all(|arrival| arrival.hypothesis < count)
    }

    /// Returns the fault of the first number with a part above its limit. Fractions come first, then numbers of steps, then p-values.
    #[tactic(auto, unfolding(crate::specs::CaseFaults::long_stage_part))]
    pub(crate) fn long_part(&self) -> Option<CaseFault>
        ensures { result ≡ long_stage_part self.now }
    {
        let spends = self.spend.as_slice();
        first_fault(spends, Spend::long_fraction)
            .or_else(|| first_fault(spends, Spend::long_step))
            .or_else(|| long_arrival(self.arrivals.as_slice()))
    }

    /// Returns the first fault of the stages of a number of hypotheses at the level `alpha`.
    #[tactic(auto, unfolding(crate::specs::CaseFaults::stages_fault, crate::specs::CaseFaults::no_stage, crate::specs::CaseFaults::too_many_stages))]
    pub(crate) fn fault(&self, size: usize, alpha: &Fraction) -> Option<CaseFault>
        ensures { result ≡ stages_fault size alpha.now self.now }
    {
        let count = self.count;
        if count == 0 {
            return Some(CaseFault::NoStage);
        }
        if count > 12 {
            return Some(CaseFault::TooManyStages(count));
        }
        spends_fault(size, count, alpha, self.spend.as_slice()).or_else(|| arrivals_fault(
            count,
            self.arrivals.as_slice(),
        ))
    }
}

/// Returns the fault of the first p-value that arrived with a denominator above 10^30.
#[tactic(auto, unfolding(crate::specs::CaseFaults::long_arrival, crate::specs::CaseFaults::first_from), using(crate::proofs::FirstFaults::walks))]
fn long_arrival(arrivals: &[Arrival]) -> Option<CaseFault>
    ensures { result ≡ long_arrival arrivals.now }
{
    for n in 0..arrivals.len() {
        if !is_short_p_value(&arrivals[n].p) {
            return Some(CaseFault::PartTooLong(PartPlace::Arrival(n)));
        }
    }
    None
}

/// Whether the spend at a place is past the last of a number of hypotheses, or isn't for each of `count` stages.
fn is_miscounted(size: usize, count: u64, spend: &Spend, i: usize) -> bool
    ensures { result ≡ (nat_le size i || not (has_all_stages count spend.now)) }
{
    i >= size || !spend.has_all_stages(count)
}

/// Returns the fault of the first of `size` hypotheses that doesn't spend at each of `count` stages, or else of the first spend
/// past them.
#[tactic(auto, unfolding(crate::specs::CaseFaults::spend_count, crate::specs::CaseFaults::first_from), using(crate::proofs::FirstFaults::walks))]
fn spend_count(size: usize, count: u64, spends: &[Spend]) -> Option<CaseFault>
    ensures { result ≡ spend_count size count spends.now }
{
    for i in 0..spends.len() {
        if is_miscounted(size, count, &spends[i], i) {
            return Some(CaseFault::SpendCount(i));
        }
    }
    (spends.len() < size).then_some(CaseFault::SpendCount(spends.len()))
}

/// Returns the first fault of what this number of hypotheses spend at `count` stages.
#[tactic(auto, unfolding(crate::specs::CaseFaults::spends_fault))]
fn spends_fault(size: usize, count: u64, alpha: &Fraction, spends: &[Spend]) -> Option<CaseFault>
    ensures { result ≡ spends_fault size count alpha.now spends.now }
{
    spend_count(size, count, spends)
        .or_else(|| first_fault(spends, Spend::too_many_steps))
        .or_else(|| levels_fault(alpha, spends))
}

/// Returns the first fault of the weights of steps, or else of what is spent at a stage, or else of the sums.
fn levels_fault(alpha: &Fraction, spends: &[Spend]) -> Option<CaseFault>
    ensures { result ≡ (first_of step_order spends.now or first_of spend_range spends.now or first_of (spend_sum alpha.now) spends.now) }
{
    first_fault(spends, Spend::step_order)
        .or_else(|| first_fault(spends, Spend::range_fault))
        .or_else(|| spend_sum(alpha, spends))
}

/// Returns the first fault of the sums of what is spent.
#[tactic(auto, unfolding(crate::specs::CaseFaults::first_from), using(crate::proofs::FirstFaults::walks))]
fn spend_sum(alpha: &Fraction, spends: &[Spend]) -> Option<CaseFault>
    ensures { result ≡ first_of (spend_sum alpha.now) spends.now }
{
    for i in 0..spends.len() {
        let fault = spends[i].sum_fault(i, alpha);
        if fault.is_some() {
            return fault;
        }
    }
    None
}

/// Returns the fault of the first arrival whose stage isn't one of `count` stages.
#[tactic(auto, unfolding(crate::specs::CaseFaults::arrival_stage, crate::specs::CaseFaults::first_from), using(crate::proofs::FirstFaults::walks))]
fn arrival_stage(count: u64, arrivals: &[Arrival]) -> Option<CaseFault>
    ensures { result ≡ arrival_stage count arrivals.now }
{
    for n in 0..arrivals.len() {
        let stage = arrivals[n].stage as u64;
        if stage < 1 || stage > count {
            return Some(CaseFault::ArrivalStage(n));
        }
    }
    None
}

/// Whether one of the arrivals is of this hypothesis at this stage.
fn has(arrivals: &[Arrival], hypothesis: usize, stage: usize) -> bool
    ensures { result ≡ list_any (is_of hypothesis stage) arrivals.now }
{
    arrivals.iter().any(|arrival| arrival.hypothesis == hypothesis && arrival.stage == stage)
}

/// Returns the fault of the first arrival with the hypothesis and the stage of an earlier one.
#[tactic(auto, unfolding(crate::specs::CaseFaults::arrival_repeated, crate::specs::CaseFaults::first_from), using(crate::proofs::FirstFaults::walks))]
fn arrival_repeated(arrivals: &[Arrival]) -> Option<CaseFault>
    ensures { result ≡ arrival_repeated arrivals.now }
{
    for n in 0..arrivals.len() {
        let arrival = &arrivals[n];
        if has(&arrivals[..n], arrival.hypothesis, arrival.stage) {
            return Some(CaseFault::ArrivalRepeated(n));
        }
    }
    None
}

/// Returns the fault of the first p-value that arrived and isn't from 0 to 1.
#[tactic(auto, unfolding(crate::specs::CaseFaults::arrival_range, crate::specs::CaseFaults::first_from), using(crate::proofs::FirstFaults::walks))]
fn arrival_range(arrivals: &[Arrival]) -> Option<CaseFault>
    ensures { result ≡ arrival_range arrivals.now }
{
    for n in 0..arrivals.len() {
        if !is_unit(&arrivals[n].p) {
            return Some(CaseFault::ArrivalRange(n));
        }
    }
    None
}

/// Returns the first fault of the p-values that arrived at this number of stages.
#[tactic(auto, unfolding(crate::specs::CaseFaults::arrivals_fault))]
fn arrivals_fault(count: u64, arrivals: &[Arrival]) -> Option<CaseFault>
    ensures { result ≡ arrivals_fault count arrivals.now }
{
    arrival_stage(count, arrivals)
        .or_else(|| arrival_repeated(arrivals))
        .or_else(|| arrival_range(arrivals))
}
