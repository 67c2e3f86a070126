//! The p-values of a case: none, single ones, or those of stages.
use crate::p_values::{given, has_some};
use crate::{Arrival, DraftStages, Spend};
use field_core::{List, NoMemory};
use fraction::Fraction;
use std::alloc::Global;

/// The stages of a case: how many there are, what each hypothesis spends at them, and the p-values that arrived.
#[derive(Drop)]
pub struct Stages {
    count: usize,
    spend: List<Spend>,
    arrivals: List<Arrival>,
}

impl Stages {
    ghost use Rattle.std.specs.Prelude.{◌≡◌, ◌<◌, length, slice_get, Some};
    ghost use Rattle.case_model.specs.Content.{stages_of};

    /// Returns the stages of a draft, of which there are at most 12.
    fn of(draft: DraftStages) -> Stages
        ensures { result ≡ stages_of draft }
    {
        Stages {
            count: draft.count as usize,
            spend: draft.spend,
            arrivals: draft.arrivals,
        }
    }

    /// Returns how many stages there are.
    pub fn count(&self) -> usize
        ensures { result ≡ self.now.count }
    {
        self.count
    }

    /// Returns what the hypothesis at a position spends at the stages.
    pub fn spend(&self, i: usize) -> &Spend
        requires { i < length self.now.spend }
        ensures { slice_get self.now.spend i ≡ Some result.now }
    {
        &self.spend.as_slice()[i]
    }

    /// Returns the p-values that arrived, in their order.
    pub fn arrivals(&self) -> &[Arrival]
        ensures { result.now ≡ self.now.arrivals }
    {
        self.arrivals.as_slice()
    }
}

/// The p-values of a case: none, one for each hypothesis, or those of stages.
#[derive(Drop)]
pub enum Inputs {
    /// There are none.
    Bare,
    /// One for each hypothesis, in their order.
    Single(List<Fraction>),
    /// Those of stages.
    Staged(Stages),
}

impl Inputs {
    ghost use Rattle.std.specs.Prelude.{◌≡◌, IfOk};
    ghost use Rattle.case_model.specs.Content.{inputs_given, inputs_of};

    /// Returns the stages of a draft, if it has some, and else the p-values that are given.
    pub(crate) fn of(
        alloc: Global,
        stages: Option<DraftStages>,
        p: &[Option<Fraction>],
    ) -> Result<Inputs, NoMemory>
        ensures { IfOk result (λ inputs. inputs ≡ inputs_of stages p.now) }
    {
        match stages {
            Some(stages) => Ok(Inputs::Staged(Stages::of(stages))),
            None => Inputs::given(alloc, p),
        }
    }

    /// Returns the p-values that are given, or none if no p-value is.
    fn given(alloc: Global, p: &[Option<Fraction>]) -> Result<Inputs, NoMemory>
        ensures { IfOk result (λ inputs. inputs ≡ inputs_given p.now) }
    {
        if !has_some(p) {
            return Ok(Inputs::Bare);
        }
        Ok(Inputs::Single(List::of(given(alloc, p)?)))
    }
}
