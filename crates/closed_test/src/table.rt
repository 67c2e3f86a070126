//! The local test and the closed test of all sets.
ghost use Rattle.std.specs.Prelude.{◌≡◌, ◌<◌, ◌^◌, ◌↔◌, true, length, IfOk, IsTrue};
ghost use Rattle.std.specs.List.{list_all};
ghost use Rattle.case_model.specs.Draft.{is_level, is_p_value};
ghost use Rattle.case_model.specs.CaseView.{content};
ghost use Rattle.case_model.specs.SetTableView.{table_size, answer_of};
ghost use Rattle.sequential.specs.TrialAnswers.{IsSingle};
ghost use Rattle.closed_test.specs.SetWeights.{AreIntersectionWeights};
ghost use Rattle.closed_test.specs.SetTests.{AreLocalAnswers};
ghost use Rattle.closed_test.specs.WeightsView.{weights_size, weight_at};
ghost use Rattle.closed_test.specs.Passing.{HasPassing};

use crate::{ClosedFault, WeightTable, closed_answers};
use case_model::{Case, SetTable, holds, passes};
use field_core::NoMemory;
use fraction::Fraction;
use sequential::single_p_values;
use std::alloc::Global;

/// Which sets of the hypotheses of a case the local test and the closed test reject. There are at most 16 hypotheses.
#[derive(Drop)]
pub struct ClosedTable {
    weights: WeightTable,
    local: SetTable,
    closed: SetTable,
    ghost local_size: { table_size local ≡ weights_size weights },
    ghost closed_size: { table_size closed ≡ weights_size weights },
}

/// Whether the p-value of some member of a set passes at its weight there.
fn has_passing(weights: &WeightTable, p_values: &[Fraction], alpha: &Fraction, set: u32) -> bool
    requires set { set < 2 ^ weights_size weights.now }
    requires count { length p_values.now ≡ weights_size weights.now }
    requires p_values { list_all is_p_value p_values.now ≡ true }
    requires alpha { is_level alpha.now ≡ true }
    ensures { IsTrue result ↔ HasPassing (weights_size weights.now) p_values.now (weight_at weights.now) alpha.now set }
{
    for k in 0..weights.size() {
        if holds(set, k) && passes(&p_values[k], &weights.weight(set, k), alpha) {
            return true;
        }
    }
    false
}

/// Returns for each set whether the local test rejects it.
fn local_answers(alloc: Global, case: &Case, weights: &WeightTable) -> Result<SetTable, NoMemory>
    requires single { IsSingle (content case.now).inputs }
    requires size { weights_size weights.now ≡ length (content case.now).names }
    requires weights { AreIntersectionWeights (content case.now) (weight_at weights.now) }
    ensures size { IfOk result (λ t. table_size t ≡ weights_size weights.now) }
    ensures answers { IfOk result (λ t. AreLocalAnswers (content case.now) (answer_of t)) }
{
    let p_values = single_p_values(case);
    let alpha = case.alpha();
    let mut local = SetTable::new(alloc, weights.size())?;
    let sets: u32 = 1 << weights.size();
    for set in 0..sets {
        let answer = has_passing(weights, p_values, &alpha, set);
        local.put(set, answer);
    }
    Ok(local)
}

impl ClosedTable {
    ghost use Rattle.std.specs.Prelude.{◌≡◌, ◌<◌, ◌^◌, false, length, IfOk, IfErr};
    ghost use Rattle.case_model.specs.CaseView.{content};
    ghost use Rattle.case_model.specs.SetTableView.{table_size, answer_of};
    ghost use Rattle.sequential.specs.TrialAnswers.{IsSingle};
    ghost use Rattle.closed_test.specs.SetRuns.{AreRunsDefined};
    ghost use Rattle.closed_test.specs.SetWeights.{AreIntersectionWeights};
    ghost use Rattle.closed_test.specs.SetTests.{AreLocalAnswers, AreClosedAnswers};
    ghost use Rattle.closed_test.specs.ClosedFaults.{IsClosedFault};
    ghost use Rattle.closed_test.specs.WeightsView.{weights_size, weight_at};
    ghost use Rattle.closed_test.specs.ClosedView.{weights_of, local_of, closed_of};

    /// Returns the tests of all sets of a case that has a p-value for each hypothesis, at its level.
    ///
    /// Unless out of memory, the call is refused exactly if `WeightTable::build` is, and with the same fault.
    pub fn build(alloc: Global, case: &Case) -> Result<ClosedTable, ClosedFault>
        requires { IsSingle (content case.now).inputs }
        ensures size { IfOk result (λ t. weights_size (weights_of t) ≡ length (content case.now).names) }
        ensures weights { IfOk result (λ t. AreIntersectionWeights (content case.now) (weight_at (weights_of t))) }
        ensures local { IfOk result (λ t. AreLocalAnswers (content case.now) (answer_of (local_of t))) }
        ensures closed { IfOk result (λ t. AreClosedAnswers (content case.now) (answer_of (closed_of t))) }
        ensures defined { IfOk result (λ t. AreRunsDefined (content case.now)) }
        ensures fault { IfErr result (IsClosedFault (content case.now)) }
    {
        let weights = WeightTable::build(alloc, case)?;
        let local = local_answers(alloc, case, &weights)?;
        let closed = closed_answers(alloc, &local)?;
        Ok(ClosedTable {
            weights,
            local,
            closed,
        })
    }

    /// Whether the local test rejects a set. For the empty set this is false in a table that was built.
    pub fn local(&self, set: u32) -> bool
        requires { set < 2 ^ weights_size (weights_of self.now) }
        ensures { result ≡ answer_of (local_of self.now) set }
    {
        self.local.get(set)
    }

    /// Whether the closed test rejects a set. For the empty set this is false in a table that was built.
    pub fn closed(&self, set: u32) -> bool
        requires { set < 2 ^ weights_size (weights_of self.now) }
        ensures { result ≡ answer_of (closed_of self.now) set }
    {
        self.closed.get(set)
    }

    /// Returns the weights of all sets.
    pub fn weights(&self) -> &WeightTable
        ensures { result.now ≡ weights_of self.now }
    {
        &self.weights
    }

    /// Returns the table of which sets the closed test rejects.
    pub fn closed_table(&self) -> &SetTable
        ensures table { result.now ≡ closed_of self.now }
        ensures size { table_size result.now ≡ weights_size (weights_of self.now) }
    {
        &self.closed
    }
}
