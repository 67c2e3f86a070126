//! Simes' test of all sets, and its closed test.
ghost use Rattle.std.specs.Prelude.{◌≡◌, length, IfOk, IfErr};
ghost use Rattle.case_model.specs.CaseView.{content};
ghost use Rattle.case_model.specs.SetTableView.{table_size, answer_of};
ghost use Rattle.sequential.specs.TrialAnswers.{IsSingle};
ghost use Rattle.closed_test.specs.SetWeights.{AreIntersectionWeights};
ghost use Rattle.closed_test.specs.WeightsView.{weights_size, weight_at};
ghost use Rattle.simes_test.specs.SimesAnswers.{AreSimesAnswers, AreAllSumsDefined};
ghost use Rattle.simes_test.specs.SimesFaults.{IsSimesFault};

use crate::SimesFault;
use crate::set_test::is_rejected;
use case_model::{Case, SetTable};
use closed_test::{Path, WeightTable, closed_answers};
use sequential::single_p_values;
use std::alloc::Global;

/// Which sets of the hypotheses of a case Simes' test and its closed test reject. There are at most 16 hypotheses.
#[derive(Drop)]
pub struct SimesTable {
    local: SetTable,
    closed: SetTable,
    ghost same_size: { table_size local ≡ table_size closed },
}

/// Returns for each set whether Simes' test rejects it, or the fault of the first sum that is undefined.
fn local_answers(alloc: Global, case: &Case, weights: &WeightTable) -> Result<SetTable, SimesFault>
    requires single { IsSingle (content case.now).inputs }
    requires size { weights_size weights.now ≡ length (content case.now).names }
    requires weights { AreIntersectionWeights (content case.now) (weight_at weights.now) }
    ensures size { IfOk result (λ t. table_size t ≡ weights_size weights.now) }
    ensures answers { IfOk result (λ t. AreSimesAnswers (content case.now) (answer_of t)) }
    ensures defined { IfOk result (λ t. AreAllSumsDefined (content case.now) (weight_at weights.now)) }
    ensures fault { IfErr result (IsSimesFault (content case.now) (weight_at weights.now)) }
{
    let p_values = single_p_values(case);
    let alpha = case.alpha();
    let size = case.size();
    let mut local = SetTable::new(alloc, size)?;
    let mut path = Path::new(alloc, size)?;
    'sets: loop {
        let set = path.set();
        let answer = match is_rejected(weights, p_values, &alpha, set) {
            Ok(answer) => answer,
            Err(wide) => return Err(SimesFault::Wide(set, wide)),
        };
        local.put(set, answer);
        match path.step() {
            None => return Ok(local),
            Some(_) => {}
        }
    }
}

impl SimesTable {
    ghost use Rattle.std.specs.Prelude.{◌≡◌, ◌<◌, ◌^◌, length, IfOk, IfErr};
    ghost use Rattle.case_model.specs.CaseView.{content};
    ghost use Rattle.case_model.specs.SetTableView.{table_size, answer_of};
    ghost use Rattle.sequential.specs.TrialAnswers.{IsSingle};
    ghost use Rattle.closed_test.specs.SetWeights.{AreIntersectionWeights};
    ghost use Rattle.closed_test.specs.WeightsView.{weights_size, weight_at};
    ghost use Rattle.simes_test.specs.SimesAnswers.{AreSimesAnswers, AreSimesClosedAnswers, AreAllSumsDefined};
    ghost use Rattle.simes_test.specs.SimesFaults.{IsSimesFault};
    ghost use Rattle.simes_test.specs.SimesView.{simes_size, local_of, closed_of};

    /// Returns Simes' test of all sets and its closed test, by the weights of all sets of the case. The case has a p-value for
    /// each hypothesis, and is tested at its level.
    ///
    /// Unless out of memory, the call is refused exactly if the sum of some member of some set is undefined. The fault names the
    /// first such set in the order of sets, and its first such member. All sums of a set are computed, even if an earlier one
    /// rejects the set.
    pub fn build(
        alloc: Global,
        case: &Case,
        weights: &WeightTable,
    ) -> Result<SimesTable, SimesFault>
        requires single { IsSingle (content case.now).inputs }
        requires size { weights_size weights.now ≡ length (content case.now).names }
        requires weights { AreIntersectionWeights (content case.now) (weight_at weights.now) }
        ensures size { IfOk result (λ t. simes_size t ≡ length (content case.now).names) }
        ensures local { IfOk result (λ t. AreSimesAnswers (content case.now) (answer_of (local_of t))) }
        ensures closed { IfOk result (λ t. AreSimesClosedAnswers (content case.now) (answer_of (closed_of t))) }
        ensures defined { IfOk result (λ t. AreAllSumsDefined (content case.now) (weight_at weights.now)) }
        ensures fault { IfErr result (IsSimesFault (content case.now) (weight_at weights.now)) }
    {
        let local = local_answers(alloc, case, weights)?;
        let closed = closed_answers(alloc, &local)?;
        Ok(SimesTable { local, closed })
    }

    /// Whether Simes' test rejects a set. For the empty set this is false in a table that was built.
    pub fn local(&self, set: u32) -> bool
        requires { set < 2 ^ simes_size self.now }
        ensures { result ≡ answer_of (local_of self.now) set }
    {
        self.local.get(set)
    }

    /// Whether the closed test of Simes' test rejects a set. For the empty set this is false in a table that was built.
    pub fn closed(&self, set: u32) -> bool
        requires { set < 2 ^ simes_size self.now }
        ensures { result ≡ answer_of (closed_of self.now) set }
    {
        self.closed.get(set)
    }

    /// Returns the table of which sets the closed test of Simes' test rejects.
    pub fn closed_table(&self) -> &SetTable
        ensures table { result.now ≡ closed_of self.now }
        ensures size { table_size result.now ≡ simes_size self.now }
    {
        &self.closed
    }
}
