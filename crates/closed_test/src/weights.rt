//! The weights of all sets.
ghost use Rattle.std.specs.Prelude.{
  ◌≡◌,
  ◌≤◌,
  ◌<◌,
  ◌+◌,
  ◌-◌,
  ◌*◌,
  ◌^◌,
  ℕ,
  length,
  map,
  get_or,
  Ok,
  IfOk,
  IfErr,
};
ghost use Rattle.field_core.specs.declared.fault.Fault.TheVariants.{Wide as TooWide};
ghost use Rattle.field_core.specs.declared.place.WideAt.{WideAt};
ghost use Rattle.case_model.specs.CaseView.{content};
ghost use Rattle.entangled.specs.CaseNetView.{case_state};
ghost use Rattle.entangled.specs.CaseRun.{CaseState, case_opening};
ghost use Rattle.closed_test.specs.ClosedFaults.{IsClosedFault};
ghost use Rattle.entangled.specs.OpenFaults.{IsOpenFaultOf};

use crate::ClosedFault;
use crate::path::Path;
use crate::walk::walk;
use case_model::Case;
use entangled::{CaseNet, OpenFault};
use field_core::{List, NoMemory, Number};
use fraction::Fraction;
use std::alloc::Global;

/// The most hypotheses that a table of all sets is for.
pub const MOST_HYPOTHESES: usize = 16;

/// The weight of each member of each set of the hypotheses of a case, of which there are at most 16; with 16 hypotheses it
/// takes 32 MB.
#[derive(Drop)]
pub struct WeightTable {
    size: usize,
    weights: List<Fraction>,
    ghost few: { size ≤ 16 },
    ghost room: { length weights ≡ 2 ^ size * 16 },
}

/// Returns a list of `count` zeros, in exactly the memory that it needs.
fn zeros(alloc: Global, count: usize) -> Result<List<Fraction>, NoMemory>
    ensures { IfOk result (λ zeros. length zeros ≡ count) }
{
    let mut zeros = Vec::with_capacity(alloc, count)?;
    zeros.resize(count, Fraction::zero())?;
    Ok(List::of(zeros))
}

/// Returns `count` copies of the nets of a case, in each of which all hypotheses remain.
fn load_nets(alloc: Global, case: &Case, count: usize) -> Result<Vec<CaseNet>, OpenFault>
    ensures count { IfOk result (λ nets. length nets.items ≡ count) }
    ensures opened { IfOk result (λ nets. (n : ℕ) (d : CaseState) → n < count
        → case_opening (content case.now) ≡ Ok (get_or (map case_state nets.items) n d)) }
    ensures fault { IfErr result (IsOpenFaultOf (content case.now)) }
{
    let mut nets = Vec::with_capacity(alloc, count)?;
    for _ in 0..count {
        let net = CaseNet::load(alloc, case)?;
        nets.push_reserved(net);
    }
    Ok(nets)
}

/// Returns why there is no table if the opening fails. The fault is that of the set of all hypotheses, which is the first set.
fn opening_fault(case: &Case, fault: OpenFault) -> ClosedFault
    requires few { length (content case.now).names ≤ 16 }
    requires fault { IsOpenFaultOf (content case.now) fault }
    ensures fault { IsClosedFault (content case.now) result }
    ensures wide { (w : WideAt) → fault ≡ TooWide w → result ≡ ClosedFault.Wide (2 ^ length (content case.now).names - 1) w }
{
    match fault {
        OpenFault::Wide(wide) => ClosedFault::Wide((1 << case.size()) - 1, wide),
        OpenFault::NoMemory => ClosedFault::NoMemory,
    }
}

#[tactic(auto, unfolding(crate::specs::WeightsView::weight_at))]
impl WeightTable {
    ghost use Rattle.std.specs.Prelude.{◌≡◌, ◌≢◌, ◌<◌, ◌≤◌, ◌^◌, ◌⊎◌, ℕ, true, length, IfOk, IfErr};
    ghost use Rattle.field_core.specs.View.{terms};
    ghost use Rattle.case_model.specs.CaseView.{content};
    ghost use Rattle.entangled.specs.CaseNetView.{case_state};
    ghost use Rattle.entangled.specs.CaseRun.{case_size, case_level, is_live_in_case};
    ghost use Rattle.closed_test.specs.SetRuns.{AreRunsDefined};
    ghost use Rattle.closed_test.specs.SetWeights.{AreIntersectionWeights};
    ghost use Rattle.closed_test.specs.ClosedFaults.{IsClosedFault};
    ghost use Rattle.closed_test.specs.WeightsView.{weights_size, weight_at};

    /// Returns a table of zeros for `size` hypotheses.
    fn empty(alloc: Global, size: usize) -> Result<WeightTable, NoMemory>
        requires { size ≤ 16 }
        ensures { IfOk result (λ t. weights_size t ≡ size) }
    {
        let sets: usize = 1 << size;
        let weights = zeros(alloc, sets * MOST_HYPOTHESES)?;
        Ok(WeightTable { size, weights })
    }

    /// Returns the weights of all sets of a case.
    ///
    /// It is refused with `TooMany` if there are more than 16 hypotheses. Else, unless out of memory, it is refused with `Wide`
    /// exactly if the written run of some set is undefined. The fault then names the first such set in the order of sets.
    pub fn build(alloc: Global, case: &Case) -> Result<WeightTable, ClosedFault>
        ensures size { IfOk result (λ t. weights_size t ≡ length (content case.now).names) }
        ensures weights { IfOk result (λ t. AreIntersectionWeights (content case.now) (weight_at t)) }
        ensures defined { IfOk result (λ t. AreRunsDefined (content case.now)) }
        ensures fault { IfErr result (IsClosedFault (content case.now)) }
    {
        let size = case.size();
        if size > MOST_HYPOTHESES {
            return Err(ClosedFault::TooMany(size as u64));
        }
        let mut nets = match load_nets(alloc, case, size + 1) {
            Ok(nets) => nets,
            Err(fault) => return Err(opening_fault(case, fault)),
        };
        let mut path = Path::new(alloc, size)?;
        let mut table = WeightTable::empty(alloc, size)?;
        match walk(case, &mut nets, &mut path, &mut table) {
            Ok(()) => Ok(table),
            Err(wide) => Err(ClosedFault::Wide(path.set(), wide)),
        }
    }

    /// Returns how many hypotheses there are.
    pub fn size(&self) -> usize
        ensures size { result ≡ weights_size self.now }
        ensures few { result ≤ 16 }
    {
        self.size
    }

    /// Returns the weight of `k` in a set of which `k` is a member, and a fraction without meaning if it isn't. `k` is below 16.
    pub fn weight(&self, set: u32, k: usize) -> Fraction
        requires set { set < 2 ^ weights_size self.now }
        requires k { k < 16 }
        ensures { result ≡ weight_at self.now set k }
    {
        self.weights.as_slice()[set as usize * MOST_HYPOTHESES + k]
    }

    /// Puts the weight of `k` in a set. The others stay.
    fn put(&mut self, set: u32, k: usize, weight: Fraction)
        requires set { set < 2 ^ weights_size self.old }
        requires k { k < 16 }
        ensures size { weights_size self.new ≡ weights_size self.old }
        ensures put { weight_at self.new set k ≡ weight }
        ensures others { (n j : ℕ) → j < 16 → (n ≢ set) ⊎ (j ≢ k) → weight_at self.new n j ≡ weight_at self.old n j }
    {
        self.weights.set(set as usize * MOST_HYPOTHESES + k, weight);
    }

    /// Puts the weights of a set, given its nets: they are the levels of the remaining hypotheses. The weights of other sets stay.
    pub(crate) fn put_row(&mut self, set: u32, nets: &CaseNet)
        requires set { set < 2 ^ weights_size self.old }
        requires size { case_size (case_state nets.now) ≡ weights_size self.old }
        ensures size { weights_size self.new ≡ weights_size self.old }
        ensures row { (k : ℕ) → k < weights_size self.old → is_live_in_case (case_state nets.now) k ≡ true
            → terms (weight_at self.new set k) ≡ case_level (case_state nets.now) k }
        ensures others { (n k : ℕ) → k < 16 → n ≢ set → weight_at self.new n k ≡ weight_at self.old n k }
    {
        for k in 0..self.size {
            if nets.is_live(k) {
                self.put(set, k, nets.weight_limit(k));
            }
        }
    }
}
