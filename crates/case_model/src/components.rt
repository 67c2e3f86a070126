//! The tests of the components of a draft.
ghost use Rattle.std.specs.Prelude.{◌≡◌, ◌≤◌, ◌<◌, length, get_or, true};
ghost use Rattle.std.specs.List.{list_all};
ghost use Rattle.case_model.specs.declared.draft_component.DraftComponent.{DraftComponent};
ghost use Rattle.case_model.specs.Draft.{goes_between};
ghost use Rattle.case_model.specs.CaseFaults.{
  ◌or◌,
  first_of,
  components_fault,
  long_share,
  long_weight,
  long_edge,
  share_range,
  share_sum,
  shares_fault,
  weight_count,
  weights_fault,
  self_edge,
  repeated_edge,
  edges_fault,
};

use crate::first_faults::first_fault;
use crate::fraction_tests::{is_below_zero, is_short};
use crate::sums::total_fault;
use crate::{CaseFault, DraftComponent, PartPlace};
use field_core::Place;

/// Returns the fault of the number of components.
#[tactic(auto, unfolding(crate::specs::CaseFaults::components_fault, crate::specs::CaseFaults::no_component, crate::specs::CaseFaults::too_many_components))]
pub fn components_fault(components: &[DraftComponent]) -> Option<CaseFault>
    ensures { result ≡ components_fault components.now }
{
    let count = components.len() as u64;
    if count == 0 {
        return Some(CaseFault::NoComponent);
    }
    (count > 8).then_some(CaseFault::TooManyComponents(count))
}

/// Returns the fault of the first share with a part above 10^18.
#[tactic(auto, unfolding(crate::specs::CaseFaults::long_share, crate::specs::CaseFaults::first_from), using(crate::proofs::FirstFaults::walks))]
fn long_share(components: &[DraftComponent]) -> Option<CaseFault>
    ensures { result ≡ long_share components.now }
{
    for c in 0..components.len() {
        if !is_short(&components[c].share) {
            return Some(CaseFault::PartTooLong(PartPlace::Share(c)));
        }
    }
    None
}

/// Returns the fault of the first share, or else the first weight, or else the first edge, with a part above 10^18.
pub fn long_part(components: &[DraftComponent]) -> Option<CaseFault>
    ensures { result ≡ (long_share components.now or first_of long_weight components.now or first_of long_edge components.now) }
{
    long_share(components)
        .or_else(|| first_fault(components, DraftComponent::long_weight))
        .or_else(|| first_fault(components, DraftComponent::long_edge))
}

/// Returns the fault of the first share below 0.
#[tactic(auto, unfolding(crate::specs::CaseFaults::share_range, crate::specs::CaseFaults::first_from), using(crate::proofs::FirstFaults::walks))]
fn share_range(components: &[DraftComponent]) -> Option<CaseFault>
    ensures { result ≡ share_range components.now }
{
    for c in 0..components.len() {
        if is_below_zero(&components[c].share) {
            return Some(CaseFault::ShareRange(c));
        }
    }
    None
}

/// Returns the fault of the sum of the shares.
#[tactic(auto, unfolding(crate::specs::CaseFaults::share_sum, crate::specs::Sums::ratio_at), using(std::proofs::lemmas::List::get_or_default))]
fn share_sum(components: &[DraftComponent]) -> Option<CaseFault>
    ensures { result ≡ share_sum components.now }
{
    let above = CaseFault::ShareSum;
    total_fault(
        components.len(),
        |c| components[c].share,
        0,
        Place::ShareSum,
        above,
    )
}

/// Returns the first fault of the shares.
#[tactic(auto, unfolding(crate::specs::CaseFaults::shares_fault))]
pub fn shares_fault(components: &[DraftComponent]) -> Option<CaseFault>
    ensures { result ≡ shares_fault components.now }
{
    share_range(components).or_else(|| share_sum(components))
}

/// Returns the fault of the first component that hasn't `count` weights.
#[tactic(auto, unfolding(crate::specs::CaseFaults::weight_count, crate::specs::CaseFaults::first_from), using(crate::proofs::FirstFaults::walks))]
fn weight_count(count: usize, components: &[DraftComponent]) -> Option<CaseFault>
    ensures { result ≡ weight_count count components.now }
{
    for c in 0..components.len() {
        if components[c].weights.len() != count {
            return Some(CaseFault::WeightCount(c));
        }
    }
    None
}

/// Returns the first fault of the weights of a number of hypotheses.
#[tactic(auto, unfolding(crate::specs::CaseFaults::weights_fault))]
pub fn weights_fault(count: usize, components: &[DraftComponent]) -> Option<CaseFault>
    ensures { result ≡ weights_fault count components.now }
{
    weight_count(count, components)
        .or_else(|| first_fault(components, DraftComponent::weight_range))
        .or_else(|| first_fault(components, DraftComponent::weight_sum))
}

/// Returns the fault of the first edge of a component from a hypothesis to itself that isn't 0.
fn self_edges(components: &[DraftComponent]) -> Option<CaseFault>
    ensures { result ≡ first_of self_edge components.now }
{
    first_fault(components, DraftComponent::self_edge)
}

/// Returns the fault of the first edge of the component at a place with the ends of an earlier one.
fn repeated_edge(count: usize, components: &[DraftComponent], c: usize) -> Option<CaseFault>
    requires few { count ≤ 64 }
    requires ends { list_all (λ k. list_all (goes_between count) k.edges) components.now ≡ true }
    requires within { c < length components.now }
    ensures { (d : DraftComponent) → result ≡ repeated_edge c (get_or components.now c d) }
{
    components[c].repeated_edge(c, count)
}

/// Returns the fault of the first edge of a component with the ends of an earlier one.
#[tactic(auto, unfolding(crate::specs::CaseFaults::first_from), using(crate::proofs::FirstFaults::walks))]
fn repeated_edges(count: usize, components: &[DraftComponent]) -> Option<CaseFault>
    requires few { count ≤ 64 }
    requires ends { list_all (λ k. list_all (goes_between count) k.edges) components.now ≡ true }
    ensures { result ≡ first_of repeated_edge components.now }
{
    for c in 0..components.len() {
        let fault = repeated_edge(count, components, c);
        if fault.is_some() {
            return fault;
        }
    }
    None
}

/// Returns the first fault of the edges between this number of hypotheses, one by one.
#[tactic(auto, unfolding(crate::specs::CaseFaults::edges_fault))]
pub fn edges_fault(count: usize, components: &[DraftComponent]) -> Option<CaseFault>
    requires few { count ≤ 64 }
    requires ends { list_all (λ k. list_all (goes_between count) k.edges) components.now ≡ true }
    ensures { result ≡ edges_fault components.now }
{
    self_edges(components)
        .or_else(|| repeated_edges(count, components))
        .or_else(|| first_fault(components, DraftComponent::edge_range))
}
