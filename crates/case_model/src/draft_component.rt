//! Components of drafts, and the tests of one component.
ghost use Rattle.std.specs.Prelude.{◌≡◌, ◌≤◌, true};
ghost use Rattle.std.specs.List.{list_all};
ghost use Rattle.case_model.specs.Draft.{goes_between};
ghost use Rattle.case_model.specs.CaseFaults.{long_weight, long_edge, weight_range, weight_sum, self_edge, repeated_edge, edge_range};

use crate::fraction_tests::{is_below_zero, is_short};
use crate::sums::total_fault;
use crate::{CaseFault, DraftEdge, PartPlace};
use field_core::{List, Place};
use fraction::Fraction;

/// A component of a draft: its share of the level, the weights of the hypotheses, and its edges in any order.
#[derive(Drop)]
pub struct DraftComponent {
    pub share: Fraction,
    pub weights: List<Fraction>,
    pub edges: List<DraftEdge>,
}

impl DraftComponent {
    /// Whether each edge goes from one of `count` hypotheses to one of them.
    pub(crate) fn has_known_ends(&self, count: usize) -> bool
        ensures { result ≡ list_all (goes_between count) self.now.edges }
    {
        self.edges.iter().all(|edge| edge.goes_between(count))
    }

    /// Returns the fault of the first weight with a part above 10^18.
    #[tactic(auto, unfolding(crate::specs::CaseFaults::long_weight, crate::specs::CaseFaults::first_from), using(crate::proofs::FirstFaults::walks))]
    pub(crate) fn long_weight(&self, c: usize) -> Option<CaseFault>
        ensures { result ≡ long_weight c self.now }
    {
        let weights = self.weights.as_slice();
        for i in 0..weights.len() {
            if !is_short(&weights[i]) {
                return Some(CaseFault::PartTooLong(PartPlace::Weight(c, i)));
            }
        }
        None
    }

    /// Returns the fault of the first edge with a part above 10^18.
    #[tactic(auto, unfolding(crate::specs::CaseFaults::long_edge, crate::specs::CaseFaults::first_from), using(crate::proofs::FirstFaults::walks))]
    pub(crate) fn long_edge(&self, c: usize) -> Option<CaseFault>
        ensures { result ≡ long_edge c self.now }
    {
        let edges = self.edges.as_slice();
        for n in 0..edges.len() {
            let edge = &edges[n];
            if !edge.entry.is_short() {
                let place = PartPlace::Edge(c, edge.from, edge.to);
                return Some(CaseFault::PartTooLong(place));
            }
        }
        None
    }

    /// Returns the fault of the first weight below 0.
    #[tactic(auto, unfolding(crate::specs::CaseFaults::weight_range, crate::specs::CaseFaults::first_from), using(crate::proofs::FirstFaults::walks))]
    pub(crate) fn weight_range(&self, c: usize) -> Option<CaseFault>
        ensures { result ≡ weight_range c self.now }
    {
        let weights = self.weights.as_slice();
        for i in 0..weights.len() {
            if is_below_zero(&weights[i]) {
                return Some(CaseFault::WeightRange(c, i));
            }
        }
        None
    }

    /// Returns the fault of the sum of the weights.
    #[tactic(auto, unfolding(crate::specs::CaseFaults::weight_sum, crate::specs::Sums::ratio_at), using(std::proofs::lemmas::List::get_or_default))]
    pub(crate) fn weight_sum(&self, c: usize) -> Option<CaseFault>
        ensures { result ≡ weight_sum c self.now }
    {
        let weights = self.weights.as_slice();
        let above = CaseFault::WeightSum(c);
        total_fault(weights.len(), |i| weights[i], c, Place::WeightSum, above)
    }

    /// Returns the fault of the first edge from a hypothesis to itself that isn't 0.
    #[tactic(auto, unfolding(crate::specs::CaseFaults::self_edge, crate::specs::CaseFaults::first_from), using(crate::proofs::FirstFaults::walks))]
    pub(crate) fn self_edge(&self, c: usize) -> Option<CaseFault>
        ensures { result ≡ self_edge c self.now }
    {
        let edges = self.edges.as_slice();
        for n in 0..edges.len() {
            let edge = &edges[n];
            if edge.is_self_edge() {
                return Some(CaseFault::SelfEdge(c, edge.from));
            }
        }
        None
    }

    /// Returns the fault of the first edge with the ends of an earlier one.
    #[tactic(auto, unfolding(crate::specs::CaseFaults::repeated_edge))]
    pub(crate) fn repeated_edge(&self, c: usize, count: usize) -> Option<CaseFault>
        requires few { count ≤ 64 }
        requires ends { list_all (goes_between count) self.now.edges ≡ true }
        ensures { result ≡ repeated_edge c self.now }
    {
        let edges = self.edges.as_slice();
        let mut seen = [false; 4096];
        for n in 0..edges.len() {
            let edge = &edges[n];
            let place = edge.place(count);
            if seen[place] {
                return Some(CaseFault::RepeatedEdge(c, edge.from, edge.to));
            }
            seen[place] = true;
        }
        None
    }

    /// Returns the fault of the first edge that isn't from 0 to 1.
    #[tactic(auto, unfolding(crate::specs::CaseFaults::edge_range, crate::specs::CaseFaults::first_from), using(crate::proofs::FirstFaults::walks))]
    pub(crate) fn edge_range(&self, c: usize) -> Option<CaseFault>
        ensures { result ≡ edge_range c self.now }
    {
        let edges = self.edges.as_slice();
        for n in 0..edges.len() {
            let edge = &edges[n];
            if !edge.entry.is_unit() {
                return Some(CaseFault::EdgeRange(c, edge.from, edge.to));
            }
        }
        None
    }
}
