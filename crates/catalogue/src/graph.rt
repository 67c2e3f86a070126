//! Graphs that have names.

use case_model::Entry;
use fraction::Fraction;

/// A graph by its number of hypotheses, their weights and its edges.
pub trait NamedGraph {
    ghost use Rattle.std.specs.Prelude.{◌≡◌, ◌<◌};
    ghost use Rattle.catalogue.specs.WeightedGraphs.{WeightedGraph};

    ghost graph: { Self → WeightedGraph };

    /// Returns how many hypotheses there are.
    fn size(&self) -> usize
        ensures { result ≡ (graph self.now).size };

    /// Returns the weight of the hypothesis at a position.
    fn weight(&self, i: usize) -> Fraction
        requires { i < (graph self.now).size }
        ensures { result ≡ (graph self.now).weight i };

    /// Returns the edge from a hypothesis to a hypothesis, if there is one.
    fn edge(&self, from: usize, to: usize) -> Option<Entry>
        requires from { from < (graph self.now).size }
        requires to { to < (graph self.now).size }
        ensures { result ≡ (graph self.now).edge from to };
}
