//! Named graphs.

/// The name of a graph.
#[derive(Clone, Copy, PartialEq, Eq, Debug)]
pub(crate) enum GraphName {
    Holm,
    FixedSequence,
    Fallback,
    Parallel,
    ImprovedParallel,
}

/// A named graph with its sizes: how many hypotheses there are, or how many primary and how many secondary ones.
#[derive(Clone, Copy, PartialEq, Eq, Debug)]
pub enum SizedGraph {
    Holm(u64),
    FixedSequence(u64),
    Fallback(u64),
    Parallel(u64, u64),
    ImprovedParallel(u64, u64),
}

impl GraphName {
    ghost use Rattle.std.specs.Prelude.{◌≡◌};
    ghost use Rattle.command_words.specs.Graphs.{sized, has_second};
    ghost use Rattle.command_words.specs.Table.{graph_named};

    /// Returns the graph of a name.
    #[tactic(auto, unfolding(crate::specs::Table::graph_named))]
    pub(crate) fn named(name: &str) -> Option<GraphName>
        ensures { result ≡ graph_named name.now }
    {
        match name {
            "holm" => Some(GraphName::Holm),
            "fixed-sequence" => Some(GraphName::FixedSequence),
            "fallback" => Some(GraphName::Fallback),
            "parallel" => Some(GraphName::Parallel),
            "improved-parallel" => Some(GraphName::ImprovedParallel),
            _ => None,
        }
    }

    /// Whether the graph has a second size.
    pub(crate) fn has_second(self) -> bool
        ensures { result ≡ has_second self }
    {
        matches!(self, GraphName::Parallel | GraphName::ImprovedParallel)
    }

    /// Returns the graph with its sizes; `None` if the second one is missing.
    pub(crate) fn sized(self, size: u64, second: Option<u64>) -> Option<SizedGraph>
        ensures { result ≡ sized self size second }
    {
        match self {
            GraphName::Holm => Some(SizedGraph::Holm(size)),
            GraphName::FixedSequence => Some(SizedGraph::FixedSequence(size)),
            GraphName::Fallback => Some(SizedGraph::Fallback(size)),
            GraphName::Parallel => Some(SizedGraph::Parallel(size, second?)),
            GraphName::ImprovedParallel => Some(SizedGraph::ImprovedParallel(size, second?)),
        }
    }
}
