//! Small graphs: what the definition of component weights means, for any weights.

ghost use Rattle.textbook.specs.Examples.{WeightsStayWithoutEdges, ArrowPassesItsPart, ClosedPairKeepsItsWeight};

/// Without edges each hypothesis has its own weight, in each set.
pub fn weights_stay_without_edges()
    ensures { WeightsStayWithoutEdges }
{}

/// A single edge passes on its part of a weight.
pub fn arrow_passes_its_part()
    ensures { ArrowPassesItsPart }
{}

/// If two hypotheses pass all their weight to each other, a third one gets nothing from them.
pub fn closed_pair_keeps_its_weight()
    ensures { ClosedPairKeepsItsWeight }
{}
