//! Laws of the graphs that are printed. Each function states laws, and does nothing.
ghost use Rattle.graph_update.specs.UpdateLaws.{UpdatesSayWeights, LevelsAgreeInEveryOrder, EdgesAgreeInEveryOrder};

/// The text of the graph after removals ends with a line for each hypothesis that isn't removed. It has the weight in the
/// intersection of those that aren't removed, in lowest terms. These lines are the same in every order in which no removal is
/// undefined.
pub fn printed_levels_are_weights()
    ensures weights { UpdatesSayWeights }
    ensures orders { LevelsAgreeInEveryOrder }
{}

/// The edges between hypotheses that aren't removed are the same by value in every order in which no removal is undefined.
pub fn edges_agree_in_every_order()
    ensures { EdgesAgreeInEveryOrder }
{}
