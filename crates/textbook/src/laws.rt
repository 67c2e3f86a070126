//! Laws of written runs on the graphs of textbook rules. Each function states laws, and does nothing.

ghost use Rattle.textbook.specs.TextbookRuns.{HolmRemovalsAreDefined, SequenceRemovalsAreDefined, FallbackRemovalsAreDefined};
ghost use Rattle.textbook.specs.TextbookRuns.{GatekeepingRemovalsAreDefined};
ghost use Rattle.textbook.specs.DefinedDecisions.{HolmDecisionsAreDefined, SequenceDecisionsAreDefined, FallbackDecisionsAreDefined};
ghost use Rattle.textbook.specs.DefinedDecisions.{GatekeepingDecisionsAreDefined};
ghost use Rattle.textbook.specs.Gatekeeping.{GatekeepingGraphsDecideAsGatekeeping};

/// On the graphs of Holm's rule, of the fixed sequence, of fallback and of parallel gatekeeping no removal and no level is
/// refused, in whatever order hypotheses are removed. The weights of fallback have a common denominator of at most 100,000,000.
#[tactic(auto, using(crate::proofs::HolmRuns::holm_removals, crate::proofs::SequenceRuns::sequence_removals))]
pub fn textbook_removals_are_defined()
    ensures holm { HolmRemovalsAreDefined }
    ensures sequence { SequenceRemovalsAreDefined }
    ensures fallback { FallbackRemovalsAreDefined }
    ensures gatekeeping { GatekeepingRemovalsAreDefined }
{}

/// On cases of these graphs, without epsilon, no decision by any priority is too wide, and no adjusted values are.
#[tactic(auto, using(crate::proofs::NeverWide::holm_decisions, crate::proofs::NeverWide::sequence_decisions))]
pub fn textbook_decisions_are_defined()
    ensures holm { HolmDecisionsAreDefined }
    ensures sequence { SequenceDecisionsAreDefined }
    ensures fallback { FallbackDecisionsAreDefined }
    ensures gatekeeping { GatekeepingDecisionsAreDefined }
{}

/// On the graph of parallel gatekeeping the closed test rejects exactly what the rule rejects. The rule tests each primary
/// hypothesis at its part of the level, and passes the parts of those that are rejected to the secondary ones, which Holm's
/// rule tests.
pub fn gatekeeping_graphs_decide_as_the_rule()
    ensures { GatekeepingGraphsDecideAsGatekeeping }
{}
