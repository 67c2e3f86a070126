//! Laws of cases, of entangled graphs and of the closed test. Each function states laws that hold of all valid
//! entangled graphs, and does nothing.

pub mod adjusted;
pub mod bounds;
pub mod staged;

ghost use Rattle.case_model.specs.CaseStatements.{EntangledGraphsAreValid};
ghost use Rattle.case_model.specs.ClosedTestStatements.{
  SetsAreRejectedByTheirSupersets,
  HypothesesAreRejectedByTheirSets,
  RejectionsStayAtGreaterLevels,
  RejectionsStayAtLesserPValues,
  LegalOrdersAreRejected,
  CompleteListsHaveAllRejected,
  CompleteOrdersDecide,
  CompleteOrdersAgree,
  FirstOrdersAreComplete,
  LastOrdersAreComplete,
  RatioOrdersAreComplete,
  FirstOrdersExist,
  LastOrdersExist,
  RatioOrdersExist,
  FirstOrdersAreUnique,
  LastOrdersAreUnique,
  RatioOrdersAreUnique,
};
ghost use Rattle.case_model.specs.DraftStatements.{DraftsAreFaultlessWhereValid};
ghost use Rattle.case_model.specs.IntersectionStatements.{
  IntersectionWeightsExist,
  IntersectionWeightsAreUnique,
  IntersectionWeightsAreUnit,
  IntersectionWeightsSumToOne,
  IntersectionWeightsAreLeftByRemovals,
  IntersectionWeightsAreMonotone,
};

/// A draft whose edges and arrivals are of its hypotheses has no fault exactly if its content is valid and it is one case.
pub fn faultless_drafts_are_valid()
    ensures { DraftsAreFaultlessWhereValid }
{}

/// The entangled graph of a case is valid. Weights, edges and shares aren't below 0, and no hypothesis passes weight to itself.
/// The weights, each row of edges and the shares sum to at most 1.
pub fn entangled_graphs_are_valid()
    ensures { EntangledGraphsAreValid }
{}

/// Each member of each set has exactly one intersection weight.
pub fn intersection_weights_exist()
    ensures exist { IntersectionWeightsExist }
    ensures unique { IntersectionWeightsAreUnique }
{}

/// Intersection weights are from 0 to 1, and those of a set sum to at most 1.
pub fn intersection_weights_are_weights()
    ensures range { IntersectionWeightsAreUnit }
    ensures total { IntersectionWeightsSumToOne }
{}

/// Intersection weights are what removals leave, in whatever order.
pub fn intersection_weights_are_left_by_removals()
    ensures { IntersectionWeightsAreLeftByRemovals }
{}

/// Intersection weights don't fall when the set shrinks.
pub fn intersection_weights_are_monotone()
    ensures { IntersectionWeightsAreMonotone }
{}

/// The closed test rejects a set with a member, or a hypothesis, exactly if the local test rejects all sets that contain it.
pub fn closed_rejections_are_of_all_supersets()
    ensures sets { SetsAreRejectedByTheirSupersets }
    ensures hypotheses { HypothesesAreRejectedByTheirSets }
{}

/// What is rejected at a level is rejected at each greater one.
pub fn rejections_stay_at_greater_levels()
    ensures { RejectionsStayAtGreaterLevels }
{}

/// What is rejected stays rejected where p-values fall and none rises.
pub fn rejections_stay_at_lesser_p_values()
    ensures { RejectionsStayAtLesserPValues }
{}

/// At a level from 0 to 1, a complete legal order has exactly the hypotheses that the closed test rejects, whichever
/// order it is.
pub fn complete_orders_decide()
    ensures legal { LegalOrdersAreRejected }
    ensures complete { CompleteListsHaveAllRejected }
    ensures decide { CompleteOrdersDecide }
    ensures agree { CompleteOrdersAgree }
{}

/// The order of each priority is a complete legal order.
pub fn priority_orders_are_complete()
    ensures first { FirstOrdersAreComplete }
    ensures last { LastOrdersAreComplete }
    ensures ratio { RatioOrdersAreComplete }
{}

/// Each priority has exactly one order.
pub fn priority_orders_exist()
    ensures first { FirstOrdersExist }
    ensures last { LastOrdersExist }
    ensures ratio { RatioOrdersExist }
    ensures one_first { FirstOrdersAreUnique }
    ensures one_last { LastOrdersAreUnique }
    ensures one_ratio { RatioOrdersAreUnique }
{}
