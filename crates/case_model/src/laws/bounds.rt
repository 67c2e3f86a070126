//! Laws of the sets that the closed test rejects, and of bounds of true discoveries.

ghost use Rattle.case_model.specs.BoundStatements.{
  SetsAreRejectedByTheNextLarger,
  BoundsExist,
  BoundsAreUnique,
  ClosedTablesGiveClosedBounds,
  LargeSubsetsAreRejected,
};

/// The closed test rejects a set exactly if the local test rejects it and the closed test rejects it with any one hypothesis
/// more.
pub fn sets_are_rejected_by_the_next_larger()
    ensures { SetsAreRejectedByTheNextLarger }
{}

/// Each set has exactly one bound, and a table of what the closed test rejects has the bounds of the closed test.
pub fn bounds_exist()
    ensures exist { BoundsExist }
    ensures unique { BoundsAreUnique }
    ensures closed { ClosedTablesGiveClosedBounds }
{}

/// A bound is at most the size of the set. Each subset with more members than this size minus the bound is rejected.
pub fn bounds_count_true_discoveries()
    ensures { LargeSubsetsAreRejected }
{}
