//! Laws of the adjusted values of cases. Each function states a law that holds of all cases, and does nothing.

ghost use Rattle.adjusted_p.specs.AdjustedListStatements.{
  AdjustedValuesDecideCases,
  AdjustedListsAreUnique,
  WideRunsAreUnique,
  RunsStopAboveOne,
};

/// At each level from 0 to 1 the closed test rejects a hypothesis exactly if its adjusted value is reached and is at most the
/// level.
pub fn adjusted_values_decide_cases()
    ensures { AdjustedValuesDecideCases }
{}

/// A case has one list of adjusted values at most.
pub fn adjusted_lists_are_unique()
    ensures { AdjustedListsAreUnique }
{}

/// The written run of the adjusted values of a case is first undefined in at most one step and at most one operation.
pub fn wide_runs_are_unique()
    ensures { WideRunsAreUnique }
{}

/// At the level 1 the hypothesis with the least ratio is legal exactly if its ratio is at most 1. So the run stops at the first
/// least ratio above 1.
pub fn runs_stop_above_one()
    ensures { RunsStopAboveOne }
{}
