//! Laws of Simes' test: it and its closed test reject at least what the tests by weights reject, and its bounds are not lower.

ghost use Rattle.simes_test.specs.SimesStatements.{
  LocalRejectionsAreOfSimes,
  ClosedRejectionsAreOfSimes,
  NoSimesBoundIsLower,
  SimesTablesGiveSimesBounds,
};

/// Simes' test rejects each set that the local test by weights rejects, and its closed test each set and each hypothesis that
/// the closed test rejects. Nothing is claimed of when either test is valid.
pub fn simes_rejects_more()
    ensures local { LocalRejectionsAreOfSimes }
    ensures closed { ClosedRejectionsAreOfSimes }
{}

/// No bound by the closed test of Simes' test is below that of the closed test. A table of the sets that it rejects gives its
/// bounds.
pub fn simes_bounds_are_no_lower()
    ensures lower { NoSimesBoundIsLower }
    ensures tables { SimesTablesGiveSimesBounds }
{}
