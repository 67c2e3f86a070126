//! Laws of what is printed. Each function states a law that holds of all cases, and does nothing.

ghost use Rattle.report.specs.ReportStatements.{DecisionsAreOfTheirCases, LooksAreOfTheirCases};

/// Each line of the decision on a case is of a hypothesis of the case, so `test_text` prints its name.
pub fn decisions_are_of_their_cases()
    ensures { DecisionsAreOfTheirCases }
{}

/// There is a look for each arrival of a case, and each rejection in a look is of a hypothesis of the case. So `stages_text` prints
/// each look, and the name in each rejection.
pub fn looks_are_of_their_cases()
    ensures { LooksAreOfTheirCases }
{}
