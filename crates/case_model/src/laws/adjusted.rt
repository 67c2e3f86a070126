//! Laws of adjusted values.

ghost use Rattle.case_model.specs.CaseTestStatements.{CasesAreValidAtEachLevel};
ghost use Rattle.case_model.specs.AdjustedStatements.{AdjustedValuesDecide, AdjustedValuesAreUnique};

/// At each level from 0 to 1 the closed test rejects a hypothesis exactly if its adjusted value is reached and is at most the
/// level. Of no other value does this hold.
pub fn adjusted_values_decide()
    ensures decide { AdjustedValuesDecide }
    ensures unique { AdjustedValuesAreUnique }
{}

/// A case without stages is a case at each other level.
pub fn cases_are_valid_at_each_level()
    ensures { CasesAreValidAtEachLevel }
{}
