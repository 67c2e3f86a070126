//! Laws of what hypotheses spend at stages, and of the staged test.

ghost use Rattle.case_model.specs.DraftStatements.{SpendsOfCasesRise, FractionsOfCasesAreShort};
ghost use Rattle.case_model.specs.StagedStatements.{
  SpendLevelsAreNondecreasing,
  LastStepsAreReached,
  TwoStepsGiveTheirLevels,
  StagedTestsAreMonotone,
  ArrivalsKeepWhatIsLegal,
  StagedOrdersDecide,
  SettlingsExist,
  SettlingsAreUnique,
};

/// What is spent in a case isn't below 0, and doesn't fall from step to step; fractions have parts of at most 10,000.
#[tactic(auto, using(crate::proofs::SpendsRise::spends_rise, crate::proofs::SpendsRise::spends_short))]
pub fn spends_of_cases_rise()
    ensures rise { SpendsOfCasesRise }
    ensures short { FractionsOfCasesAreShort }
{}

/// The level of a stage doesn't fall as the weight grows; in a table it is that of the last step that the weight reaches.
pub fn spend_levels_are_nondecreasing()
    ensures levels { SpendLevelsAreNondecreasing }
    ensures steps { LastStepsAreReached }
    ensures two { TwoStepsGiveTheirLevels }
{}

/// What is legal at stages stays legal at a greater weight and once more values have arrived. Complete legal orders have
/// exactly the hypotheses that the staged closed test rejects.
pub fn staged_orders_decide()
    ensures weights { StagedTestsAreMonotone }
    ensures arrivals { ArrivalsKeepWhatIsLegal }
    ensures decide { StagedOrdersDecide }
{}

/// From each set on there is exactly one settling.
pub fn settlings_exist()
    ensures exist { SettlingsExist }
    ensures unique { SettlingsAreUnique }
{}
