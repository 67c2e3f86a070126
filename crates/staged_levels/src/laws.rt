//! Laws of studies. Each function states laws that hold of all cases, and does nothing.

ghost use Rattle.staged_levels.specs.StudyStatements.{
  CallsLeaveStudies,
  ValuesAreAccepted,
  RejectionsStay,
  StudiesHaveLegalOrders,
  StudiesRejectByTheStagedTest,
  SettledStudiesDecide,
  SettledStudiesAgree,
  SettlingDecides,
  LooksDecide,
  SettlingsOfStudiesAreUnique,
};

/// Whatever calls are made on a study, its rejections are a legal order on the values that have arrived, and the staged
/// closed test rejects each of them.
pub fn studies_reject_by_the_staged_test()
    ensures calls { CallsLeaveStudies }
    ensures order { StudiesHaveLegalOrders }
    ensures sound { StudiesRejectByTheStagedTest }
{}

/// Once a study is settled, its rejections are exactly those of the staged closed test, whatever the order of its calls.
pub fn settled_studies_decide()
    ensures decide { SettledStudiesDecide }
    ensures agree { SettledStudiesAgree }
    ensures calls { SettlingDecides }
{}

/// The looks at a case reject exactly the hypotheses that the staged closed test rejects on the p-values that arrived.
pub fn looks_decide()
    ensures { LooksDecide }
{}

/// The values of a study are those of the accepted arrivals, and no call takes a rejection back.
pub fn calls_take_nothing_back()
    ensures values { ValuesAreAccepted }
    ensures rejections { RejectionsStay }
{}

/// A study has one settling at most: the same rejections in the same order, with the same stages and weights.
pub fn settlings_are_unique()
    ensures { SettlingsOfStudiesAreUnique }
{}
