//! Laws of registers. Each function states laws that hold of all cases, and does nothing.

ghost use Rattle.study_register.specs.RegisterStatements.{
  OneMoreIsTaken,
  RepliesAreTaken,
  TakenLooksDecide,
  OrdersOfLooksAgree,
  ReopeningsAgree,
};
ghost use Rattle.study_register.specs.RegisterStatements.{
  TakenLooksAreNotStopped,
  StopsAreUnique,
  WideOpeningsTakeNothing,
  EachOpeningEnds,
  LooksHaveOneEnd,
  EachLookEnds,
};

/// Looks are requested, each of which is taken or refused. Then the rejections are exactly those of the staged closed test on
/// all looks that were taken, in whatever order they came. The same looks in the same order give the same rejections again.
pub fn registers_decide()
    ensures one_more { OneMoreIsTaken }
    ensures replies { RepliesAreTaken }
    ensures decide { TakenLooksDecide }
    ensures orders { OrdersOfLooksAgree }
    ensures again { ReopeningsAgree }
{}

/// The opening of a register has one end. Its looks are taken, or one of them is the first that can't be taken, for one reason, or
/// the opening of the case is undefined. For a valid case one of the three always holds.
pub fn openings_have_one_end()
    ensures taken { TakenLooksAreNotStopped }
    ensures stopped { StopsAreUnique }
    ensures opening { WideOpeningsTakeNothing }
    ensures each { EachOpeningEnds }
{}

/// A look is taken, refused for one reason, or stops part way at one place, and no two of the three hold. After looks that were
/// taken at a valid case one of the three always holds, if a look that names no hypothesis counts as refused.
pub fn looks_have_one_end()
    ensures one { LooksHaveOneEnd }
    ensures each { EachLookEnds }
{}
