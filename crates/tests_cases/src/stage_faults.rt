//! Stages that are refused, and levels that are met, in lines (`lines.rt`).
//!
//! The denominators of ten fractions are primes near 10,000: the product of nine is below 2^127, that of all is above.
use crate::rows::Terms;
use case_model::{CaseFault, PartPlace};
use field_core::{Op, Place, WideAt};

const WIDE_SECOND: CaseFault = CaseFault::Wide(WideAt {
    component: 0,
    place: Place::SpendSum(1),
    op: Op::Add,
});

/// Stages of `TWO` with a fault of each row of the table of faults, and where both can be, with a fault of a later row too.
pub const STAGES: &[(&str, CaseFault)] = table! {
    // Long parts: fractions, then steps, then p-values; before all else.
    ("stages 0\n table H1\n step H1 1/1000000000000000001 0\n spend H2 1 1/10001",
     CaseFault::PartTooLong(PartPlace::Spend(1, 1))),
    ("stages 2\n spend H1 1/2 1/2\n spend H2 1/2 1/2\n spend H3 10001", CaseFault::PartTooLong(PartPlace::Spend(2, 0))),
    ("stages 2\n table H1\n step H1 1/2 1/100 3/200\n step H1 1 1/50 3/100\n table H2\n step H2 1 0 0\n\
      step H2 1/1000000000000000001 0 0\n arrive H1 1 1/1000000000000000000000000000001",
     CaseFault::PartTooLong(PartPlace::Step(1, 1))),
    ("stages 2\n table H1\n step H1 1/1000000000000000000 0 1/1000000000000000001\n spend H2 1/2 1/2",
     CaseFault::PartTooLong(PartPlace::Step(0, 0))),
    ("stages 13\n spend H1 1/2 1/2\n spend H2 1/2 1/2\n arrive H1 1 0\n arrive H1 1 1/1000000000000000000000000000001",
     CaseFault::PartTooLong(PartPlace::Arrival(1))),
    // Places of single p-values.
    ("p 1 1\n stages 0\n spend H1 1/2 1/2\n spend H2 1/2 1/2", CaseFault::Mixed),
    ("p - -\n stages 2\n spend H1 1/2 1/2\n spend H2 1/2 1/2", CaseFault::Mixed),
    ("p 2\n stages 2\n spend H1 1/2 1/2\n spend H2 1/2 1/2", CaseFault::Mixed),
    // The number of stages.
    ("stages 0", CaseFault::NoStage),
    ("stages 13", CaseFault::TooManyStages(13)),
    ("stages 18446744073709551615\n spend H1 1/2 1/2\n spend H2 1/2 1/2", CaseFault::TooManyStages(18_446_744_073_709_551_615)),
    // What each hypothesis spends, and no other.
    ("stages 2", CaseFault::SpendCount(0)),
    ("stages 2\n table H1 33\n step H1 1 0 0", CaseFault::SpendCount(1)),
    ("stages 2\n spend H1 1/2 1/2\n spend H2 1/2 1/2\n spend H3 1/2 1/2", CaseFault::SpendCount(2)),
    ("stages 2\n spend H1 1/2 1/2\n spend H2 1", CaseFault::SpendCount(1)),
    ("stages 2\n spend H1 0 0 0\n spend H2", CaseFault::SpendCount(0)),
    ("stages 2\n spend H1 1/2 1/2\n table H2", CaseFault::SpendCount(1)),
    ("stages 2\n table H1\n step H1 1/2 1/100 3/200\n step H1 1 1/50 3/100\n table H2\n step H2 1/2 0 0\n step H2 1 0",
     CaseFault::SpendCount(1)),
    // The number of steps.
    ("stages 2\n table H1\n step H1 0 0 0\n table H2 33\n step H2 1 0 0", CaseFault::TooManySteps(1, 33)),
    // The order of the steps.
    ("stages 2\n spend H1 -1/2 1\n table H2\n step H2 0 0 0", CaseFault::StepOrder(1, 0)),
    ("stages 2\n table H1\n step H1 -1/2 0 0\n step H1 1 0 0\n spend H2 1/2 1/2", CaseFault::StepOrder(0, 0)),
    ("stages 2\n table H1\n step H1 1 0 0\n step H1 10/9 0 0\n spend H2 1/2 1/2", CaseFault::StepOrder(0, 1)),
    ("stages 2\n spend H1 1/2 1/2\n table H2\n step H2 1/3 0 0\n step H2 1/3 0 0\n step H2 1 0 0", CaseFault::StepOrder(1, 1)),
    ("stages 2\n spend H1 1/2 1/2\n table H2\n step H2 1/3 0 0\n step H2 1/2 0 0\n step H2 2/5 0 0",
     CaseFault::StepOrder(1, 2)),
    // What is spent at each stage.
    ("stages 2\n spend H1 1/2 1/2\n spend H2 3/2 -1/2", CaseFault::SpendRange(1, 1)),
    ("stages 2\n table H1\n step H1 1 -1/100 1/100\n spend H2 1/2 1/2", CaseFault::SpendRange(0, 0)),
    ("stages 2\n table H1\n step H1 1/2 1/100 3/200\n step H1 1 1/200 3/100\n spend H2 1/2 1/2", CaseFault::SpendRange(0, 0)),
    ("stages 2\n spend H1 1/2 1/2\n table H2\n step H2 1/2 1/100 -1\n step H2 1 0 1/100", CaseFault::SpendRange(1, 1)),
    ("stages 2\n spend H1 1 1\n spend H2 -1/2 0", CaseFault::SpendRange(1, 0)),
    // The sums.
    ("stages 2\n spend H1 1/2 1/2\n spend H2 1/2 5001/10000\n arrive H1 0 0", CaseFault::SpendSum(1)),
    ("stages 2\n table H1\n step H1 1/2 1/100 3/200\n step H1 1 3/100 3/100\n spend H2 1/2 1/2", CaseFault::SpendSum(0)),
    ("stages 2\n spend H1 1/2 1/2\n table H2\n step H2 1/3 1/100 1/100\n step H2 1 1/100 1/100", CaseFault::SpendSum(1)),
    ("stages 10\n spend H1 1/10 1/10 1/10 1/10 1/10 1/10 1/10 1/10 1/10 1/10\n\
      spend H2 1/9973 1/9967 1/9949 1/9941 1/9931 1/9929 1/9923 1/9907 1/9901 1/9887\n arrive H1 0 0", WIDE_SECOND),
    ("stages 4\n spend H1 1/4 1/4 1/4 1/4\n table H2\n step H2 1/2 1/1000000000000000000 1/999999999999999999 0 0\n\
      step H2 1 1/1000000000000000000 1/999999999999999999 1/999999999999999997 1", WIDE_SECOND),
    ("stages 3\n spend H1 1 1 0\n table H2\n step H2 1 1/1000000000000000000 1/999999999999999999 1/999999999999999997",
     CaseFault::SpendSum(0)),
    // The p-values that arrived.
    ("stages 2\n spend H1 1/2 1/2\n spend H2 1/2 1/2\n arrive H1 1 0\n arrive H1 1 0\n arrive H2 3 2\n arrive H2 0 0",
     CaseFault::ArrivalStage(2)),
    ("stages 2\n spend H1 1/2 1/2\n spend H2 1/2 1/2\n arrive H2 0 0", CaseFault::ArrivalStage(0)),
    ("stages 1\n spend H1 1\n spend H2 0\n arrive H1 1 1\n arrive H2 2 1", CaseFault::ArrivalStage(1)),
    ("stages 2\n spend H1 1/2 1/2\n spend H2 1/2 1/2\n arrive H1 1 2\n arrive H1 2 1\n arrive H2 1 1\n arrive H1 2 0",
     CaseFault::ArrivalRepeated(3)),
    ("stages 2\n spend H1 1/2 1/2\n spend H2 1/2 1/2\n arrive H2 2 1\n arrive H2 2 1\n arrive H2 2 1",
     CaseFault::ArrivalRepeated(1)),
    ("stages 2\n spend H1 1/2 1/2\n spend H2 1/2 1/2\n arrive H1 1 1\n arrive H1 2 -1/100", CaseFault::ArrivalRange(1)),
    ("stages 2\n spend H1 1/2 1/2\n spend H2 1/2 1/2\n arrive H1 1 101/100\n arrive H1 2 1", CaseFault::ArrivalRange(0)),
};

/// Half of the level at each of two stages.
const EVEN: &str = "spend H1 1/2 1/2";

/// All of the level at the second stage.
const LATER: &str = "spend H1 0 1";

/// The least fraction of the level at the first stage.
const LITTLE: &str = "spend H1 1/10000 1";

/// At two stages, levels that sum to 1/40 from the weight 1/2 on, and to 1/20 from the weight 1 on.
const TABLE: &str = "table H1\n step H1 1/2 1/100 3/200\n step H1 1 1/50 3/100";

/// A level above 0 at the second stage, from the weight 1 on.
const LATER_TABLE: &str = "table H1\n step H1 1/2 0 0\n step H1 1 0 1/100";

const NONE: Terms = (0, 1);

const ONE: Terms = (1, 1);

const FIRST: Terms = (1, 1_000_000_000_000_000_000);

/// What is spent, a stage, a weight, a p-value, and whether it meets the level of the stage there, at the level 1/20.
pub const MET: &[(&str, usize, Terms, Terms, bool)] = table! {
    // Half of 1/2 * 1/20 is 1/80.
    (EVEN, 1, (1, 2), (1, 80), true),
    (EVEN, 1, (1, 2), (1, 79), false),
    (EVEN, 2, (1, 2), NONE, true),
    (EVEN, 2, ONE, (1, 40), true),
    (EVEN, 2, ONE, (1, 39), false),
    // The weight is 0.
    (EVEN, 1, NONE, NONE, false),
    // The fraction is 0.
    (LATER, 1, ONE, NONE, false),
    (LATER, 2, ONE, (1, 20), true),
    // The least parts.
    (LITTLE, 1, FIRST, (1, 1_000_000_000_000_000_000_000_000_000_000), true),
    (LITTLE, 1, (1, 1_000_000_000_000_000_000_000_000), (1, 1_000_000_000_000_000_000_000_000_000_000), true),
    (LITTLE, 1, (1, 10_000_000_000_000_000_000_000_000), (1, 1_000_000_000_000_000_000_000_000_000_000), false),
    // The last step that the weight reaches.
    (TABLE, 1, (1, 3), NONE, false),
    (TABLE, 1, (1, 2), (1, 100), true),
    (TABLE, 1, (1, 2), (1, 50), false),
    (TABLE, 1, (99, 100), (1, 50), false),
    (TABLE, 1, ONE, (1, 50), true),
    (TABLE, 2, ONE, (3, 100), true),
    (TABLE, 2, ONE, (31, 1000), false),
    (TABLE, 2, (3, 4), (3, 200), true),
    // A level of 0 in the step that counts.
    (LATER_TABLE, 1, ONE, NONE, false),
    (LATER_TABLE, 2, (1, 2), NONE, false),
    (LATER_TABLE, 2, ONE, (1, 100), true),
};
