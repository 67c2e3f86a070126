//! Drafts with faults, in lines (`lines.rt`).
//!
//! The denominators 10^18, 10^18 - 1 and 10^18 - 3 have no common factors. Their product is near 10^54, so that the sum
//! of 1 over the first two can be written, near 10^-18, and that of 1 over all three can't. 167 and 173 are primes that
//! don't divide the first two. 167 times their product is below 2^127, which is near 1.7014 times 10^38, and 173 times it
//! is above. The least denominator that is too long is 10^18 + 1, and that of a p-value 10^30 + 1.
use case_model::{CaseFault, PartPlace};
use field_core::{Op, Place, WideAt};

/// Two hypotheses without edges and p-values.
pub const TWO: &str = "hypotheses H1 H2
                       component A 1/2 1/2 1/2";

/// The hypotheses of `TWO` without their component.
pub const BARE_TWO: &str = "hypotheses H1 H2";

/// Four hypotheses without edges and p-values.
pub const FOUR: &str = "hypotheses H1 H2 H3 H4
                        component A 1/8 1/4 1/4 1/4 1/4";

/// The hypotheses of `FOUR` without their component.
pub const BARE_FOUR: &str = "hypotheses H1 H2 H3 H4";

const WIDE_SHARES: CaseFault = CaseFault::Wide(WideAt {
    component: 0,
    place: Place::ShareSum,
    op: Op::Add,
});

const WIDE_WEIGHTS: CaseFault = CaseFault::Wide(WideAt {
    component: 0,
    place: Place::WeightSum,
    op: Op::Add,
});

const LATER_WIDE_WEIGHTS: CaseFault = CaseFault::Wide(WideAt {
    component: 1,
    place: Place::WeightSum,
    op: Op::Add,
});

const WIDE_ROW: CaseFault = CaseFault::Wide(WideAt {
    component: 0,
    place: Place::RowSum(0),
    op: Op::Add,
});

const LATER_WIDE_ROW: CaseFault = CaseFault::Wide(WideAt {
    component: 1,
    place: Place::RowSum(2),
    op: Op::Add,
});

/// Names. The component has two weights, so that a later row of the table of faults applies too if there aren't two names.
pub const NAMES: &[(&[&str], CaseFault)] = &[
    (&[], CaseFault::NoHypothesis),
    (&[""], CaseFault::NameForm(0)),
    (&["H1", ""], CaseFault::NameForm(1)),
    (
        &["H1", "abcdefghijklmnopqrstuvwxyz0123456"],
        CaseFault::NameForm(1),
    ),
    (&["H 1", "H2"], CaseFault::NameForm(0)),
    (&["H1", " H2"], CaseFault::NameForm(1)),
    (&["H1\n", "H2"], CaseFault::NameForm(0)),
    (&["H1", "H/2"], CaseFault::NameForm(1)),
    (&["H1", "\u{e9}"], CaseFault::NameForm(1)),
    (&["H,1", "H;2"], CaseFault::NameForm(0)),
    (&["H1", "H1"], CaseFault::DuplicateName(1)),
    (&["H1", "H2", "H1"], CaseFault::DuplicateName(2)),
    (&["A", "B", "B", "A"], CaseFault::DuplicateName(2)),
    // A name that is not a name comes before a name that is there twice.
    (&["H1", "H1", ""], CaseFault::NameForm(2)),
];

/// Levels of `TWO`.
pub const LEVELS: &[(&str, CaseFault)] = &[
    ("alpha 1/10001", CaseFault::PartTooLong(PartPlace::Alpha)),
    ("alpha -1/10001", CaseFault::PartTooLong(PartPlace::Alpha)),
    ("alpha 10001", CaseFault::PartTooLong(PartPlace::Alpha)),
    (
        "alpha 10001/10000",
        CaseFault::PartTooLong(PartPlace::Alpha),
    ),
    ("alpha 0", CaseFault::AlphaRange),
    ("alpha -1/20", CaseFault::AlphaRange),
    ("alpha 10000/9999", CaseFault::AlphaRange),
    ("alpha 2", CaseFault::AlphaRange),
];

/// P-values of `TWO`.
pub const P_VALUES: &[(&str, CaseFault)] = table! {
    ("p 1/1000000000000000000000000000001 0", CaseFault::PartTooLong(PartPlace::P(0))),
    ("p 1 -1/1000000000000000000000000000001", CaseFault::PartTooLong(PartPlace::P(1))),
    // The parts come before all other rows of p-values.
    ("p 2 - 1/1000000000000000000000000000001", CaseFault::PartTooLong(PartPlace::P(2))),
    ("p -", CaseFault::PCount(1)),
    ("p 1", CaseFault::PCount(1)),
    ("p - - -", CaseFault::PCount(3)),
    // The count comes before a p-value that is missing, and this before the range.
    ("p 2 - -", CaseFault::PCount(3)),
    ("p 2 -", CaseFault::PMissing(1)),
    ("p - 0", CaseFault::PMissing(0)),
    ("p -1/2 0", CaseFault::PRange(0)),
    ("p 0 -1/1000000000000000000000000000000", CaseFault::PRange(1)),
    ("p 3/2 -1/2", CaseFault::PRange(0)),
    ("p 1 1000000000000000000000000000001/1000000000000000000000000000000", CaseFault::PRange(1)),
    // Only the denominator of a p-value has a limit.
    ("p 10000000000000000000000000000000 1", CaseFault::PRange(0)),
};

/// The components of `BARE_TWO`.
pub const SHARES: &[(&str, CaseFault)] = table! {
    ("", CaseFault::NoComponent),
    ("component A 0 1/2 1/2\n\
      component B 0 1/2 1/2\n\
      component C 0 1/2 1/2\n\
      component D 0 1/2 1/2\n\
      component E 0 1/2 1/2\n\
      component F 0 1/2 1/2\n\
      component G 0 1/2 1/2\n\
      component H 0 1/2 1/2\n\
      component I 0 1/2 1/2", CaseFault::TooManyComponents(9)),
    ("component A 1/1000000000000000001 1/2 1/2\n\
      component B 1/1000000000000000001 1/2 1/2\n\
      component C 1/1000000000000000001 1/2 1/2\n\
      component D 1/1000000000000000001 1/2 1/2\n\
      component E 1/1000000000000000001 1/2 1/2\n\
      component F 1/1000000000000000001 1/2 1/2\n\
      component G 1/1000000000000000001 1/2 1/2\n\
      component H 1/1000000000000000001 1/2 1/2\n\
      component I 1/1000000000000000001 1/2 1/2\n\
      component J 1/1000000000000000001 1/2 1/2", CaseFault::TooManyComponents(10)),
    ("component A 1/1000000000000000001 1/2 1/2", CaseFault::PartTooLong(PartPlace::Share(0))),
    ("component A 1/2 1/2 1/2\n component B 1000000000000000001 1/2 1/2", CaseFault::PartTooLong(PartPlace::Share(1))),
    // The parts come before the range.
    ("component A -1/2 1/2 1/2\n component B -1/1000000000000000001 1/2 1/2", CaseFault::PartTooLong(PartPlace::Share(1))),
    ("component A -1/2 1/2 1/2", CaseFault::ShareRange(0)),
    ("component A 1/2 1/2 1/2\n component B -1/1000000000000000000 1/2 1/2", CaseFault::ShareRange(1)),
    // The range comes before the sum.
    ("component A 2 1/2 1/2\n component B -1/2 1/2 1/2\n component C -1/3 1/2 1/2", CaseFault::ShareRange(1)),
    ("component A 1/1000000000000000000 1/2 1/2\n\
      component B 1/999999999999999999 1/2 1/2\n\
      component C 1/999999999999999997 1/2 1/2\n\
      component D -1 1/2 1/2", CaseFault::ShareRange(3)),
    ("component A 2 1/2 1/2", CaseFault::ShareSum),
    ("component A 1/2 1/2 1/2\n component B 2/3 1/2 1/2", CaseFault::ShareSum),
    ("component A 1 1/2 1/2\n component B 1/1000000000000000000 1/2 1/2", CaseFault::ShareSum),
    ("component A 1/1000000000000000000 1/2 1/2\n\
      component B 1/999999999999999999 1/2 1/2\n\
      component C 1/999999999999999997 1/2 1/2", WIDE_SHARES),
    // A sum is compared after it is written whole.
    ("component A 1 1/2 1/2\n\
      component B 1/1000000000000000000 1/2 1/2\n\
      component C 1/999999999999999999 1/2 1/2\n\
      component D 1/999999999999999997 1/2 1/2", WIDE_SHARES),
};

/// The components of `BARE_FOUR`.
pub const WEIGHTS: &[(&str, CaseFault)] = table! {
    ("component A 1/8 0 0 1/1000000000000000001 0", CaseFault::PartTooLong(PartPlace::Weight(0, 2))),
    ("component A 1/8 1 0 0 0\n component B 1/8 -1000000000000000001 0 0 1/1000000000000000001",
     CaseFault::PartTooLong(PartPlace::Weight(1, 0))),
    // The parts come before the count, also past the last hypothesis.
    ("component A 1/8\n component B 1/8 0 0 0 0 1/1000000000000000001", CaseFault::PartTooLong(PartPlace::Weight(1, 4))),
    ("component A 1/8", CaseFault::WeightCount(0)),
    ("component A 1/8 1 0 0", CaseFault::WeightCount(0)),
    ("component A 1/8 1 0 0 0 0", CaseFault::WeightCount(0)),
    ("component A 1/8 1 0 0 0\n component B 1/8 1 0 0", CaseFault::WeightCount(1)),
    // The counts of all components come before the range of a weight.
    ("component A 1/8 -1/2 0 0 0\n component B 1/8 1", CaseFault::WeightCount(1)),
    ("component A 1/8 2 1 0", CaseFault::WeightCount(0)),
    ("component A 1/8 1 -1/1000000000000000000 0 0", CaseFault::WeightRange(0, 1)),
    ("component A 1/8 0 0 0 0\n component B 1/8 0 0 -1/2 -1/3", CaseFault::WeightRange(1, 2)),
    // The ranges of all components come before a sum.
    ("component A 1/8 1 1 0 0\n component B 1/8 0 0 0 -1/2", CaseFault::WeightRange(1, 3)),
    ("component A 1/8 1/1000000000000000000 1/999999999999999999 1/999999999999999997 0\n component B 1/8 0 -1/2 0 0",
     CaseFault::WeightRange(1, 1)),
    ("component A 1/8 2 0 0 0", CaseFault::WeightSum(0)),
    ("component A 1/8 1/2 0 1/2 1/1000000000000000000", CaseFault::WeightSum(0)),
    ("component A 1/8 1/4 1/4 1/4 1/4\n component B 1/8 1/3 1/3 1/3 1/3", CaseFault::WeightSum(1)),
    ("component A 1/8 1/1000000000000000000 1/999999999999999999 1/999999999999999997 0", WIDE_WEIGHTS),
    ("component A 1/8 1/1000000000000000000 1/999999999999999999 1/173 0", WIDE_WEIGHTS),
    ("component A 1/8 1/1000000000000000000 1/999999999999999999 1/167 0\n\
      component B 1/8 0 1/1000000000000000000 1/999999999999999999 1/999999999999999997", LATER_WIDE_WEIGHTS),
    // A sum is compared after it is written whole.
    ("component A 1/8 1 1/1000000000000000000 1/999999999999999999 1/999999999999999997", WIDE_WEIGHTS),
    // The components come in order.
    ("component A 1/8 1 1 0 0\n component B 1/8 1/1000000000000000000 1/999999999999999999 1/999999999999999997 0",
     CaseFault::WeightSum(0)),
    ("component A 1/8 1/1000000000000000000 1/999999999999999999 1/999999999999999997 0\n component B 1/8 1 1 0 0",
     WIDE_WEIGHTS),
};

/// The edges of `FOUR`.
pub const EDGES: &[(&str, CaseFault)] = table! {
    ("edge A H1 H2 1/1000000000000000001", CaseFault::PartTooLong(PartPlace::Edge(0, 0, 1))),
    ("edge A H1 H2 1\n component B 1/8 1/4 1/4 1/4 1/4\n edge B H3 H4 1\n edge B H2 H1 0 0 0 0 -1/1000000000000000001",
     CaseFault::PartTooLong(PartPlace::Edge(1, 1, 0))),
    // Edges come in the order of their list.
    ("edge A H4 H1 0 1/1000000000000000001\n edge A H1 H2 1/1000000000000000001",
     CaseFault::PartTooLong(PartPlace::Edge(0, 3, 0))),
    ("edge A H2 H2 1/2", CaseFault::SelfEdge(0, 1)),
    ("edge A H3 H3 0 1", CaseFault::SelfEdge(0, 2)),
    ("edge A H1 H1 0\n edge A H4 H4 0 0 0 0 -1\n edge A H2 H2 1", CaseFault::SelfEdge(0, 3)),
    // Edges from a hypothesis to itself come, in all components, before an edge that is there twice.
    ("edge A H1 H2 0\n edge A H1 H2 0\n component B 1/8 1/4 1/4 1/4 1/4\n edge B H2 H2 2", CaseFault::SelfEdge(1, 1)),
    ("edge A H1 H2 1/2\n edge A H1 H2 1/4", CaseFault::RepeatedEdge(0, 0, 1)),
    ("edge A H1 H2 0\n edge A H2 H1 0\n edge A H1 H2 0", CaseFault::RepeatedEdge(0, 0, 1)),
    ("edge A H3 H3 0\n edge A H3 H3 0", CaseFault::RepeatedEdge(0, 2, 2)),
    ("edge A H3 H4 0\n edge A H1 H2 0\n edge A H2 H4 0\n edge A H2 H4 0\n edge A H3 H4 0", CaseFault::RepeatedEdge(0, 1, 3)),
    // Edges that are there twice come, in all components, before the range of an edge.
    ("edge A H1 H2 2\n component B 1/8 1/4 1/4 1/4 1/4\n edge B H4 H3 0\n edge B H4 H3 0", CaseFault::RepeatedEdge(1, 3, 2)),
    ("edge A H1 H2 -1/2", CaseFault::EdgeRange(0, 0, 1)),
    ("edge A H1 H2 3/2", CaseFault::EdgeRange(0, 0, 1)),
    // 1 plus epsilon, and epsilon below 0.
    ("edge A H3 H2 1 1", CaseFault::EdgeRange(0, 2, 1)),
    ("edge A H3 H2 0 -1", CaseFault::EdgeRange(0, 2, 1)),
    ("edge A H3 H2 1 0 0 0 1/1000000000000000000", CaseFault::EdgeRange(0, 2, 1)),
    ("edge A H3 H2 0 0 -1/1000000000000000000 1", CaseFault::EdgeRange(0, 2, 1)),
    ("edge A H4 H2 1 1\n edge A H1 H2 2", CaseFault::EdgeRange(0, 3, 1)),
    // The ranges of all components come before a sum.
    ("edge A H1 H2 1\n edge A H1 H3 1\n component B 1/8 1/4 1/4 1/4 1/4\n edge B H2 H3 2", CaseFault::EdgeRange(1, 1, 2)),
    ("edge A H1 H2 1/1000000000000000000\n edge A H1 H3 1/999999999999999999\n edge A H1 H4 1/999999999999999997\n\
      component B 1/8 1/4 1/4 1/4 1/4\n edge B H2 H3 -1", CaseFault::EdgeRange(1, 1, 2)),
    ("edge A H1 H2 2/3\n edge A H1 H3 2/3", CaseFault::RowSum(0, 0)),
    // 1 plus epsilon.
    ("edge A H4 H1 1\n edge A H4 H2 0 1", CaseFault::RowSum(0, 3)),
    // 1 plus the square of epsilon.
    ("edge A H2 H4 0 0 1\n edge A H2 H1 1 -1\n edge A H2 H3 0 1", CaseFault::RowSum(0, 1)),
    // Rows come by their positions, component by component.
    ("edge A H4 H1 1\n edge A H4 H2 1\n edge A H2 H1 1\n edge A H2 H3 1", CaseFault::RowSum(0, 1)),
    ("edge A H4 H1 1\n edge A H4 H2 1\n component B 1/8 1/4 1/4 1/4 1/4\n edge B H1 H2 1\n edge B H1 H3 1",
     CaseFault::RowSum(0, 3)),
    ("component B 1/8 1/4 1/4 1/4 1/4\n edge B H1 H2 1/2\n edge B H1 H3 1/2 1/1000000000000000000", CaseFault::RowSum(1, 0)),
    ("edge A H1 H4 1/999999999999999997\n edge A H1 H2 1/1000000000000000000\n edge A H1 H3 1/999999999999999999", WIDE_ROW),
    ("edge A H1 H2 1/1000000000000000000\n edge A H1 H3 1/999999999999999999\n edge A H1 H4 1/173", WIDE_ROW),
    // A sum is compared after it is written whole. These are above 1.
    ("edge A H1 H2 1/2 1/1000000000000000000\n edge A H1 H3 1/2 1/999999999999999999\n edge A H1 H4 1/2 1/999999999999999997",
     WIDE_ROW),
    ("edge A H1 H2 1 0 0 0 -1/1000000000000000000\n edge A H1 H3 0 1 0 0 1/999999999999999999\n\
      edge A H1 H4 0 0 0 0 1/999999999999999997", WIDE_ROW),
    ("edge A H1 H2 1/1000000000000000000\n edge A H1 H3 1/999999999999999999\n edge A H1 H4 1/167\n\
      component B 1/8 1/4 1/4 1/4 1/4\n edge B H3 H1 1/1000000000000000000\n edge B H3 H2 1/999999999999999999\n\
      edge B H3 H4 1/999999999999999997", LATER_WIDE_ROW),
    ("edge A H1 H2 1/1000000000000000000\n edge A H1 H3 1/999999999999999999\n edge A H1 H4 1/999999999999999997\n\
      component B 1/8 1/4 1/4 1/4 1/4\n edge B H1 H2 1\n edge B H1 H3 1", WIDE_ROW),
    ("edge A H3 H1 1/1000000000000000000\n edge A H3 H2 1/999999999999999999\n edge A H3 H4 1/999999999999999997\n\
      edge A H2 H1 1\n edge A H2 H3 1", CaseFault::RowSum(0, 1)),
    ("edge A H2 H1 1\n edge A H2 H3 1\n edge A H1 H2 1/1000000000000000000\n edge A H1 H3 1/999999999999999999\n\
      edge A H1 H4 1/999999999999999997", WIDE_ROW),
};

/// Drafts with faults in several of their parts, of which the first counts.
pub const ORDER: &[(&str, CaseFault)] = table! {
    ("", CaseFault::NoHypothesis),
    ("hypotheses H1 H1", CaseFault::DuplicateName(1)),
    ("alpha 1/10001\n hypotheses H1 H2", CaseFault::NoComponent),
    ("alpha 1/10001\n hypotheses H1 H2\n\
      component A 1/2 1/2 1/2\n\
      component B 1/2 1/2 1/2\n\
      component C 1/2 1/2 1/2\n\
      component D 1/2 1/2 1/2\n\
      component E 1/2 1/2 1/2\n\
      component F 1/2 1/2 1/2\n\
      component G 1/2 1/2 1/2\n\
      component H 1/2 1/2 1/2\n\
      component I 1/2 1/2 1/2", CaseFault::TooManyComponents(9)),
    ("alpha 1/10001\n hypotheses H1 H2\n component A 1/1000000000000000001 1/2 1/2", CaseFault::PartTooLong(PartPlace::Alpha)),
    ("hypotheses H1 H2\n\
      component A 1/2 1/1000000000000000001 1/1000000000000000001\n\
      component B 1/1000000000000000001 1/2 1/2", CaseFault::PartTooLong(PartPlace::Share(1))),
    ("hypotheses H1 H2\n\
      component A 1/2 1/2 1/2\n edge A H1 H2 1/1000000000000000001\n\
      component B 1/2 0 1/1000000000000000001", CaseFault::PartTooLong(PartPlace::Weight(1, 1))),
    ("hypotheses H1 H2\n p 1/1000000000000000000000000000001 -\n\
      component A 1/2 1/2 1/2\n\
      component B 1/2 1/2 1/2\n edge B H2 H1 1/1000000000000000001", CaseFault::PartTooLong(PartPlace::Edge(1, 1, 0))),
    ("alpha 0\n hypotheses H1 H2\n p - 1/1000000000000000000000000000001\n component A 1/2 1/2 1/2",
     CaseFault::PartTooLong(PartPlace::P(1))),
    ("alpha 2\n hypotheses H1 H2\n component A -1 1/2 1/2", CaseFault::AlphaRange),
    ("hypotheses H1 H2\n component A 2", CaseFault::ShareSum),
    ("hypotheses H1 H2\n component A 1/2 1/2 1/2\n edge A H1 H1 1\n edge A H1 H2 0\n edge A H1 H2 0\n component B 1/2 1/2 2/3",
     CaseFault::WeightSum(1)),
    ("hypotheses H1 H2 H3 H4\n\
      component A 1/8 1/1000000000000000000 1/999999999999999999 1/999999999999999997 1\n edge A H1 H2 0\n edge A H1 H2 0",
     WIDE_WEIGHTS),
    ("hypotheses H1 H2\n p 2\n component A 1/2 1/2 1/2\n edge A H1 H2 1 1", CaseFault::EdgeRange(0, 0, 1)),
    ("hypotheses H1 H2 H3 H4\n p 2\n component A 1/8 1/4 1/4 1/4 1/4\n edge A H1 H2 1\n edge A H1 H3 0 1",
     CaseFault::RowSum(0, 0)),
    ("hypotheses H1 H2 H3 H4\n p 2\n\
      component A 1/8 1/4 1/4 1/4 1/4\n edge A H1 H2 1/1000000000000000000\n edge A H1 H3 1/999999999999999999\n\
      edge A H1 H4 1/999999999999999997", WIDE_ROW),
};

/// Names that are too many, the last two of which are not a name and a name that is there already.
pub const TOO_MANY: &[(&str, CaseFault)] = table! {
    ("hypotheses A B C D E F G H I J K L M N O P Q R S T U V W X Y Z a b c d e f g h i j k l m n o p q r s t u v w x y z 0 1 2 3 4 5 6 7 8 9 _ . -",
     CaseFault::TooMany(65)),
    ("hypotheses A B C D E F G H I J K L M N O P Q R S T U V W X Y Z a b c d e f g h i j k l m n o p q r s t u v w x y z 0 1 2 3 4 5 6 7 8 9 _ . - + A",
     CaseFault::TooMany(67)),
};

/// Names, a name, and its position.
pub const POSITIONS: &[(&[&str], &str, Option<usize>)] = &[
    (&["H1", "H10", "H2"], "H1", Some(0)),
    (&["H1", "H10", "H2"], "H10", Some(1)),
    (&["H1", "H10", "H2"], "H2", Some(2)),
    (&["H10", "H1", "H2"], "H1", Some(1)),
    (&["H1", "H10", "H2"], "H", None),
    (&["H1", "H10", "H2"], "H3", None),
    (&["H1", "H10", "H2"], "H100", None),
    (&["H1", "H10", "H2"], "h1", None),
    (&["H1", "H10", "H2"], "", None),
    (&["A", "B", "A", "B"], "A", Some(0)),
    (&["A", "B", "A", "B"], "B", Some(1)),
    (&["A", "", "a b", ""], "", Some(1)),
    (&[], "H1", None),
    (&[], "", None),
];
