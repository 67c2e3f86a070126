//! Documents by hand, with what the checker or the reader should answer to them.
use crate::cases::ENTANGLED;
use crate::checking::cases::{FIXED, FIXED_EVIDENCE, GATEKEEPING, GATEKEEPING_EVIDENCE};
use evidence_check::{CheckWide, ProofKind, Reason, Verdict};
use field_core::{Op, Place, WideAt};

/// The first hypothesis passes all but epsilon to the second, and epsilon to the third.
const ALL_BUT_EPSILON: &str = "alpha 0.05\nhypotheses H1 H2 H3\np 0.01 0.9 0\nweights 1 0 0\n\
    edge H1 H2 1-\\epsilon\nedge H1 H3 \\epsilon\n";

/// Cases and documents, with the answers of the checker.
pub const CHECKED: &[(&str, &str, Verdict)] = table! {
    (GATEKEEPING,
     "evidence 1\nstep H1\nstep H3\nflow 1 H1 1/2\nstep H4\nflow 1 H1 [1]/[2,-1]\nflow 1 H3 [1]/[4,-2]\nstep H2\nflow 1 H1 1\n\
      flow 1 H3 [1]/[0,2]\nflow 1 H4 [1]/[0,2]\nend\n", Verdict::Yes),
    (GATEKEEPING, GATEKEEPING_EVIDENCE, Verdict::Yes),
    (FIXED, FIXED_EVIDENCE, Verdict::Yes),
    (FIXED, "evidence 1\nstep H1\nend", Verdict::Yes),
    (FIXED, "# nothing\n\nevidence 1\r\n end", Verdict::Yes),
    (ALL_BUT_EPSILON, "evidence 2\nstep H1\nkeep H2\nexit 1 H1 [1,-1]/[1]\nkeep H3\nexit 1 H1 [0,1]/[1]\nend\n", Verdict::Yes),
    (ENTANGLED, "evidence 2\nstep H1\nstep H2\nflow 1 H1 1\nflow 2 H1 0\nend\n", Verdict::Yes),
    (GATEKEEPING,
     "evidence 2\nstep H1\nstep H3\nflow 1 H1 501/1000\nstep H4\nflow 1 H1 [1]/[2,-1]\nflow 1 H3 [1]/[4,-2]\nstep H2\n\
      flow 1 H1 1\nflow 1 H3 [1]/[0,2]\nflow 1 H4 [1]/[0,2]\nend\n", Verdict::No(2, Reason::Exceeds(0, 0))),
    (GATEKEEPING,
     "evidence 1\nstep H1\nstep H3\nflow 1 H1 1/2\nstep H4\nflow 1 H1 [1]/[2,-1]\nflow 1 H3 [1]/[4,-2]\nstep H1\nflow 1 H1 1\n\
      flow 1 H3 [1]/[0,2]\nflow 1 H4 [1]/[0,2]\nend\n", Verdict::No(4, Reason::Repeated)),
    (GATEKEEPING, "evidence 1\nstep H1\nstep H3\nflow 1 H1 1/2\nstep H4\nflow 1 H1 [1]/[2,-1]\nflow 1 H3 [1]/[4,-3]\nend\n",
     Verdict::No(3, Reason::Exceeds(0, 1))),
    (GATEKEEPING, "evidence 1\nstep H1\nstep H3\nflow 1 H1 -1/2\nend\n", Verdict::No(2, Reason::Negative(0, 0))),
    (GATEKEEPING, "evidence 1\nstep H1\nstep H3\nflow 1 H1 1/2\nstep H4\nflow 1 H1 0\nflow 1 H3 [0,-1]/[1]\nend\n",
     Verdict::No(3, Reason::Negative(0, 1))),
    (GATEKEEPING, "evidence 1\nstep H1\nstep H3\nflow 1 H1 0\nend\n", Verdict::No(2, Reason::NoLevel)),
    (GATEKEEPING, "evidence 1\nstep H1\nstep H3\nflow 1 H1 1/100\nend\n", Verdict::No(2, Reason::AboveLevel)),
    (GATEKEEPING, "evidence 1\nstep H2\nend\n", Verdict::No(1, Reason::AboveLevel)),
    (FIXED, "evidence 2\nstep H1\nkeep H2\nexit 1 H1 0\nkeep H3\nexit 1 H1 0\nend\n", Verdict::No(2, Reason::ShortExit(0, 0))),
    (FIXED, "evidence 2\nstep H1\nkeep H2\nexit 1 H1 2\nkeep H3\nexit 1 H1 0\nend\n", Verdict::No(2, Reason::AboveOne(0))),
    (FIXED, "evidence 2\nstep H1\nkeep H2\nexit 1 H1 -1\nkeep H3\nexit 1 H1 0\nend\n",
     Verdict::No(2, Reason::NegativeExit(0, 0))),
    (FIXED, "evidence 2\nstep H1\nkeep H2\nexit 1 H1 1\nkeep H3\nexit 1 H1 1\nend\n", Verdict::No(3, Reason::Legal)),
    (FIXED, "evidence 2\nkeep H1\nkeep H2\nkeep H3\nend\n", Verdict::No(1, Reason::Legal)),
    (ALL_BUT_EPSILON, "evidence 2\nstep H1\nkeep H2\nexit 1 H1 [1,-1]/[1]\nkeep H3\nexit 1 H1 1/1000\nend\n",
     Verdict::No(3, Reason::Legal)),
    (ALL_BUT_EPSILON, "evidence 2\nstep H1\nkeep H2\nexit 1 H1 [1,-2]/[1]\nkeep H3\nexit 1 H1 0\nend\n",
     Verdict::No(2, Reason::ShortExit(0, 0))),
    (ENTANGLED, "evidence 2\nstep H1\nstep H2\nflow 1 H1 1\nflow 2 H1 1\nend\n", Verdict::No(2, Reason::Exceeds(1, 0))),
};

/// Evidence for the chain, the product of whose edges has a denominator near 10^54.
pub const LONG_EVIDENCE: &str = "evidence 1\nstep H1\nstep H2\nflow 1 H1 1\nstep H3\nflow 1 H1 1\n\
    flow 1 H2 1/1000000000000000000\nstep H4\nflow 1 H1 1\nflow 1 H2 1/1000000000000000000\n\
    flow 1 H3 1/999999999999999999000000000000000000\nend\n";

/// The first written operation of that check that is undefined.
pub const LONG_IS_WIDE: CheckWide = CheckWide {
    step: 4,
    at: WideAt {
        component: 0,
        place: Place::Level(3),
        op: Op::Mul,
    },
};

/// Documents for the fixed order, each with the number of its first bad line and what is wrong with it.
pub const REFUSED: &[(&str, usize, ProofKind)] = table! {
    ("", 1, ProofKind::Ended),
    ("# evidence 1\n\n", 3, ProofKind::Ended),
    ("evidence 1\n", 2, ProofKind::Ended),
    ("evidence 2\nstep H1\n", 3, ProofKind::Ended),
    ("evidence 1\nstep H1\nstep H2\n", 4, ProofKind::Ended),
    ("evidence 2\nstep H1\nkeep H2\nexit 1 H1 1\nkeep H3\nexit 1 H1 0\n", 7, ProofKind::Ended),
    ("evidence 3\n", 1, ProofKind::Version),
    ("evidence 01\n", 1, ProofKind::Version),
    ("evidence\n", 1, ProofKind::WordCount),
    ("evidence 1 2\n", 1, ProofKind::WordCount),
    ("proof 1\n", 1, ProofKind::Unexpected),
    ("step H1\n", 1, ProofKind::Unexpected),
    ("evidence 1\nstep\n", 2, ProofKind::WordCount),
    ("evidence 1\nstep H1 H2\n", 2, ProofKind::WordCount),
    ("evidence 1\nstep H4\n", 2, ProofKind::UnknownName),
    ("evidence 1\nkeep H1\n", 2, ProofKind::Unexpected),
    ("evidence 2\nend\n", 2, ProofKind::Unexpected),
    ("evidence 1\nend x\n", 2, ProofKind::WordCount),
    ("evidence 1\nend\nend\n", 3, ProofKind::Unexpected),
    ("# x\nevidence 1\n\nend\n# y\nstep H1", 6, ProofKind::Unexpected),
    ("evidence 1\nstep H1\nstep H2\nend\n", 4, ProofKind::Unexpected),
    ("evidence 1\nstep H1\nstep H2\nexit 1 H1 1\n", 4, ProofKind::Unexpected),
    ("evidence 1\nstep H1\nstep H2\nflow 1 H1\n", 4, ProofKind::WordCount),
    ("evidence 1\nstep H1\nstep H2\nflow 2 H1 1\n", 4, ProofKind::FlowPlace),
    ("evidence 1\nstep H1\nstep H2\nflow 01 H1 1\n", 4, ProofKind::FlowPlace),
    ("evidence 1\nstep H1\nstep H2\nflow 1 H2 x\n", 4, ProofKind::FlowPlace),
    ("evidence 1\nstep H1\nstep H2\nflow 1 H1 [1]/[1]\n", 4, ProofKind::Number),
    ("evidence 1\nstep H1\nstep H2\nflow 1 H1 1/0\n", 4, ProofKind::Number),
    ("evidence 1\nstep H1\nstep H2\nflow 1 H1 0.5\n", 4, ProofKind::Number),
    ("evidence 1\nstep H1\nstep H2\nflow 1 H1 170141183460469231731687303715884105727\nflow 1 H2 1\n", 5,
     ProofKind::Unexpected),
    ("evidence 1\nstep H1\nstep H2\nflow 1 H1 170141183460469231731687303715884105728\n", 4, ProofKind::Number),
    ("evidence 2\nstep H1\nkeep H3\n", 3, ProofKind::Unexpected),
    ("evidence 2\nstep H1\nkeep H3 H3\n", 3, ProofKind::WordCount),
    ("evidence 2\nstep H1\nkeep H2\nflow 1 H1 1\n", 4, ProofKind::Unexpected),
    ("evidence 2\nstep H1\nkeep H2\nexit 1 H2 1\n", 4, ProofKind::ExitPlace),
    ("evidence 2\nstep H1\nkeep H2\nexit 1 H1 1/2/3\n", 4, ProofKind::Number),
};

/// In version 2 a repeated step leaves one more hypothesis to be kept: line 12 is unexpected.
pub const REPEATED_STEP: &str =
    "evidence 2\nstep H1\nstep H3\nflow 1 H1 1/2\nstep H4\nflow 1 H1 [1]/[2,-1]\n\
    flow 1 H3 [1]/[4,-2]\nstep H1\nflow 1 H1 1\nflow 1 H3 [1]/[0,2]\nflow 1 H4 [1]/[0,2]\nend\n";
