//! Cases that texts denote, the assertion with a label, and the test of a set.
ghost use Rattle.std.specs.Prelude.{◌<◌, ◌^◌, IsTrue};

use case_model::Case;
use edge_text::read_text;
use std::alloc::Global;
use std::process::Abort;

/// A numerator and a denominator.
pub type Parts = (i128, i128);

/// Two hypotheses without edges, the first of which is at its limit.
pub const TIE: &str = "alpha 0.05\nhypotheses H1 H2\np 0.025 0.026\nweights 1/2 1/2\n";

/// Holm's procedure.
pub const HOLM: &str = "alpha 0.025\nhypotheses H1 H2 H3\np 0.01 0.005 0.02\nweights 1/3 1/3 1/3\n\
    edge H1 H2 1/2\nedge H1 H3 1/2\nedge H2 H1 1/2\nedge H2 H3 1/2\nedge H3 H1 1/2\nedge H3 H2 1/2\n";

/// Holm's procedure on three hypotheses, without p-values. The first rejection needs a p-value of at most 0.05/3, the second one
/// of at most 0.025, the third one of at most 0.05.
pub const BARE_HOLM: &str = "alpha 0.05\nhypotheses H1 H2 H3\nweights 1/3 1/3 1/3\n\
    edge H1 H2 1/2\nedge H1 H3 1/2\nedge H2 H1 1/2\nedge H2 H3 1/2\nedge H3 H1 1/2\nedge H3 H2 1/2\n";

/// The fallback procedure.
pub const FALLBACK: &str =
    "alpha 0.03\nhypotheses H1 H2 H3\np 0.02 0.015 0.005\nweights 1/3 1/3 1/3\n\
    edge H1 H2 1\nedge H2 H3 1\n";

/// A fixed sequence of which the second p-value is above the level.
pub const SEQUENCE: &str = "alpha 0.025\nhypotheses H1 H2 H3\np 0.01 0.03 0.001\nweights 1 0 0\n\
    edge H1 H2 1\nedge H2 H3 1\n";

/// A weight of epsilon rejects nothing at any level.
pub const EPSILON: &str = "alpha 0.05\nhypotheses H1 H2 H3\np 0.01 0.9 0\nweights 1 0 0\n\
    edge H1 H2 1-\\epsilon\nedge H1 H3 \\epsilon\n";

/// A weight of 0 rejects nothing at any level.
pub const NO_WEIGHT: &str = "alpha 0.05\nhypotheses H1 H2\np 0.2 0\nweights 1 0\n";

/// Two primary and two secondary hypotheses; each secondary one passes epsilon back to a primary one, and the rest to the other.
pub const IMPROVED_GATEKEEPING: &str =
    "alpha 0.05\nhypotheses H1 H2 H3 H4\np 0.02 0.04 0.01 0.02\nweights 1/2 1/2 0 0\n\
    edge H1 H3 1/2\nedge H1 H4 1/2\nedge H2 H3 1/2\nedge H2 H4 1/2\nedge H3 H1 \\epsilon\nedge H3 H4 1-\\epsilon\n\
    edge H4 H2 \\epsilon\nedge H4 H3 1-\\epsilon\n";

/// Two components of share 1/2: the first gives all to H1, the second all to H2, and each passes it on to the other.
pub const ENTANGLED: &str = "alpha 0.05\nhypotheses H1 H2\np 0.02 0.04\n\
    component 1/2\nweights 1 0\nedge H1 H2 1\n\
    component 1/2\nweights 0 1\nedge H2 H1 1\n";

/// A chain whose edges have large denominators that have no common factor.
pub const CHAIN: &str = "alpha 0.05\nhypotheses H1 H2 H3 H4\np 0 0 0 0\nweights 1 0 0 0\n\
    edge H1 H2 1/1000000000000000000\nedge H2 H3 1/999999999999999999\nedge H3 H4 1/999999999999999997\n";

/// A sum of coefficients whose denominators have no common factor: the opening is undefined.
pub const WIDE_OPENING: &str = "alpha 0.05\nhypotheses H1 H2\np 0 0\nweights 1 0\n\
    edge H1 H2 1/1000000000000000000+1/999999999999999999*\\epsilon+1/999999999999999997*\\epsilon^2\n";

/// Returns the case that a text denotes.
pub fn case_of(rt: &impl Abort, alloc: Global, text: &str) -> Case {
    let Ok(case) = read_text(alloc, text.as_bytes()) else {
        panic!(rt; "no case");
    };
    case
}

/// Asserts that a row of a table holds; the label says which.
pub fn expect(rt: &impl Abort, holds: bool, label: &str) {
    assert!(rt; holds, "{label}");
}

/// Whether a set is one of those of two to four hypotheses, or of sixteen.
pub fn fits(size: usize, set: u32) -> bool
    ensures { IsTrue result → set < 2 ^ size }
{
    match size {
        2 => set < 4,
        3 => set < 8,
        4 => set < 16,
        16 => set < 65_536,
        _ => false,
    }
}
