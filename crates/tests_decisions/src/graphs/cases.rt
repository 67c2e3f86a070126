//! Cases without p-values, which texts denote.
pub use crate::cases::{case_of, expect};

/// A numerator and a denominator.
pub type Terms = (i128, i128);

/// Three hypotheses of weight 1/3, with edges of 1/2 between them.
pub const HOLM: &str = "alpha 0.05\nhypotheses A B C\nweights 1/3 1/3 1/3\n\
    edge A B 1/2\nedge A C 1/2\nedge B A 1/2\nedge B C 1/2\nedge C A 1/2\nedge C B 1/2\n";

/// Two primary hypotheses, each of which passes half to either of two secondary ones. Each of these passes epsilon back to one
/// primary hypothesis, and the rest to the other secondary one.
pub const IMPROVED_GATEKEEPING: &str = "alpha 0.05\nhypotheses A B C D\nweights 1/2 1/2 0 0\n\
    edge A C 1/2\nedge A D 1/2\nedge B C 1/2\nedge B D 1/2\nedge C A \\epsilon\nedge C D 1-\\epsilon\nedge D B \\epsilon\n\
    edge D C 1-\\epsilon\n";

/// Four hypotheses in a chain, whose edges have no common factor.
pub const CHAIN: &str = "alpha 0.05\nhypotheses A B C D\nweights 1 0 0 0\n\
    edge A B 1/1000000000000000000\nedge B C 1/999999999999999999\nedge C D 1/999999999999999997\n";
