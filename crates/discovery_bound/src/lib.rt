//! Bounds of the number of true discoveries in each set, by a table of answers.
//!
//! Proved of `Bounds::build`, by any table of which sets are rejected: the bound of a set is its size minus the greatest size of a
//! subset that isn't rejected (`bounds`).
#![tactic(auto)]

mod bounds;

pub use bounds::Bounds;
