//! Simes' test of all intersections with the weights of their members, and its closed test.
//!
//! Proved, for at most 16 hypotheses:
//! - `SimesTable::build`: `local` and `closed` (Simes' test and its closed test of each set). `defined` and `fault`: it returns a
//!   table only if the sums of all members of all sets are defined. Else it names the first set, in the order of sets, with an
//!   undefined sum, and the first such member.
//! - `leaders`: all positions, each once, by ascending p-value, equal ones by position.
//! - Laws (`src/laws.rt`): Simes' test rejects each set that the local test by weights rejects, and its closed test each set and
//!   hypothesis that the closed test rejects. No bound by it is lower.
//!
//! Nothing is claimed of when Simes' test is valid.
#![tactic(auto)]

mod fault;
pub mod laws;
mod ranking;
mod set_test;
mod sums;
mod table;

pub use fault::SimesFault;
pub use ranking::leaders;
pub use table::SimesTable;
