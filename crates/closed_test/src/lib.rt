//! All intersections of a case: their weights, and which of them the local test and the closed test reject.
//!
//! Proved, for at most 16 hypotheses:
//! - `WeightTable::build`: `weights` (the intersection weight of each hypothesis in each set). `fault` and `defined` (too many
//!   hypotheses; or the first set, in the order of sets, whose written run is undefined).
//! - `ClosedTable::build`: `local` and `closed` (the local and the closed test of each set), `fault`, `defined`;
//!   `closed_answers` fills closed answers from any table of local ones (`answers`).
//! - `sets_in_order`: the numbers of all sets, in the order of the lists of what they leave out.
//! - `Path`, the way through all sets in their order: `set`, `depth`, and `step` to the next one.
//!
//! In no clause: `WeightTable::build` loads all nets before the first removal, and makes one removal a set, depth first.
#![tactic(auto)]

mod closed;
mod fault;
mod order;
mod path;
mod table;
mod walk;
mod weights;

pub use closed::closed_answers;
pub use fault::ClosedFault;
pub use order::sets_in_order;
pub use path::Path;
pub use table::ClosedTable;
pub use weights::{MOST_HYPOTHESES, WeightTable};
