//! What the commands print.
//!
//! Proved:
//! - `test_text` returns exactly the text of a decision on a case with its adjusted values (`test_report`), `stages_text` that of
//!   looks (`stages_report`), and `sample_text` that of a sample (`sample_report`).
//! - `check_text` returns exactly the text of evidence that holds (`check_report`).
//! - `weights_text`, `bounds_text` and `simes_text` return exactly the text of all sets in their order (`weights_report`,
//!   `bounds_report`, `simes_report`).
//! - `opened_text` returns the first piece of what `study` prints (`study_report`), and `put_taken`, `put_refused` and `put_shown`
//!   append the others, one after another. When out of memory, the text stays as it was (`unchanged`).
//! - These calls require nothing. A position past the last hypothesis has an empty name, and the p-value 0. `weights_text`,
//!   `bounds_text` and `simes_text` require tables that are for the hypotheses of the case.
//! - Laws in `src/laws.rt`: each line of a decision, and each rejection of a look, is of a hypothesis of its case.
#![tactic(auto)]

mod bounds;
mod check;
mod each;
pub mod laws;
mod lines;
mod lookups;
mod sample;
mod simes;
mod stages;
mod study;
mod test;
mod weights;

pub use bounds::bounds_text;
pub use check::check_text;
pub use sample::sample_text;
pub use simes::simes_text;
pub use stages::stages_text;
pub use study::{opened_text, put_refused, put_shown, put_taken};
pub use test::test_text;
pub use weights::weights_text;
