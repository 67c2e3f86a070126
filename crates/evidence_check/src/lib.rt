//! Evidence for the rejections of a case, and its checker, which removes no hypothesis.
//!
//! Proved:
//! - `check`: `answer` (the verdict is that of the written check: yes, or the first broken condition, or the first undefined
//!   operation). `yes` and `no` (yes only if all conditions hold, no only if they don't). `rejected` (a yes implies that the
//!   closed test rejects each listed hypothesis). `all` (if each other hypothesis has a keep, a yes implies that the closed test
//!   rejects no other). The check removes no hypothesis and takes no memory.
//! - `read`: `read` (the evidence that the document denotes, or the first line that isn't allowed, with its kind; one function,
//!   `case_reading`, defines both). `fits` (the evidence fits the case).
//! - Laws in `src/laws.rt`: evidence that meets its conditions lists a legal order, and with all keeps a complete one, whoever
//!   made it (`evidence_implies_rejections`). The written check is sound and fair.
#![tactic(auto)]

mod case_sums;
mod checker;
mod document;
mod event;
mod evidence;
mod exits;
mod fault;
mod flows;
mod keep;
pub mod laws;
mod level;
mod loading;
mod of_case;
mod quantity;
mod reader;
pub mod rows;
mod rules;
mod step;
mod sums;
mod verdict;

pub use checker::check;
pub use evidence::{Evidence, KeepProof, ProofStep, Steps};
pub use fault::{ProofKind, ProofText};
pub use of_case::is_of_case;
pub use quantity::{Quantity, keyword};
pub use reader::read;
pub use verdict::{CheckWide, Reason, Verdict};
