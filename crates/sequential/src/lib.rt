//! Rejections one after another, and the decision on a case.
//!
//! Proved of `Trial`:
//! - `open` opens a trial of a case, in which nothing is rejected yet; `open_at` does so at another level, and `open_with` with
//!   other p-values. `reopen_with` does so in the memory of an earlier trial, and takes none.
//! - `can_reject`: exactly if the hypothesis is legal in what remains.
//! - `reject` appends a legal hypothesis to the rejections (`trial`, `added`). Each refusal comes exactly with its cause, and
//!   then nothing changes (`answer`, `refused`).
//! - `reject_least_ratio`: a step of the run by ratios, or its end (`trial`, `step`, `wide`, `refused`).
//! - `rejected`: the closed test rejects each of them (`sound`), and no other hypothesis once none is legal (`complete`).
//! - Also `is_rejected` and `weight_limit`.
//!
//! Proved of decisions, for each of the three priorities:
//! - `decide`: the steps are the order of the priority, each with its intersection weight, and the other hypotheses are retained
//!   with theirs (`value`). The steps are exactly what the closed test rejects (`closed`).
//! - Unless out of memory, `decide` is refused as too wide exactly if the written run is undefined, with the step and the place
//!   (`fault`, `defined`).
//! - `decide_with`: the same with other p-values. `reject_all`: the rejections of a decision alone (`all`, `wide`, `defined`).
//!
//! Laws in `src/laws.rt`: whatever calls are made on a trial, its rejections are a legal order, and the closed test rejects each.
//! Once none is legal, they are all that it rejects. A case has at most one decision for each priority, and at most one first
//! undefined operation. A case stays valid with other p-values.
#![tactic(auto)]

mod candidate;
mod decision;
mod fault;
pub mod laws;
mod priority;
mod trial;

pub use decision::{Decision, KeptLine, RatioStep, StepLine, decide, decide_with, reject_all};
pub use fault::{DecideFault, RejectFault, RunFault};
pub use priority::Priority;
pub use trial::{Trial, is_single, single_p_values};
