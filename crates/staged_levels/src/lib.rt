//! Studies whose p-values arrive at stages.
//!
//! Proved of `Study`:
//! - `open` opens a study of a case, in which nothing has arrived and nothing is rejected (`study`, `start`, `fault`). All memory
//!   is taken here.
//! - `step`: an arrival or a rejection (`study`, `call`). Each refusal comes exactly with its cause (`fault`), and then nothing
//!   changes (`refused`).
//! - `settle` rejects the first legal hypothesis until none is legal (`study`, `call`, `fault`). If it stops part way, the
//!   rejections before stay.
//! - `settled`: the rejections. The staged closed test rejects each (`sound`), and no other hypothesis once none is legal
//!   (`complete`).
//! - Also `weight_limit`; `settled_after` returns the rejections after the first `n`.
//!
//! Proved of `looks`: the rejections of a study of a case that is settled after each of its arrivals (`looks`, `fault`).
//!
//! Laws in `src/laws.rt`, over every list of calls:
//! - The rejections are a legal order on the values that have arrived, and the staged closed test rejects each
//!   (`studies_reject_by_the_staged_test`).
//! - Once a study is settled, the rejections are exactly those of the staged closed test. So two settled studies with the same
//!   values have rejected the same hypotheses, whatever the order (`settled_studies_decide`).
//! - The values are those of the accepted arrivals, and no rejection is taken back (`calls_take_nothing_back`).
//! - A study has at most one settling (`settlings_are_unique`).
//!
//! Tables of looks in each of their orders, with values by hand, are in acceptance.
#![tactic(auto)]

mod case_looks;
mod event;
pub mod laws;
mod study;

pub use case_looks::{LooksFault, looks, settled_after};
pub use event::{Event, SettleFault, Settled, StepFault};
pub use study::{Study, is_staged};
