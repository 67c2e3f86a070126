//! Evidence for the rejections of a decision, made by a run that records what flows through each removed hypothesis.
//!
//! Proved of the evidence that `make` returns:
//! - `made`: its steps and keeps are what the written flow run of the case gives. Unless out of memory, the call is refused as too
//!   wide exactly if that run is undefined, with the step and the place.
//! - `fits` and `version`: it is evidence of version 2 for the case.
//! - `lists` and `keeps`: it has the steps of the decision in their order, and keeps for all other hypotheses, ascending.
//! - `meets`: it meets its conditions, so `evidence_check::check` finds no broken one.
//!
//! Laws in `src/laws.rt`: the flow run along a legal order gives good steps. Along a complete one it gives evidence that meets its
//! conditions, with keeps for all others. Each decision lists a complete legal order.
#![tactic(auto)]

pub mod laws;
mod maker;
mod rows;
mod run;
mod tables;
mod writer;

pub use maker::{MakeFault, make};
pub use writer::write;
