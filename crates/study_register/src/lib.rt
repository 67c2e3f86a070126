//! Registers of looks: a study whose p-values come over months, and a keeper that keeps each look once the study is settled.
//!
//! Proved of `Register::open`, which calls the keeper once at most (`turns`):
//! - All looks of the keeper were taken in their order (`taken`, by `AreTaken`).
//! - Each refusal comes only with its cause, and names the first look that can't be taken, with its place (`fault`). The keeper's
//!   count of faults stays, unless its fault is reported (`steady`).
//!
//! Proved of `Register::add`, which calls the keeper once at most (`turns`), and only once the study is settled:
//! - The look is taken, and the keeper has it (`taken`, `kept`), or the call is refused with a cause (`fault`).
//! - What a refusal leaves as it was (`refused`, `unchanged`, `not_asked`, `wide_not_asked`), whether the register is spent
//!   (`spent`), and what is left of the study (`left`). Out of memory is reported only if the keeper had no fault (`memory`).
//!
//! Laws in `src/laws.rt`: the rejections are those of the staged closed test on all looks that were taken, in whatever order they
//! came. The same looks give the same rejections again. A refusal comes exactly if it is reported, for one reason. Each opening
//! and each look has an end.
#![tactic(auto)]

mod fault;
pub mod laws;
mod register;
mod taking;

pub use fault::{AddFault, RegisterFault};
pub use register::Register;
