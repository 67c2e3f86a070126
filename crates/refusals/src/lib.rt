//! The lines of refusals.
//!
//! Proved: each line of a refusal, as a function of its cause. Since a line is UTF-8, a name or a path that isn't UTF-8 gives
//! `NoMemory`. A fault that names hypotheses comes after all names are found well formed, so they are ASCII.
#![tactic(auto)]

mod case;
mod cell;
mod json;
mod line;
mod numbered;
mod proof;
mod text;
mod wide;

pub use case::case_refusal;
pub use cell::cell_refusal;
pub use json::json_refusal;
pub use numbered::{
    closure_refusal, kind_refusal, record_refusal, seed_refusal, size_refusal, usage,
};
pub use proof::{ProofPart, no_text, part_at, proof_refusal};
pub use text::{commands_refusal, line_refusal};
pub use wide::{When, wide_refusal};
