//! The entry of a text that is an edge expression, as one function.
//!
//! `edge_expression` describes expressions by a grammar with their values, and the faults of other texts. Each text has
//! exactly one entry or one fault. So the two make one function, `entry_of`, and readers of larger texts state by it what they
//! return.
//!
//! Proved:
//! - `read_entry`: `value` (it returns `entry_of` of its text).
//! - `entries_are_read`, a law: `entry_of` agrees with the grammar and with the faults, both ways.
#![tactic(auto)]

pub mod laws;
mod reading;

pub use reading::read_entry;
