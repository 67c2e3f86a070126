//! The removal of a hypothesis from a weighted graph of quotients in epsilon, which is stored in rows over one denominator each.
//!
//! Proved: `RowNet` is a `Remover` over quotients in epsilon. It stores each row as numerators over one denominator, and divides
//! a row by what its polynomials have in common. Also `try_new`. Cases with epsilon run on it.
#![tactic(auto)]

mod gathering;
mod graph;
mod net;
mod new_rows;
mod row;

pub use net::{RowNet, RowOpen};
