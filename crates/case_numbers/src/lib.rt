//! How the weights and the edges of a case become numbers: fractions, or quotients in epsilon.
//!
//! Proved: `CaseNumber`, how a weight and an edge of a case become numbers of one kind. The kind is fractions if no edge has a
//! coefficient of epsilon other than 0, and else quotients.
#![tactic(auto)]

mod case_number;

pub use case_number::CaseNumber;
