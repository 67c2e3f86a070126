//! Named graphs, and cases that are made from a number.
//!
//! Proved:
//! - `holm`, `fixed_sequence`, `fallback`, `equal_fallback`, `parallel`, `improved_parallel`, `sample`. `case`: the case is the
//!   named graph, by its weights and edges, with the given p-values. `fault`: a call refuses for a size, else for a seed, else
//!   for an error in the draft. `sample` also has the clause `p_values`.
//! - `holm`, `fixed_sequence`, `fallback`: `graph`, `rule` (on each case that is made with p-values, the closed test rejects
//!   exactly the hypotheses that the textbook rule rejects). These and `equal_fallback`: `plain` (no edge has an epsilon).
//! - `names` (`H1`, `H2` and so on); `part` (1/n).
#![tactic(auto)]

mod chains;
mod draft;
mod equal;
mod fault;
mod gates;
mod generator;
mod graph;
mod quotient;
mod sample_case;
mod sizes;

pub use chains::{equal_fallback, fallback, fixed_sequence};
pub use draft::names;
pub use equal::holm;
pub use fault::CatalogueFault;
pub use gates::{improved_parallel, parallel};
pub use quotient::part;
pub use sample_case::sample;
