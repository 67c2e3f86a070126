//! The answers of calls, why calls stop without one, and the text that is put in each case.
//!
//! A call ends in one of its ways (`EndsIn`): it gives a value, it is refused, a source or the keeper had a fault, or it is out
//! of memory. Its value and its refusals come by stages: the first stage that refuses decides.
//!
//! Proved:
//! - `take_whole`: `ends`, `end`, how many bytes were `taken` before an error, that it calls the source (`asked`), and how many
//!   calls it makes (`turns`).
//! - `conclude`: the text that is put for each outcome, its status, and how many calls are made (`turns`).
//! - Lemmas: a call that ends in its ways and is concluded meets the clause by status (`Runs`); a chain of stages has one answer.
#![tactic(auto)]

mod answer;
mod cause;
mod ending;
mod refusal;
mod status;
mod stop;
#[cfg(test)]
mod tests;
mod whole;

pub use answer::Answer;
pub use cause::Cause;
pub use ending::conclude;
pub use refusal::Refusal;
pub use status::Status;
pub use stop::Stop;
pub use whole::take_whole;
