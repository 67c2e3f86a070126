//! The top call: it takes words, a case and a proof, puts a text, and returns a status.
//!
//! Proved of `run`:
//! - `runs`, by status (`Runs`):
//!   - 0 to 5: the whole text of an answer was put that the words, the case and the proof require (`outcome`), and its status
//!     returned. If a source doesn't expose its bytes, the answer is that of some bytes.
//!   - 6 comes only if a source that is read had a fault in this call, 7 only if the sink had one, and 8 with `no memory`.
//!   - If no fault came, the status is up to 5, or 8; and with these statuses no fault came.
//!   - At most one put is made for each byte of a text.
//! - `case`, `proof`: a source that the words don't read stays as it was; one that they read was read to its end after status
//!   0. The proof is read only after a case that the command can take.
//! - `case_taken`, `proof_taken`: how many bytes are taken at most.
//! - `proof_asked`: a call that ends with an answer has taken from the proof, if it reads one and hasn't refused the case.
//!
//! Proved of `file_word`: it returns the place of the word that names a file (`file`), and `None` only if no word does
//! (`none`).
//!
//! Laws in `src/laws.rt`; those of the other commands are in `printed`:
//! - `calls_have_one_answer`.
//! - `reports_are_of_the_closed_test`: what `test` prints with status 0, by any priority, of a text, a sheet or JSON, names as
//!   rejected exactly the hypotheses that the closed test rejects. The adjusted values are those of the closed test.
//! - `reports_are_of_the_staged_test`: what `stages` prints with status 0 names exactly those that the staged closed test
//!   rejects.
//! - `checks_are_of_the_closed_test`: if `check` ends with status 0, the closed test rejects each listed hypothesis, and in
//!   version 2 no other.
//! - `evidence_is_of_the_closed_test`: what `evidence` prints with status 0 is evidence to which `check` answers `yes`. Its
//!   steps list exactly the hypotheses that the closed test rejects.
//! - `samples_are_of_the_closed_test`: the same for what `sample` prints.
//!
//! The clauses speak of sources that expose their bytes and of a sink that exposes what it holds, as those in memory do, while
//! standard input and output expose neither. That the program answers there as on exposed bytes depends on `run` being one
//! function for all sources and sinks, and on the adapters, which make one call each.
//!
//! Only tested: that `no memory` isn't reported if there is memory.
#![tactic(auto)]

mod accepted;
mod commands;
mod kind;
pub mod laws;
mod needs;
mod no_answer;
mod top;
mod trouble;

pub use accepted::accepted_case;
pub use kind::InputKind;
pub use needs::Needs;
pub use top::{file_word, run};
