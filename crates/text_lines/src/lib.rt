//! Texts in lines, and lines in words.
//!
//! Proved: `Lines` gives the lines of a text that aren't skipped, each with its number (`rows`, `end`, `done`), and `Ahead` gives
//! them with the next one at hand. `Words` gives the words of a line and what follows them (`word`, `rest`). Laws in
//! `src/laws.rt`: `spelt_lines_read_back`, written lines are read back; `words_end_at_blanks`.
//!
//! A document of lines is defined as one value, its form (`specs/Forms.antt`). What lines say by a form is exactly what is read
//! from them (`proofs/FormReads.antt`). If a form can end after each line that it takes, the first fault is in the first line with
//! which no document continues (`FormFaults.antt`, `FormEnds.antt`).
#![tactic(auto)]

mod ahead;
mod blank;
pub mod laws;
mod line;
mod lines;
mod words;

pub use ahead::Ahead;
pub use blank::{after_blanks, is_blank};
pub use line::Line;
pub use lines::Lines;
pub use words::Words;
