//! The text form of cases.
//!
//! Proved:
//! - `read_text`: `case` (the text is a document, `IsText`, that denotes a draft without fault, and the case has its content).
//!   `fault` (the first line that isn't allowed, with its number and kind, `IsFirstFault`; or else the first error in the
//!   draft, with its names).
//! - `write_text`: the canonical text of a case (`canonical`, `says`).
//! - A document is one value, the form of its lines (`document` in `specs/Document.antt`), and a text denotes what is read by
//!   it (`text_reading`). Laws in `src/laws.rt`:
//!   - `documents_are_read_by_places`: a text denotes what its lines say by the form (`said`). The reader goes from place to
//!     place, one line at a time, and takes the same draft or reports the same fault on the same line (`places`). Some document
//!     begins with each text that only ends too early (`end`).
//!   - `lines_are_read`: a line is read as a line of a kind, with what it says, exactly if the relation of this kind in
//!     `specs/Grammar.antt` holds.
//!   - A text denotes at most one draft and has at most one first fault. It has one of the two, never both.
//!   - The first fault is in exactly the first line with which no document continues, or after the last line.
//!   - `canonical_texts_read_back`: the canonical text reads as the same case (`back`), distinguishes cases (`apart`), and is
//!     the canonical text of what is read (`again`).
//! - `expressions_are_decided`: a text is an expression of one entry, or has one fault, never both.
//!
//! Tables of texts, with their lines by hand, are in tests_cases.
//!
//! The whole form is read and written: one graph or several with their shares, stages with what each hypothesis
//! spends, by a list or a table, and p-values that arrived. What is written is read back as the same case, for every
//! case.
#![tactic(auto)]

mod draft_lines;
mod ends;
mod fault;
pub mod laws;
mod place;
mod rules;
mod so_far;
mod spend_words;
mod text_reader;
mod write;
mod write_stages;
mod write_words;

pub use draft_lines::draft;
pub use edge_expression::{ExprFault, print_entry};
pub use entries::read_entry;
pub use fault::{LineKind, TextFault};
pub use text_reader::read_text;
pub use write::write_text;
