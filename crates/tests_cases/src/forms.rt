//! Tests of the forms of a case: lines and words, expressions, texts, sheets and JSON. They are tested as they are read and as
//! they are written, with each fault and its place by hand.

mod checks;
mod expressions;
mod lines;
mod object_cases;
mod object_faults;
mod objects;
mod sheets;
mod text_cases;
mod text_drafts;
mod text_faults;
mod texts;
