//! Tests of evidence: documents that hold and that don't, with each reason by hand, and evidence that is made, written
//! and read back.

mod cases;
mod checks;
mod documents;
mod made;
mod written;
