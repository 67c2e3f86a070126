//! Decisions on many rows of p-values of one case.
//!
//! Proved of `test_rows`:
//! - `rows`: each row has one of three statuses. It is 3 exactly if a double has no reading, else 5 exactly if the written run with
//!   the readings is undefined, and else 0. With 3 and 5 each mark of the row is 0. With 0 a mark is 1 exactly if the closed test
//!   rejects the hypothesis with the readings of the row's doubles, and else 0.
//! - `fit`, `opening`, `fault`: unless out of memory, the call is refused exactly if the lengths don't fit or the opening is
//!   undefined. After a refusal nothing is written (`rejected`, `statuses`).
//!
//! Law `marks_stay_where_doubles_fall`: of two decided rows on one case, let each double of the one be at most that of the other.
//! Then the one has a mark wherever the other has.
#![tactic(auto)]

mod fault;
pub mod laws;
mod row;
mod row_end;
mod rows;

pub use fault::RowsFault;
pub use rows::test_rows;
