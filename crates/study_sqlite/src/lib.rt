//! Looks kept in a file by SQL.
//!
//! Proved:
//! - `to_row`: `row` (the row of the look, `IsRow`). `from_row`: `found`, `only`, `other` (a look exactly if the three values
//!   are the row of one, and that look).
//! - `read_rows`: `read` (the looks of the rows, in their order), `fault` (the first row that is not the row of a look).
//! - Statements of `table`, over any connection, by what the connection showed before and after, as long as the disk returned what
//!   was written. `make` and `put` ran `make_sql` and `put_sql` with the values of the row, or report the error that the statement
//!   gave (`made`, `ran`, `why`). `rows` returns the rows of the answer to `rows_sql`, in its order (`shown`). It is refused only
//!   if that statement gave an error or showed a row that is not the row of a look (`why`). What the statements do to a table is
//!   the meaning that the crate `sqlite` gives their texts (`Executes`, `Shown`, `FailsToQuery`).
//! - `looks_in` and `keep_in` of `kept`: the table is made, and then all rows are shown and read, or the row of the look is put
//!   there (`kept`, `put`). They are refused only if one of the two statements was, or for a row that is not the row of a look
//!   (`why`).
//! - Laws in `src/laws.rt`: rows and looks correspond one to one (`rows_and_looks_correspond`). Rows are read as looks in one
//!   way, or have one first bad row, and not both (`rows_have_one_reading`).
//!
//! Proved of `FileKeeper<S>`, a `Keeper` that doesn't expose its looks. Its clauses are for every first content `S` of the file and
//! its log, as long as the disk returned what was written:
//! - If the file held some looks, as `FileHolds` defines it, then `load` gives exactly these, and the file holds them still (`all`).
//!   `append` leaves them and the new one (`one`). After `close` the two files hold them, as they read then and after a crash, also
//!   the database file without its log (`left`). `FileHolds` is the premise of the next day's keeper, so days follow one another.
//! - It counts its calls (`turn`). A fault comes only if its count of faults rose, and else that count stays. Each refusal by an
//!   open file is reported as a fault, and out of memory as such (`counted`).
//! - After a successful `load`, the looks of all rows that the file showed follow those in the list (`looks`). A refused load leaves
//!   the list as it was. After a successful `append`, the row of the look was put into the file (`look`).
//! - Both report a fault only if the file isn't open then, or a statement gave an error. `load` also reports one if the file showed
//!   a row that is not the row of a look (`why`).
//! - When out of memory, no statement ran but those of the call. The one that puts a row did not run, or gave this error (`memory`,
//!   also of `rows`, `looks_in` and `keep_in`).
//! - A keeper that is made `at` a path isn't open yet, and a `new` one is over its connection (`storage`).
//! - `close` gives back the log and the database file of a connection, or reports an error of the connection's close (`why`). The
//!   last commit is in the database file then, alone and also after a crash (`closed`). For a file that was never opened `close`
//!   gives back neither.
//!
//! A keeper can't be let go without its `close`, since its type has no `Drop`. An opening that was refused isn't tried again.
//!
//! Only tested: that the file is the one at the path, and that it isn't opened before the first call. Also that its opening and its
//! close are refused only if they have to be, and what the file holds after a call that was cut off or refused.
#![tactic(auto)]

mod closed;
mod fault;
mod keeper;
mod kept;
pub mod laws;
mod printed;
mod row;
mod rows;
mod storage;
pub mod table;

pub use closed::Closed;
pub use fault::{FileFault, RowsFault};
pub use keeper::{FileKeeper, SqliteKeeper};
pub use row::{LookRow, from_row, to_row};
pub use rows::read_rows;
pub use sqlite::{Start, Unknown, Wary};
pub use table::FileConnection;
