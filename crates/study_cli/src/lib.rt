//! The command `study`, over a keeper of looks: words, a case and commands in, a text and a status out. First the case and all
//! commands are read. Then the looks that the keeper holds are taken, and the commands are replied to in their order.
//!
//! Proved, of `run_study`:
//! - `runs`, by status (`Runs`, over the ways of `over_keeper`). With a status up to 5, the whole text of an answer was put
//!   that the words, the case, the commands and the kept looks require (`study_outcome`). The keeper holds its looks too. 6, 7
//!   and 9 come only if a source that is read, the sink or the keeper had a fault in this call. 8 comes with `no memory`. With
//!   6 no look is added; with 8 and 9 only looks that commands before some place take. If no fault came, the status is up to 5,
//!   or 8; and with these statuses no fault came. With 6 the keeper and the sink had none, with 9 the sources and the sink had
//!   none.
//! - `case`, `commands`, `untouched`: a source that isn't read stays as it was, and one that is read was read to its end
//!   after status 0. The commands are read only after a case that a study can take, and the keeper is asked only after all commands
//!   are accepted.
//! - `case_taken`, `commands_taken`: of a source that isn't read to its end, at most one byte more than it may have is taken.
//!   The takes are at most one more than the bytes that it may have.
//! - `commands_asked`: a call that ends with an answer has taken from the commands, if it reads them and hasn't refused the
//!   case.
//! - `turns`: the keeper is called only after all commands are accepted, and its calls are at most one more than the looks that
//!   they ask for.
//!
//! Proved, of what it calls:
//! - `read_commands`: `read` (what the text denotes, or the first line that denotes no command, with its number and what is
//!   wrong with it). Both are what the form of commands reads (`commands_of`). `below` (each look is of a hypothesis of the case).
//! - `study_answer`: `ends` (`over_keeper`: it gives what the kept looks and the commands require, `study_stage`, and the
//!   keeper holds its looks too). It is refused only for the opening of the case and for the kept looks, and then no look is
//!   added. After a fault of the keeper, and out of memory, the looks of the commands up to some place may be added. `later`:
//!   no count of faults falls. `turns`: the keeper's calls are at most one more than the looks that the commands ask for.
//!
//! - `store_path`: it returns the path that the option `store` names (`path`), and `None` only if the words name none (`none`).
//!
//! Laws in `src/laws.rt`:
//! - `studies_have_one_outcome`, and of kept looks and commands `studies_have_one_end`.
//! - `kept_looks_decide`: by any commands that are answered to their end, the rejections are those of the staged closed test on
//!   all looks that are kept. `taken_looks_are_first`: commands that stop part way keep the first of those that all take.
//! - `commands_are_read_by_lines`: a text denotes commands exactly if its lines denote them, one each (`said`). Its first
//!   fault is that of the first line that denotes none (`fault`), which is where no text of commands continues (`first`).
#![tactic(auto)]

mod answer;
mod command;
mod fault;
pub mod laws;
mod reading;
mod replying;
mod rules;
mod store;
mod study;

pub use store::store_path;
pub use study::run_study;
