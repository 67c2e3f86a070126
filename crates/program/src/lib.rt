//! The program over an opener: which files it opens for its words, and which call it makes over them.
//!
//! Proved of `run_program`:
//! - `run`, `study`:
//!   - Words that begin with `study` are those of `run_study`, all others those of `run`. The call does what that function does
//!     over the file that the words name, and over the store that they name, or over no looks if they name none.
//!   - Only this file and this store are opened, at these paths. Each is given back as it is after the call, with its calls and
//!     its faults.
//!   - A file that isn't read was left alone, and one that is was read to its end after status 0.
//!   - A file that can't be opened fails at each take, so that a call that reads it ends with 6, 7 or 8. If there is no memory
//!     to open a file or a store, the status is 8, and nothing is read or put.
//! - `untouched`: a case that the words don't read stays as it was.
//! - `run_end`, `study_end`: a case that they read was read to its end after status 0.
//! - `case_taken`: from a case that isn't read to its end, at most one byte more than an input may have is taken.
//!
//! Proved of `file_path`: it returns the path of the file that the words name (`path`), and `None` only if they name none
//! (`none`).
#![tactic(auto)]

mod opener;
mod over_file;
mod top;

pub use opener::{NotOpened, Opener};
pub use top::{file_path, run_program};
