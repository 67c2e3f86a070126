//! All of the program except its `main`: the words after its name, its real devices, and the call over them.
//!
//! `call` reads the words, takes standard input and standard output, opens what the words name, calls `run_program`, and returns
//! its status. It is proved safe.
//!
//! Proved:
//! - `FileOpener` opens the file and the store at the paths that it is given (`at`).
//!
//! Only tested:
//! - `call` gives the right words and devices to `run_program`, and its status is that of the process: shown by the stored runs
//!   of the programs `welungad`, `welungad_check` and `welungad_study`.
//! - `call` opens the real files: shown by `bench/study.py`.
//! - `call` itself has two statuses, with which nothing is printed: 10 if a word can't be read (`tools/test_tools.py`), and 8
//!   if there is no memory for the words (`bench/allocations.sh`).
#![tactic(auto)]

mod file_at;
mod opener;
mod words;

use crate::opener::FileOpener;
use crate::words::program_words;
use graph_io::{StdSink, StdSource};
use program::run_program;
use std::process::ExitCode;
use study_sqlite::{Start, Wary};

/// Makes the call that the words after the program's name require, and returns the status of `run_program`, or of `NoWords` if
/// the words can't be read.
///
/// It is `call_from`, which is proved for every content that the file of looks may have had before. Of the disk it supposes that
/// what was synced stays; where a write was cut off, any bytes may be left.
pub fn call(rt: &HostRuntime) -> ExitCode {
    call_from(rt, Wary)
}

/// Makes the call over a file of looks that held what `S` names before the call.
pub fn call_from<S: Start>(rt: &HostRuntime, start: S) -> ExitCode {
    match program_words(rt) {
        Ok(words) => {
            let mut opener = FileOpener::new(rt, start);
            let mut case = StdSource::new(rt.stdin());
            let mut out = StdSink::new(rt.stdout());
            run_program(
                rt.alloc(),
                words.as_slice(),
                &mut opener,
                &mut case,
                &mut out,
            )
        }
        Err(none) => ExitCode::from(none.status()),
    }
}
