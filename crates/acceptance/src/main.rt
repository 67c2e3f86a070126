//! Whole runs of the top calls, read from tables, which hold what each run is given and how it is to end.
//!
//! The program reads the tables that its words name, and runs each row through `graph_cli::run` or `study_cli::run_study` over
//! sources, sinks and keepers in memory. For each table it prints how many rows and runs there were. Before that it prints each
//! run that ended otherwise: the table and the line of its row, how the devices were planned, what was expected and what came.
//! It ends with status 1 if there was such a run or if a table can't be read, else with 0.
//!
//! Empty lines of a table, and lines that begin with `#`, are skipped. A row begins with one of these lines:
//!
//!     run WORD ..           a call of `run`; blanks separate its words, and what is in double quotes is one word
//!     run_study WORD ..     a call of `run_study`
//!     file_word WORD ..     a call of `file_word`, which ends with the number of the word that names a file, from 1, or 0
//!
//! Further lines of a row give its inputs and its end:
//!
//!     case                  the bytes on standard input; without them it fails at its first take
//!     file                  the bytes of the file, a proof or the commands of a study; without them it fails likewise
//!     kept PLACE STAGE P    a look that the keeper holds before, of the hypothesis at a place, from 0
//!     keeps PLACE STAGE P   a further look that it holds in the end
//!     keeper none           the keeper fails at its first call
//!     ends STATUS           the status, and all that is printed
//!     leaves COUNT          how many bytes of the case aren't taken; none without this line
//!     checked               what `check` prints, with status 0, of the case and of what was printed
//!     fronts case STATUS:COUNT ..
//!                           how many runs over front parts of the case (with `file`, of the file), the empty one and the whole
//!                           among them, end with each status; below, how the one line begins that is printed with each status
//!                           except 0 and 1
//!     room BYTES            the sink has room for this number of bytes, and takes what fits at once
//!     counts LINES DIGEST   the number of lines that are printed, and the FNV-1a digest of all bytes, in hexadecimal
//!     devices               it is run again over devices that move few bytes, and over such as fail, each call in turn
//!
//! Bytes are given in the lines below:
//!
//!     | TEXT                a text and a line feed
//!     / TEXT                a text
//!     % 0D 0A               bytes in hexadecimal
//!     * 64 TEXT             a text, this number of times
//!     text NAME             begins a text that has a name, and its bytes stand below
//!     = NAME                such a text
//!     < NAME 4              its lines before the fourth
//!     > NAME 4              its lines after the fourth
//!     ...                   any lines, among what is printed
#![tactic(auto)]

mod blocks;
mod counts;
mod devices;
mod endings;
mod findings;
mod fronts;
mod pieces;
mod plan;
mod printed;
mod rows;
mod runs;
mod tables;
mod words;

use anyhow::{Context, Result};
use std::process::ExitCode;
use std::{env, fs};

/// Runs a table, prints what is reported of it, and returns whether each run ended as expected.
fn is_clean(rt: &HostRuntime, path: &str) -> Result<bool> {
    let table = fs::read_to_string(rt, path)?;
    let findings = tables::run_table(rt.alloc(), path, table.as_str())?;
    rt.print(&findings)?;
    Ok(findings.is_clean())
}

fn main(rt: HostRuntime) -> Result<ExitCode> {
    let mut status = 0;
    for path in env::args(&rt)?.skip(1) {
        if !is_clean(&rt, path.as_str()).context(path.as_str())? {
            status = 1;
        }
    }
    Ok(ExitCode::from(status))
}
