//! The program again, for a stored run of a study (`args`, `stdin`, `stdout`, `data`).
//!
//! The run begins with a file of looks that the release before this one made, and that holds one record. It shows that the
//! store at the path that the words name is opened, and that what this store holds is read.
#![tactic(auto)]

use std::process::ExitCode;
use welungad_main::call;

fn main(rt: HostRuntime) -> ExitCode {
    call(&rt)
}
