//! The program again, for a stored run of a check (`args`, `stdin`, `stdout`, `status`, `data`).
//!
//! The run checks a proof that doesn't hold. It shows that the file that the words name is read, and that the process ends with
//! the status of the call.
#![tactic(auto)]

use std::process::ExitCode;
use welungad_main::call;

fn main(rt: HostRuntime) -> ExitCode {
    call(&rt)
}
