//! The program: it ends with the status of `call`.
//!
//! Its stored run (`args`, `stdin`, `stdout`) decides Holm's procedure on three hypotheses. It opens no file.
#![tactic(auto)]

use std::process::ExitCode;
use welungad_main::call;

fn main(rt: HostRuntime) -> ExitCode {
    call(&rt)
}
