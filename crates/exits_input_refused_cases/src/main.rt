//! The program on words whose files have a fault: it ends with status 3.
#![tactic(auto)]

use host_program::run_host;
use std::process::ExitCode;

fn main(rt: HostRuntime) -> ExitCode {
    run_host(&rt)
}
