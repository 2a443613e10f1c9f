//! The program on words whose costs are found: it ends with status 0.
#![tactic(auto)]

use host_program::run_host;
use std::process::ExitCode;

fn main(rt: HostRuntime) -> ExitCode {
    run_host(&rt)
}
