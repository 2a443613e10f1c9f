//! The program on words that are no command's: it ends with status 7.
#![tactic(auto)]

use host_program::run_host;
use std::process::ExitCode;

fn main(rt: HostRuntime) -> ExitCode {
    run_host(&rt)
}
