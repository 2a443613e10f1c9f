//! The program on words whose answer is off the grammar: it ends with status 8.
#![tactic(auto)]

use host_program::run_host;
use std::process::ExitCode;

fn main(rt: HostRuntime) -> ExitCode {
    run_host(&rt)
}
