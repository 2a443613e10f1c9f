//! `ospfcost`, a cost designer for OSPF networks: the program.
#![tactic(auto)]

use host_program::run_host;
use std::process::ExitCode;

fn main(rt: HostRuntime) -> ExitCode {
    run_host(&rt)
}
