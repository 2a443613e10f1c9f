//! The present costs of the variables that requests make of a network, as they are written.
ghost use Rattle.std.specs.Prelude.{◌≡◌};
ghost use Rattle.path_requests.specs.Meaning.{problem_of};

use design_problem::Problem;
use lsdb_build::Lsdb;
use present_costs::{present_of_variables, resolve_beside_present};
use request_reader::RequestFile;
use std::alloc::{AllocError, Global};
use std::fmt;

/// The present costs of variables as they are written, `-` where there is none.
#[derive(Drop)]
struct Costs<'a>(&'a [Option<u16>]);

impl<'a> fmt::Display for Costs<'a> {
    fn fmt<W: fmt::Write>(&self, f: &mut fmt::Formatter<W>) -> fmt::Result {
        for cost in self.0 {
            match cost {
                Some(cost) => write!(f, " {cost}")?,
                None => write!(f, " -")?,
            }
        }
        Ok(())
    }
}

/// What is told of the present costs of a problem's variables.
fn costs_text(
    alloc: Global,
    request_file: &RequestFile,
    network: &Lsdb,
    problem: &Problem,
) -> Result<String, AllocError>
    requires { problem.now ≡ problem_of request_file.now network.now }
{
    match present_of_variables(alloc, request_file, network, problem) {
        Ok(costs) => format!(in alloc; ": present{}", Costs(costs.as_slice())),
        Err(_) => Err(AllocError),
    }
}

/// The present cost of each variable that requests make of a network, or their first fault.
pub(crate) fn beside_text(
    alloc: Global,
    request_file: &RequestFile,
    network: &Lsdb,
) -> Result<String, AllocError> {
    match resolve_beside_present(alloc, request_file, network) {
        Ok(problem) => costs_text(alloc, request_file, network, &problem),
        Err(stop) => format!(in alloc; ": {stop:?}"),
    }
}
