//! The total of the costs of an answer.
ghost use Rattle.std.specs.Prelude.{◌≡◌, ◌≤◌, length, IfOk};
ghost use Rattle.std.specs.List.{sum};
ghost use Rattle.design_problem.specs.GivenCosts.{costs_given};

use cost_base::OutOfMemory;
use design_problem::{CostLine, Problem, costs_given, sum_of_costs};
use std::alloc::Global;

/// The total of the costs of all variables, by the lines of an answer.
pub(crate) fn total_of(
    alloc: Global,
    problem: &Problem,
    lines: &[CostLine],
) -> Result<u128, OutOfMemory>
    requires { length problem.now.vars ≡ length lines.now }
    ensures { IfOk result (λ total. total ≡ sum (costs_given problem.now lines.now)) }
{
    let count = problem.low.as_slice().len();
    let costs = costs_given(alloc, count, problem.vars.as_slice(), lines)?;
    Ok(sum_of_costs(&costs))
}
