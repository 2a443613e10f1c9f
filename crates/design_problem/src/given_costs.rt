//! The cost lines of an answer, and the costs that they give.
ghost use Rattle.std.specs.Prelude.{◌≡◌, ℕ, ◌<◌, length, replicate, All, IfOk};
ghost use Rattle.design_problem.specs.Answers.{lines_in};
ghost use Rattle.design_problem.specs.GivenCosts.{written};

use crate::{CostLine, Costs, VarName};
use cost_base::OutOfMemory;
use std::alloc::Global;

/// The cost lines of an answer's costs; none where it has no costs.
pub fn lines_in(costs: &Option<Costs>) -> &[CostLine]
    ensures { result.now ≡ lines_in costs.now }
{
    match costs {
        Some(costs) => costs.lines.as_slice(),
        None => &[],
    }
}

/// The costs that the lines give so many variables: each line's is written at its variable.
///
/// # Errors
///
/// `OutOfMemory`.
pub fn costs_given(
    alloc: Global,
    count: usize,
    names: &[VarName],
    lines: &[CostLine],
) -> Result<Vec<u16>, OutOfMemory>
    requires counts { length names.now ≡ length lines.now }
    requires known { All (λ name. name.var < count) names.now }
    ensures { IfOk result (λ costs. costs.items ≡ written (replicate count 0) names.now lines.now) }
{
    let mut costs = vec![in alloc; 0u16; count]?;
    for (index, name) in names.iter().enumerate() {
        costs[name.var as usize] = lines[index].cost;
    }
    Ok(costs)
}
