//! The printed lines of costs.
ghost use Rattle.std.specs.Prelude.{◌≡◌, ℕ, ◌<◌, ◌≤◌, length, slice_index, All, IfOk};
ghost use Rattle.design_problem.specs.Answers.{CostLinesOf};
ghost use Rattle.printed_rows.specs.PrintedCosts.{ArePrintedCosts};

use cost_base::{Listed, OutOfMemory};
use design_problem::{CostLine, Costs, Problem, VarName, cost_line, greatest_of};
use std::alloc::Global;

/// The lines that give each free interface the cost of its variable, in order.
fn cost_lines(alloc: Global, names: &[VarName], costs: &[u16]) -> Result<Vec<CostLine>, OutOfMemory>
    requires { All (λ name. name.var < length costs.now) names.now }
    ensures lines { IfOk result (λ lines. CostLinesOf costs.now names.now lines.items) }
    ensures most { (k : ℕ) → k < length costs.now → slice_index costs.now k ≤ 65535 }
{
    let mut lines = Vec::new(alloc);
    for name in names {
        let cost = costs[name.var as usize];
        let (router, interface) = (name.router.as_bytes(), name.interface.as_bytes());
        lines.push(cost_line(alloc, router, interface, cost)?)?;
    }
    Ok(lines)
}

/// Costs of a problem's variables, from 1, as they are printed: a line for each free interface, with the cost of its
/// variable, and the greatest of the costs.
///
/// # Errors
///
/// `OutOfMemory`.
pub fn printed_costs(alloc: Global, problem: &Problem, costs: &[u16]) -> Result<Costs, OutOfMemory>
    requires counted { length costs.now ≡ length problem.now.low }
    requires positive { All (λ cost. 1 ≤ cost) costs.now }
    ensures { IfOk result (ArePrintedCosts problem.now costs.now) }
{
    let lines = cost_lines(alloc, problem.vars.as_slice(), costs)?;
    Ok(Costs {
        greatest: greatest_of(costs),
        lines: Listed::from_items(lines),
    })
}
