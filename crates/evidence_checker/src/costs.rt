//! Where the cost lines of an optimal answer are wrong: whether they name the free interfaces in order, and the first
//! variable of two different costs or of a cost outside its bounds. No refusal is made here.
ghost use Rattle.std.specs.Prelude.{◌≡◌, ◌↔◌, ◌⊎◌, ℕ, ◌^◌, ◌<◌, ◌≤◌, MatchBool, max, fold, length, replicate, slice_index, All, IsTrue, IfOk, MatchOption};
ghost use Rattle.area_graph.specs.Costs.{at_costs, IsOnlyCheapest, FitsPoint};
ghost use Rattle.design_problem.specs.Problems.{request_ends};
ghost use Rattle.design_problem.specs.Rows.{greatest_cost};
ghost use Rattle.evidence_checker.specs.Refusals.{IsFirstPlace};
ghost use Rattle.evidence_checker.specs.Costs.{lesser_of};
ghost use Rattle.evidence_checker.specs.Tests.{NamesPlaces, HasUnequalEnds, IsOutside};
ghost use Rattle.design_problem.specs.GivenCosts.{written};

use design_problem::{CostLine, VarName};

/// Whether a line names a free interface.
fn names_place(name: &VarName, line: &CostLine) -> bool
    ensures { IsTrue result ↔ (line.now.router ≡ name.now.router) ×
        (line.now.interface ≡ name.now.interface) }
{
    line.router.as_bytes() == name.router.as_bytes()
        && line.interface.as_bytes() == name.interface.as_bytes()
}

/// Whether the lines name the free interfaces, each once, in their order.
pub(crate) fn names_places(names: &[VarName], lines: &[CostLine]) -> bool
    ensures { IsTrue result ↔ NamesPlaces names.now lines.now }
{
    if names.len() != lines.len() {
        return false;
    }
    for (index, name) in names.iter().enumerate() {
        if !names_place(name, &lines[index]) {
            return false;
        }
    }
    true
}

/// Whether a line gives its variable another cost than it has.
fn is_off(name: &VarName, line: &CostLine, costs: &[u16]) -> bool
    requires { name.now.var < length costs.now }
    ensures { MatchBool result (line.now.cost ≡ slice_index costs.now name.now.var → ⊥)
        (line.now.cost ≡ slice_index costs.now name.now.var) }
{
    line.cost != costs[name.var as usize]
}

/// The lesser of a variable and the least so far.
fn lesser(least: Option<u32>, var: u32) -> u32
    ensures { result ≡ lesser_of least var }
{
    match least {
        Some(least) => least.min(var),
        None => var,
    }
}

/// The first variable that has two lines of different costs, where the costs are those that the lines give.
pub(crate) fn first_unequal(names: &[VarName], lines: &[CostLine], costs: &[u16]) -> Option<u32>
    requires counts { length names.now ≡ length lines.now }
    requires known { All (λ name. name.var < length costs.now) names.now }
    requires given { costs.now ≡ written (replicate (length costs.now) 0) names.now lines.now }
    ensures { IsFirstPlace (HasUnequalEnds names.now lines.now) result }
{
    let mut least = None;
    for (index, name) in names.iter().enumerate() {
        if is_off(name, &lines[index], costs) {
            least = Some(lesser(least, name.var));
        }
    }
    least
}

/// Whether a cost is outside a range.
fn is_out(cost: u16, low: u16, high: u16) -> bool
    ensures { MatchBool result ((cost < low) ⊎ (high < cost)) ((low ≤ cost) × (cost ≤ high)) }
{
    cost < low || high < cost
}

/// The first variable whose cost is outside its bounds.
pub(crate) fn first_outside(low: &[u16], high: &[u16], costs: &[u16]) -> Option<u32>
    requires low { length low.now ≡ length costs.now }
    requires high { length high.now ≡ length costs.now }
    requires count { length costs.now < 2 ^ 32 }
    ensures { IsFirstPlace (IsOutside low.now high.now costs.now) result }
{
    for var in 0..costs.len() {
        if is_out(costs[var], low[var], high[var]) {
            return Some(var as u32);
        }
    }
    None
}
