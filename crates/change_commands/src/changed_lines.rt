//! The cost lines that differ from the present ones.
ghost use Rattle.std.specs.Prelude.{◌≡◌, ◌++◌, IfOk, OnOk};
ghost use Rattle.lsdb_build.specs.Graphs.{IsAreaDatabase};
ghost use Rattle.path_requests.specs.Meaning.{problem_of};
ghost use Rattle.change_commands.specs.ChangedLines.{changed_lines, line_with, changed_cost};

use area_graph::{Graph, Price};
use cost_base::OutOfMemory;
use design_problem::{CostLine, cost_line};
use input_files::Network;
use lsdb_build::{Linked, Lsdb};
use path_requests::present_cost;
use present_costs::price_of_link;
use std::alloc::Global;

/// The graph of a network's problem. For the prover: a call, so that the caller's goals have this part alone.
fn graph_of(network: &Network) -> &Graph
    ensures { result.now ≡ network.now.problem.graph }
{
    &network.problem.graph
}

/// The new cost of a link at this price, where it isn't the present one.
fn changed_cost(price: Price, present: u16, costs: &[u16]) -> Option<u16>
    ensures { result ≡ changed_cost price present costs.now }
{
    match price {
        Price::Var(variable) => {
            let cost = match costs.get(variable as usize) {
                Some(cost) => *cost,
                None => 0,
            };
            if present == cost { None } else { Some(cost) }
        }
        Price::Fixed(_) | Price::Zero => None,
    }
}

/// Adds the line of a link that has a new cost.
fn push_changed(
    alloc: Global,
    lines: &mut Vec<CostLine>,
    lsdb: &Lsdb,
    link: &Linked,
    cost: Option<u16>,
) -> Result<(), OutOfMemory>
    ensures { OnOk result (lines.new.items ≡ lines.old.items ++ line_with lsdb.now link.now cost) }
{
    if let Some(cost) = cost {
        let router = lsdb.router_name(link.router);
        let line = cost_line(alloc, router, link.interface.as_bytes(), cost)?;
        lines.push(line)?;
    }
    Ok(())
}

/// The cost lines of a network that costs of its variables change: those of the free interfaces whose variable hasn't
/// their present cost, in the order of the links. One pass over these.
///
/// # Errors
///
/// `OutOfMemory`.
pub(crate) fn changed_lines(
    alloc: Global,
    network: &Network,
    costs: &[u16],
) -> Result<Vec<CostLine>, OutOfMemory>
    requires { network.now.problem ≡ problem_of network.now.request_file network.now.lsdb }
    ensures { IfOk result (λ lines. lines.items ≡ changed_lines network.now.request_file
        network.now.lsdb costs.now) }
{
    let graph = graph_of(network);
    let mut lines = Vec::new(alloc);
    for (i, link) in network.lsdb.links().iter().enumerate() {
        let cost = changed_cost(
            price_of_link(graph, i as u32),
            present_cost(&network.request_file, link),
            costs,
        );
        push_changed(alloc, &mut lines, &network.lsdb, link, cost)?;
    }
    Ok(lines)
}
