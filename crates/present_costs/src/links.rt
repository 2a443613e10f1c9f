//! The links of an area in order: their present costs, and the graph in which each has a variable of its own.
ghost use Rattle.std.specs.Prelude.{◌≡◌, ◌<◌, ◌^◌, map, length, IfOk};
ghost use Rattle.cost_base.specs.Lists.{numbers_from};
ghost use Rattle.area_graph.specs.declared.Price.TheVariants.{Var};
ghost use Rattle.path_requests.specs.Meaning.{present_cost};
ghost use Rattle.present_costs.specs.AtCosts.{graph_by_links};

use area_graph::{Graph, Price};
use cost_base::OutOfMemory;
use lsdb_build::{Lsdb, graph_of};
use path_requests::present_cost;
use request_reader::RequestFile;
use std::alloc::Global;

/// The present cost of each link, in order: its cost line's, or the default of the request file.
///
/// # Errors
///
/// `OutOfMemory`.
pub fn costs_of_links(
    alloc: Global,
    request_file: &RequestFile,
    lsdb: &Lsdb,
) -> Result<Vec<u16>, OutOfMemory>
    ensures { IfOk result (λ costs. costs.items ≡ map (present_cost request_file.now)
        lsdb.now.links) }
{
    let mut costs = Vec::new(alloc);
    for link in lsdb.links() {
        costs.push(present_cost(request_file, link))?;
    }
    Ok(costs)
}

/// So many variables, in order.
fn variables(alloc: Global, count: u32) -> Result<Vec<Price>, OutOfMemory>
    ensures { IfOk result (λ prices. prices.items ≡ map Var (numbers_from 0 count)) }
{
    let mut prices = Vec::new(alloc);
    for number in 0..count {
        prices.push(Price::Var(number))?;
    }
    Ok(prices)
}

/// The graph of an area in which the cost of each link is a variable of its own, whose number is the link's (RFC 2328,
/// 16.1). At the point of some costs, one for each link, its paths cost what they cost in the graph with those costs.
///
/// # Errors
///
/// `OutOfMemory`.
pub fn priced_by_links(alloc: Global, lsdb: &Lsdb) -> Result<Graph, OutOfMemory>
    ensures { IfOk result (λ graph. graph ≡ graph_by_links lsdb.now) }
{
    let prices = variables(alloc, lsdb.links().len() as u32)?;
    graph_of(alloc, lsdb, prices.as_slice())
}
