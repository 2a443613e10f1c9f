//! The problem of the present network, in which every link is fixed.
ghost use Rattle.std.specs.Prelude.{◌≡◌, [], map, IfOk};
ghost use Rattle.std.specs.List.{filter_map};
ghost use Rattle.area_graph.specs.declared.Price.TheVariants.{Fixed};
ghost use Rattle.path_requests.specs.Meaning.{present_cost};
ghost use Rattle.wanted_paths.specs.Paths.{request_of};
ghost use Rattle.path_requests.specs.Resolving.{cost_faults, present_asked, present_problem_of};
ghost use Rattle.wanted_paths.specs.LineFaults.{line_faults};
ghost use Rattle.wanted_paths.specs.Paths.{outline};

use crate::choices::items;
use crate::problems::present_cost;
use area_graph::Price;
use cost_base::{Listed, OutOfMemory};
use design_problem::{Problem, Request};
use request_reader::RequestFile;
use std::alloc::Global;
use wanted_paths::Names;

/// The present cost of each link.
fn present_prices(
    alloc: Global,
    names: &Names,
    request_file: &RequestFile,
) -> Result<Vec<Price>, OutOfMemory>
    ensures { IfOk result (λ made. made.items ≡ map (λ link. Fixed (present_cost request_file.now
        link)) names.now.links) }
{
    let mut made = Vec::new(alloc);
    for link in names.links() {
        made.push(Price::Fixed(present_cost(request_file, link)))?;
    }
    Ok(made)
}

/// The problem without a variable whose paths are those.
pub fn assemble_present(
    alloc: Global,
    names: &Names,
    request_file: &RequestFile,
    requests: Vec<Request>,
) -> Result<Problem, OutOfMemory>
    requires requests { requests.items ≡ filter_map (λ item. request_of names.now (outline
        names.now) item.what) request_file.now.items }
    requires lines { line_faults names.now request_file.now.items ≡ [] }
    requires costs { cost_faults (present_asked request_file.now) names.now 0 names.now.links ≡ [] }
    ensures { IfOk result (λ problem. problem ≡ present_problem_of request_file.now names.now) }
{
    // For the prover: what the types of a request file and of an area keep is known once their parts are read.
    let _lines = items(request_file);
    let _links = names.links();
    let prices = present_prices(alloc, names, request_file)?;
    let graph = names.graph(alloc, prices.as_slice())?;
    Ok(Problem {
        graph,
        vars: Listed::from_items(Vec::new(alloc)),
        low: Listed::from_items(Vec::new(alloc)),
        high: Listed::from_items(Vec::new(alloc)),
        requests: Listed::from_items(requests),
    })
}
