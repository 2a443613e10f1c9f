//! The test of the wanted paths.
ghost use Rattle.std.specs.Prelude.{◌≡◌, ◌↔◌, ℕ, All, IsTrue, IfOk, IfNone};
ghost use Rattle.area_graph.specs.Costs.{at_costs, IsOnlyCheapest, FitsPoint};
ghost use Rattle.area_graph.specs.Paths.{IsPathOf};
ghost use Rattle.design_problem.specs.Problems.{request_ends};
ghost use Rattle.evidence_checker.specs.Costs.{IsFirstTied};

use area_graph::{BorrowedRequest, Graph, Point, is_only_cheapest, point_of};
use cost_base::OutOfMemory;
use design_problem::Request;
use std::alloc::Global;

/// Whether the request's path is the only cheapest among the simple paths of the request.
fn is_only(
    alloc: Global,
    graph: &Graph,
    point: &Point,
    request: &Request,
) -> Result<bool, OutOfMemory>
    requires fits { FitsPoint graph.now point.now }
    requires path { IsPathOf graph.now (request_ends request.now) request.now.path.edges }
    ensures { IfOk result (λ yes. IsTrue yes ↔ IsOnlyCheapest graph.now point.now
        (request_ends request.now) request.now.path.edges) }
{
    let wanted = BorrowedRequest {
        path: &request.path,
        end: request.end,
        excluded: request.excluded.as_slice(),
    };
    is_only_cheapest(alloc, graph, point, &wanted)
}

/// The first request whose path isn't the only cheapest among the simple paths of the request.
pub(crate) fn first_not_only(
    alloc: Global,
    graph: &Graph,
    requests: &[Request],
    costs: &[u16],
) -> Result<Option<u64>, OutOfMemory>
    requires fits { FitsPoint graph.now (at_costs costs.now) }
    requires requests { All (λ r. IsPathOf graph.now (request_ends r) r.path.edges) requests.now }
    ensures { IfOk result (λ first. IsFirstTied graph.now requests.now costs.now first) }
{
    let point = point_of(alloc, costs)?;
    for (index, request) in requests.iter().enumerate() {
        if !is_only(alloc, graph, &point, request)? {
            return Ok(Some(index as u64));
        }
    }
    Ok(None)
}
