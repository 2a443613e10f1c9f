//! Whether a path is the only cheapest, by plain distances: passes over all edges until nothing changes. A checker
//! stands on this module and on the passes alone for its test of paths, and on no shortest-path algorithm.

ghost use Rattle.std.specs.Prelude.{◌≡◌, ◌↔◌, ◌++◌, ◌∷◌, [], ◌≤◌, ◌<◌, ◌*◌, ◌+◌, ◌^◌, ℕ, All, IfOk, IsTrue, List, length};
ghost use Rattle.area_graph.specs.Area.{edge_at, edges_out};
ghost use Rattle.area_graph.specs.Costs.{FitsPoint, IsOnlyCheapest, cost};
ghost use Rattle.area_graph.specs.Paths.{IsPathOf, IsSimple, ends_wanted};
ghost use Rattle.area_graph.specs.Distances.{AreDistancesTo, AreEdgeMarks, AreNumbersIn, FitsSubgraph, LeadsToMore, OtherEdgesLeadToMore, far, through};

use crate::costs::{path_cost, price_of};
use crate::exclusion::{Exclusion, mark_excluded};
use crate::passes::put_distances;
use crate::paths::edge_of;
use crate::subgraph::Subgraph;
use crate::{Graph, Path, Point};
use cost_base::{OutOfMemory, no_marks};
use std::alloc::Global;

/// What no path costs at scale 1: one over at most 1,000 routers, each left at a cost of at most 65535, costs less.
pub const FAR: u128 = 1 << 26;

/// A path with what a request says of it.
#[derive(Clone, Copy)]
pub struct BorrowedRequest<'a> {
    /// The path.
    pub path: &'a Path,
    /// The vertex where it is to end.
    pub end: u32,
    /// The request's excluded edges.
    pub excluded: &'a [u32],
}

/// The least costs of the vertices to a target: a vertex from which no path leads there has 2^26 times the scale.
fn distances_to(
    alloc: Global,
    subgraph: &Subgraph<'_>,
    target: u32,
) -> Result<Vec<u128>, OutOfMemory>
    requires fits { FitsSubgraph subgraph.now }
    requires target { target < length subgraph.now.graph.now.vertices }
    ensures numbers { IfOk result (λ d. AreNumbersIn subgraph.now d.items) }
    ensures distances { IfOk result (λ d. AreDistancesTo subgraph.now target
        (far subgraph.now.point.now) d.items) }
{
    let mut distances = vec![in alloc; 0; subgraph.graph.vertices().len()]?;
    let far = FAR * subgraph.point.scale;
    put_distances(subgraph, target, far, &mut distances);
    Ok(distances)
}

/// Whether an edge is excluded, is the named one, or leads to the target at a cost above `most`.
fn is_dearer(
    subgraph: &Subgraph<'_>,
    distances: &[u128],
    named: u32,
    most: u128,
    other: u32,
) -> bool
    requires fits { FitsSubgraph subgraph.now }
    requires known { other < length subgraph.now.graph.now.edges }
    requires numbers { AreNumbersIn subgraph.now distances.now }
    ensures { IsTrue result ↔ LeadsToMore subgraph.now.graph.now subgraph.now.point.now
        subgraph.now.exclusion.now distances.now named most other }
{
    subgraph.graph.keeps_conditions();
    if other == named || !subgraph.exclusion.leaves(other) {
        return true;
    }
    let edge = edge_of(subgraph.graph, other);
    most < price_of(edge.price, subgraph.point) + distances[edge.to as usize]
}

/// Whether each other edge out of the named edge's start is excluded or leads to the target at a cost above `most`.
fn others_are_dearer(subgraph: &Subgraph<'_>, distances: &[u128], named: u32, most: u128) -> bool
    requires fits { FitsSubgraph subgraph.now }
    requires known { named < length subgraph.now.graph.now.edges }
    requires numbers { AreNumbersIn subgraph.now distances.now }
    ensures { IsTrue result ↔
        All (LeadsToMore subgraph.now.graph.now subgraph.now.point.now subgraph.now.exclusion.now
        distances.now named most) (edges_out subgraph.now.graph.now
        (edge_at subgraph.now.graph.now named).from) }
{
    subgraph.graph.keeps_conditions();
    let start = edge_of(subgraph.graph, named).from;
    for other in subgraph.graph.edges_out(start) {
        if !is_dearer(subgraph, distances, named, most, *other) {
            return false;
        }
    }
    true
}

/// Whether at each vertex of the path every other edge that isn't excluded leads to the target at a cost above what the
/// path costs from there.
fn leads(subgraph: &Subgraph<'_>, path: &Path, distances: &[u128]) -> bool
    requires fits { FitsSubgraph subgraph.now }
    requires simple { (end : ℕ) × IsSimple subgraph.now.graph.now path.now.start path.now.edges
        end }
    requires numbers { AreNumbersIn subgraph.now distances.now }
    ensures leads { IsTrue result ↔ OtherEdgesLeadToMore subgraph.now.graph.now
        subgraph.now.point.now subgraph.now.exclusion.now distances.now path.now.edges }
    ensures below { cost subgraph.now.graph.now subgraph.now.point.now path.now.edges <
        far subgraph.now.point.now }
{
    let mut rest = path_cost(subgraph.graph, path, subgraph.point);
    for number in path.edges.as_slice() {
        if !others_are_dearer(subgraph, distances, *number, rest) {
            return false;
        }
        rest -= price_of(edge_of(subgraph.graph, *number).price, subgraph.point);
    }
    true
}

/// Whether a path of a request is the only cheapest: each other simple path between its ends without an excluded edge
/// costs more (RFC 2328, 16.1; equal costs would be used together by 16.8). Least costs to the end are found by passes
/// over all edges until nothing changes. The path is the only cheapest exactly where at each of its vertices every
/// other edge, with the least cost from its end on, costs more than the rest of the path.
///
/// # Errors
///
/// `OutOfMemory` where the marks of the edges or the distances got no memory.
pub fn is_only_cheapest(
    alloc: Global,
    graph: &Graph,
    point: &Point,
    wanted: &BorrowedRequest<'_>,
) -> Result<bool, OutOfMemory>
    requires fits { FitsPoint graph.now point.now }
    requires path { IsPathOf graph.now (ends_wanted wanted.now) wanted.now.path.now.edges }
    ensures { IfOk result (λ yes. IsTrue yes ↔ IsOnlyCheapest graph.now point.now
        (ends_wanted wanted.now) wanted.now.path.now.edges) }
{
    graph.keeps_conditions();
    let mut marks = no_marks(alloc, graph.edges().len())?;
    mark_excluded(&mut marks, wanted.excluded);
    let exclusion = Exclusion {
        excluded: wanted.excluded,
        marks: marks.as_slice(),
    };
    let subgraph = Subgraph {
        graph,
        point,
        exclusion: &exclusion,
    };
    let distances = distances_to(alloc, &subgraph, wanted.end)?;
    Ok(leads(&subgraph, wanted.path, distances.as_slice()))
}
