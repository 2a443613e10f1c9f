//! The cheapest rival of a wanted path.

ghost use Rattle.std.specs.Prelude.{◌≡◌, ◌↔◌, ◌++◌, ◌∷◌, [], ◌+◌, ◌<◌, ◌≤◌, ℕ, All, List, IsTrue, MatchBool, MatchOption, Some};
ghost use Rattle.std.specs.Prelude.{false, length, slice_index_or, take, true};
ghost use Rattle.area_graph.specs.Area.{edge_at, edges_out};
ghost use Rattle.area_graph.specs.Costs.{FitsPoint, LeadsBy};
ghost use Rattle.area_graph.specs.Paths.{IsPathOf};
ghost use Rattle.design_problem.specs.Problems.{request_ends};
ghost use Rattle.spf_ties.specs.Distances.{IsRoomFor, is_tight};
ghost use Rattle.rival_separation.specs.Answers.{IsRivalAnswer};
ghost use Rattle.rival_separation.specs.Askers.{RequestLeads};
ghost use Rattle.rival_separation.specs.Outlooks.{CanCompare, FitsOutlook, HasDistances, HasItsPath, IsBestDeviationFromPath, IsCheapestRivalSeen, lead_in};
ghost use Rattle.rival_separation.specs.Rivals.{HasDistancesBelow, HasWay, IsCheapestRival, IsFollowedByLeast, IsNextEdge, with_edge};
ghost use Rattle.rival_separation.specs.declared.deviation.Deviation.{Deviation};

use crate::deviation::{Deviation, least_deviation};
use crate::outlook::Outlook;
use area_graph::{Graph, Point, edge_of, path_cost};
use design_problem::Request;
use spf_ties::{Aim, Room};

/// What the rivals of a wanted path cost at a point.
#[derive(Drop)]
pub enum Rival<'a> {
    /// Every other simple path of the request costs at least the scale more.
    Free,
    /// The edges of another simple path of the request, that costs less than that; none costs less.
    Cheaper(&'a [u32]),
}

/// Whether an edge is tight and isn't excluded.
fn leads_on(graph: &Graph, point: &Point, room: &Room, number: u32) -> bool
    requires room { IsRoomFor graph.now room.now }
    requires fits { FitsPoint graph.now point.now }
    requires known { number < length graph.now.edges }
    ensures { IsTrue result ↔ (is_tight graph.now point.now room.now number ≡ true) ×
        (slice_index_or room.now.marks number true ≡ false) }
{
    room.leaves(number) && room.tight(graph, point, number)
}

/// The least-numbered tight edge out of a vertex that isn't excluded.
fn next_edge(graph: &Graph, point: &Point, room: &Room, vertex: u32) -> Option<u32>
    requires room { IsRoomFor graph.now room.now }
    requires fits { FitsPoint graph.now point.now }
    requires vertex { vertex < length graph.now.vertices }
    ensures { MatchOption result (All (λ e. is_tight graph.now point.now room.now e ≡ true →
        slice_index_or room.now.marks e true ≡ false → ⊥) (edges_out graph.now vertex))
        (λ e. IsNextEdge graph.now point.now room.now vertex e) }
{
    for number in graph.edges_out(vertex) {
        if leads_on(graph, point, room, *number) {
            return Some(*number);
        }
    }
    None
}

/// Makes the path that the room keeps these edges.
pub(crate) fn put_front(room: &mut Room, edges: &[u32])
    requires { length edges.now ≤ length room.old.costs }
    ensures { room.new ≡ record room.old { path = edges.now } }
{
    room.clear_path();
    for edge in edges {
        room.add_to_path(*edge);
    }
}

/// Goes from a vertex along the least-numbered tight edges that aren't excluded, to the end of the request, and puts
/// each behind the path that the room keeps: a path of least cost. The room has the distances to that end.
fn follow(outlook: &Outlook<'_>, start: u32, room: &mut Room)
    // The room has the distances to the request's end, and some path leads there from the start.
    requires fits { FitsOutlook outlook.now }
    requires found { HasDistances outlook.now room.old }
    requires way { HasWay outlook.now.graph.now outlook.now.point.now
        (request_ends outlook.now.request.now) room.old start }

    // A path of least cost to that end stands behind the room's path; the rest stays.
    ensures room { IsRoomFor outlook.now.graph.now room.new }
    ensures followed { IsFollowedByLeast outlook.now.graph.now outlook.now.point.now
        (request_ends outlook.now.request.now) room.old start room.new.path }
    ensures same { room.new ≡ record room.old { path = room.new.path } }
{
    outlook.graph.keeps_conditions();
    let mut at = start;
    while at != outlook.request.end {
        match next_edge(outlook.graph, outlook.point, room, at) {
            Some(edge) => {
                room.add_to_path(edge);
                at = edge_of(outlook.graph, edge).to;
            }
            None => return,
        }
    }
}

/// Puts an edge behind the path that the room keeps, and goes on from the edge's end as `follow` does: so a walk that
/// leaves a path by that edge becomes whole. The room has the distances to the end of the request.
pub fn leave_by(outlook: &Outlook<'_>, edge: u32, room: &mut Room)
    // The room has the distances to the request's end, and some path leads there by the edge.
    requires fits { FitsOutlook outlook.now }
    requires known { edge < length outlook.now.graph.now.edges }
    requires found { HasDistances outlook.now room.old }
    requires way { HasWay outlook.now.graph.now outlook.now.point.now
        (request_ends outlook.now.request.now) (with_edge room.old edge)
        (edge_at outlook.now.graph.now edge).to }

    // The edge and a path of least cost from there stand behind the room's path; the rest stays.
    ensures room { IsRoomFor outlook.now.graph.now room.new }
    ensures followed { IsFollowedByLeast outlook.now.graph.now outlook.now.point.now
        (request_ends outlook.now.request.now) (with_edge room.old edge)
        (edge_at outlook.now.graph.now edge).to room.new.path }
    ensures same { room.new ≡ record room.old { path = room.new.path } }
{
    outlook.graph.keeps_conditions();
    room.add_to_path(edge);
    follow(outlook, edge_of(outlook.graph, edge).to, room);
}

/// What a rival costs at least where the path of a request leads by the scale: what the path costs, and the scale.
pub fn least_lead(outlook: &Outlook<'_>) -> u128
    requires fits { FitsOutlook outlook.now }
    requires path { HasItsPath outlook.now }
    ensures { result ≡ lead_in outlook.now }
{
    path_cost(outlook.graph, &outlook.request.path, outlook.point) + outlook.point.scale
}

/// Looks for the distances to the end of a request without its excluded edges, where they are below a limit.
pub fn find_distances(outlook: &Outlook<'_>, limit: u128, room: &mut Room)
    requires room { IsRoomFor outlook.now.graph.now room.old }
    requires fits { FitsOutlook outlook.now }
    requires path { HasItsPath outlook.now }
    ensures { HasDistancesBelow outlook.now.graph.now outlook.now.point.now
        (request_ends outlook.now.request.now) limit room.new }
{
    let aim = Aim {
        target: outlook.request.end,
        excluded: outlook.request.excluded.as_slice(),
        limit,
    };
    room.distances_within(outlook.graph, outlook.point, &aim);
}

/// The deviation of least cost from a request's path, where it costs less than the path and the scale. The room has the
/// distances to the request's end that are below that.
pub(crate) fn cheap_deviation(outlook: &Outlook<'_>, room: &Room) -> Option<Deviation>
    requires fits { FitsOutlook outlook.now }
    requires found { CanCompare outlook.now room.now }
    requires path { HasItsPath outlook.now }
    ensures { MatchOption result (RequestLeads outlook.now.graph.now outlook.now.point.now
        outlook.now.request.now) (λ best. IsBestDeviationFromPath outlook.now room.now
        (λ place e. place < length outlook.now.request.now.path.edges) (Some best) ×
        (best.cost < lead_in outlook.now)) }
{
    outlook.graph.keeps_conditions();
    let best = match least_deviation(outlook, room) {
        Some(best) => best,
        None => return None,
    };
    if least_lead(outlook) <= best.cost {
        return None;
    }
    Some(best)
}

/// Looks for the cheapest rival of a request's path at a point, and tells whether one costs less than the path and the
/// scale. Then the path that the room keeps is such a rival, and no rival costs less. Places at which it leaves the
/// request's path are tried from the path's start, edges out of a vertex in rising order without those that the request
/// excludes, and the first of least cost is kept; from there on it follows the least-numbered tight edges that aren't
/// excluded. Takes no memory, and time in proportion to the path's length times the edges out of its vertices, besides
/// that of the distances, which are found only below what the path and the scale cost.
pub fn find_rival(graph: &Graph, request: &Request, point: &Point, room: &mut Room) -> bool
    requires room { IsRoomFor graph.now room.old }
    requires fits { FitsPoint graph.now point.now }
    requires path { IsPathOf graph.now (request_ends request.now) request.now.path.edges }
    ensures room { IsRoomFor graph.now room.new }
    ensures rival { MatchBool result (IsCheapestRival graph.now point.now (request_ends request.now)
        request.now.path.edges room.new.path) (LeadsBy point.now.scale graph.now point.now
        (request_ends request.now) request.now.path.edges) }
{
    let outlook = Outlook {
        graph,
        request,
        point,
    };
    find_distances(&outlook, least_lead(&outlook), room);
    find_rival_at_hand(&outlook, room)
}

/// Looks for the cheapest rival of a request's path as `find_rival` does, by the distances that the room has: those to
/// the request's end without its excluded edges, which are below what the path and the scale cost. It finds the same
/// rival, and the room has the same distances afterwards.
pub(crate) fn find_rival_at_hand(outlook: &Outlook<'_>, room: &mut Room) -> bool
    // The room has the distances up to what the request's path is compared with.
    requires fits { FitsOutlook outlook.now }
    requires found { CanCompare outlook.now room.old }
    requires path { HasItsPath outlook.now }

    // The room is still one for the graph, and nothing of it changes but the path.
    ensures room { IsRoomFor outlook.now.graph.now room.new }
    ensures same { room.new ≡ record room.old { path = room.new.path } }

    // That path is the cheapest rival where it finds one; else the request's path leads.
    ensures rival { MatchBool result
        (IsCheapestRivalSeen outlook.now room.new.path)
        (RequestLeads outlook.now.graph.now outlook.now.point.now outlook.now.request.now) }
{
    match cheap_deviation(outlook, room) {
        Some(best) => {
            lay_out(outlook, best, room);
            true
        }
        None => false,
    }
}

/// Makes the path that the room keeps the cheapest rival: up to the place of the best deviation it is
/// the request's path.
fn lay_out(outlook: &Outlook<'_>, best: Deviation, room: &mut Room)
    // The room has the distances up to what the request's path is compared with.
    requires fits { FitsOutlook outlook.now }
    requires found { CanCompare outlook.now room.old }
    requires path { HasItsPath outlook.now }

    // The deviation is the best of all, and costs less than the path and the scale.
    requires best { IsBestDeviationFromPath outlook.now room.old (λ place e.
        place < length outlook.now.request.now.path.edges) (Some best) }
    requires cheap { best.cost < lead_in outlook.now }

    // The room's path becomes the cheapest rival, and nothing else of it changes.
    ensures room { IsRoomFor outlook.now.graph.now room.new }
    ensures cheapest { IsCheapestRivalSeen outlook.now room.new.path }
    ensures same { room.new ≡ record room.old { path = room.new.path } }
{
    outlook.graph.keeps_conditions();
    put_front(room, &outlook.request.path.edges.as_slice()[..best.place]);
    leave_by(outlook, best.edge, room);
}

/// The cheapest rival of a request's path at a point. It is Cheaper exactly where some other simple path of the request
/// costs less than the path and the scale; its edges are such a path, and none costs less. `find_rival` looks for it,
/// and serves where the room is used again. Takes no memory.
pub fn cheapest_rival<'a>(
    graph: &Graph,
    request: &Request,
    point: &Point,
    room: &'a mut Room,
) -> Rival<'a>
    requires room { IsRoomFor graph.now room.old }
    requires fits { FitsPoint graph.now point.now }
    requires path { IsPathOf graph.now (request_ends request.now) request.now.path.edges }
    ensures { IsRivalAnswer graph.now point.now (request_ends request.now) request.now.path.edges
        result }
{
    if find_rival(graph, request, point, room) {
        Rival::Cheaper(room.path())
    } else {
        Rival::Free
    }
}
