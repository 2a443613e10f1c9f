//! The deviation of least cost from a path.

ghost use Rattle.std.specs.Prelude.{◌≡◌, ◌+◌, ◌<◌, ◌≤◌, ◌*◌, ◌^◌, ℕ, IfSome, MatchOption, Some, length, slice_index, take};
ghost use Rattle.area_graph.specs.Area.{edge_at};
ghost use Rattle.area_graph.specs.Costs.{cost};
ghost use Rattle.rival_separation.specs.Deviations.{IsBetter, IsBetterBy, IsOnward, DeviatesFromPath};
ghost use Rattle.rival_separation.specs.Outlooks.{FitsOutlook, HasDistances, HasItsPath, IsBestDeviationFromPath};

use crate::outlook::Outlook;
use area_graph::{edge_of, price_of};
use spf_ties::Room;

/// A walk that leaves a path, or the common beginnings of several, at a place by an edge, and costs so much.
#[derive(Clone, Copy)]
pub struct Deviation {
    /// The place at which it leaves, counted from 0.
    pub place: usize,
    /// The edge by which it leaves.
    pub edge: u32,
    /// What the whole walk costs.
    pub cost: u128,
}

/// What the cheapest walk costs that begins with an edge and goes on to the end of the request; None where the edge is
/// excluded, or where no path leads on from it. The room has the distances to that end.
pub fn onward(outlook: &Outlook<'_>, room: &Room, number: u32) -> Option<u128>
    requires fits { FitsOutlook outlook.now }
    requires found { HasDistances outlook.now room.now }
    requires known { number < length outlook.now.graph.now.edges }
    ensures onward { MatchOption result ((total : ℕ) → IsOnward outlook.now.graph.now
        outlook.now.point.now outlook.now.request.now.excluded room.now number total → ⊥)
        (λ total. IsOnward outlook.now.graph.now outlook.now.point.now
        outlook.now.request.now.excluded room.now number total) }
    ensures below { IfSome result (λ total. total < 2 ^ 27 * outlook.now.point.now.scale) }
{
    outlook.graph.keeps_conditions();
    if !room.leaves(number) {
        return None;
    }
    let edge = edge_of(outlook.graph, number);
    match room.distance(edge.to) {
        Some(rest) => Some(price_of(edge.price, outlook.point) + rest),
        None => None,
    }
}

/// What the cheapest walk costs that leaves the path at a place by an edge; None where the edge is the path's own or is
/// excluded, or where no path leads on from it. `before` is what the path costs up to the place.
fn deviation_cost(
    outlook: &Outlook<'_>,
    room: &Room,
    place: usize,
    before: u128,
    number: u32,
) -> Option<u128>
    // The room has the distances to the request's end.
    requires fits { FitsOutlook outlook.now }
    requires found { HasDistances outlook.now room.now }

    // Up to the place, which is one of the path's, the path costs `before`.
    requires place { place < length outlook.now.request.now.path.edges }
    requires before { before ≡ cost outlook.now.graph.now outlook.now.point.now
        (take place outlook.now.request.now.path.edges) }
    requires near { before < 2 ^ 26 * outlook.now.point.now.scale }

    // The edge starts at the vertex that the path has at the place.
    requires known { number < length outlook.now.graph.now.edges }
    requires from { (edge_at outlook.now.graph.now number).from ≡
        (edge_at outlook.now.graph.now (slice_index outlook.now.request.now.path.edges
        place)).from }

    // It is what the cheapest walk costs that leaves the path by the edge, None where none does.
    ensures { MatchOption result ((total : ℕ) → DeviatesFromPath outlook.now.graph.now
        outlook.now.point.now outlook.now.request.now.excluded room.now
        outlook.now.request.now.path.edges place number total → ⊥) (λ total. DeviatesFromPath
        outlook.now.graph.now outlook.now.point.now outlook.now.request.now.excluded room.now
        outlook.now.request.now.path.edges place number total) }
{
    if number == outlook.request.path.edges.as_slice()[place] {
        return None;
    }
    match onward(outlook, room, number) {
        Some(rest) => Some(before + rest),
        None => None,
    }
}

/// The better of the best deviation so far and a later one: the first, unless the later one costs less.
fn better(best: Option<Deviation>, later: Deviation) -> Deviation
    ensures { IsBetter best later result }
{
    match best {
        Some(first) => {
            if later.cost < first.cost {
                later
            } else {
                first
            }
        }
        None => later,
    }
}

/// The better of the best deviation so far and the one that leaves by an edge at a place, where there is one,
/// at this cost.
pub fn better_by(
    best: Option<Deviation>,
    place: usize,
    edge: u32,
    cost: Option<u128>,
) -> Option<Deviation>
    ensures { IsBetterBy best place edge cost result }
{
    match cost {
        Some(cost) => Some(better(best, Deviation { place, edge, cost })),
        None => best,
    }
}

/// The best of the deviations before a place and at it; `best` is the best of those before it.
fn best_at(
    outlook: &Outlook<'_>,
    room: &Room,
    place: usize,
    before: u128,
    best: Option<Deviation>,
) -> Option<Deviation>
    // The request's path is a simple path of it, and the room has the distances to its end.
    requires fits { FitsOutlook outlook.now }
    requires found { HasDistances outlook.now room.now }
    requires path { HasItsPath outlook.now }

    // Up to the place, which is one of the path's, the path costs `before`.
    requires place { place < length outlook.now.request.now.path.edges }
    requires before { before ≡ cost outlook.now.graph.now outlook.now.point.now
        (take place outlook.now.request.now.path.edges) }
    requires near { before < 2 ^ 26 * outlook.now.point.now.scale }

    // `best` is the best of the deviations before the place, and the result of those up to it.
    requires best { IsBestDeviationFromPath outlook.now room.now (λ earlier e. earlier < place)
        best }
    ensures { IsBestDeviationFromPath outlook.now room.now (λ earlier e. earlier < place + 1)
        result }
{
    outlook.graph.keeps_conditions();
    let named = outlook.request.path.edges.as_slice()[place];
    let mut found = best;
    for number in outlook.graph.edges_out(edge_of(outlook.graph, named).from) {
        let cost = deviation_cost(outlook, room, place, before, *number);
        found = better_by(found, place, *number, cost);
    }
    found
}

/// The deviation of least cost from the path of a request: places are tried from the path's start, edges out of
/// a vertex in rising order, and the first of least cost is kept. None where no walk leaves the path and comes
/// to its end.
pub(crate) fn least_deviation(outlook: &Outlook<'_>, room: &Room) -> Option<Deviation>
    requires fits { FitsOutlook outlook.now }
    requires found { HasDistances outlook.now room.now }
    requires path { HasItsPath outlook.now }
    ensures { IsBestDeviationFromPath outlook.now room.now (λ place e.
        place < length outlook.now.request.now.path.edges) result }
{
    outlook.graph.keeps_conditions();
    let mut best = None;
    let mut before = 0;
    for (place, number) in outlook.request.path.edges.as_slice().iter().enumerate() {
        best = best_at(outlook, room, place, before, best);
        before += price_of(edge_of(outlook.graph, *number).price, outlook.point);
    }
    best
}
