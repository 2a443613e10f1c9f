//! Least costs to a target by plain distances: passes over all edges until nothing changes.

ghost use Rattle.std.specs.Prelude.{◌≡◌, ◌≤◌, ◌<◌, ◌*◌, ◌^◌, ℕ, All, IsTrue, MatchBool, false, length, sum};
ghost use Rattle.cost_base.specs.Lists.{Lacks};
ghost use Rattle.area_graph.specs.Area.{edge_at};
ghost use Rattle.area_graph.specs.Costs.{IsPriced, price_at};
ghost use Rattle.area_graph.specs.Distances.{AreDistancesTo, AreNumbersIn, AreReached, FitsSubgraph, SettledBelow, ShorterBy, StaysBy, far, through};

use crate::costs::price_of;
use crate::paths::edge_of;
use crate::subgraph::Subgraph;
use crate::{Edge, Point};

/// Lowers the number of an edge's start to the edge's price and its end's number, where that is less.
fn shorten(edge: Edge, point: &Point, distances: &mut Vec<u128>) -> bool
    // The price of the edge is one of the graph at this point.
    requires scale { point.now.scale < 2 ^ 100 }
    requires price { price_at point.now edge.price ≤ 65535 * point.now.scale }
    requires known { IsPriced (length point.now.values) edge.price }

    // Both ends have a number, and none is past the greatest cost.
    requires from { edge.from < length distances.old.items }
    requires to { edge.to < length distances.old.items }
    requires bounded { All (λ x. x ≤ far point.now) distances.old.items }

    // Either the start's number is lowered, or the edge leads to nothing less.
    ensures { MatchBool result (ShorterBy point.now edge distances.old.items distances.new.items)
        (StaysBy point.now edge distances.old.items distances.new.items) }
{
    let least = price_of(edge.price, point) + distances[edge.to as usize];
    if least < distances[edge.from as usize] {
        distances[edge.from as usize] = least;
        true
    } else {
        false
    }
}

/// Looks at one edge, unless it is excluded, and tells whether the number of its start was lowered.
fn visit(subgraph: &Subgraph<'_>, number: u32, distances: &mut Vec<u128>) -> bool
    // Each vertex of the subgraph has a number.
    requires fits { FitsSubgraph subgraph.now }
    requires known { number < length subgraph.now.graph.now.edges }
    requires numbers { AreNumbersIn subgraph.now distances.old.items }

    // The number of the edge's start is lowered, or all numbers stay.
    ensures lowered { IsTrue result → Lacks subgraph.now.exclusion.now number ×
        ShorterBy subgraph.now.point.now (edge_at subgraph.now.graph.now number) distances.old.items
        distances.new.items }
    ensures same { (result ≡ false) → distances.new.items ≡ distances.old.items }
    ensures least { (result ≡ false) → Lacks subgraph.now.exclusion.now number →
        StaysBy subgraph.now.point.now (edge_at subgraph.now.graph.now number) distances.old.items
        distances.new.items }
{
    subgraph.graph.keeps_conditions();
    if subgraph.exclusion.leaves(number) {
        shorten(edge_of(subgraph.graph, number), subgraph.point, distances)
    } else {
        false
    }
}

/// Goes once through the edges that aren't excluded, and tells whether a number was lowered.
fn pass(subgraph: &Subgraph<'_>, distances: &mut Vec<u128>) -> bool
    // Each vertex of the subgraph has a number.
    requires fits { FitsSubgraph subgraph.now }
    requires numbers { AreNumbersIn subgraph.now distances.old.items }

    // Numbers stay costs of walks to the target, and none rises.
    ensures numbers { AreNumbersIn subgraph.now distances.new.items }
    ensures reached { (t limit : ℕ) → AreReached subgraph.now.graph.now subgraph.now.point.now
        subgraph.now.exclusion.now t limit distances.old.items →
        AreReached subgraph.now.graph.now subgraph.now.point.now subgraph.now.exclusion.now t limit
        distances.new.items }
    ensures lower { IsTrue result → sum distances.new.items < sum distances.old.items }

    // Where none was lowered no edge leads to a smaller one.
    ensures settled { (result ≡ false) → SettledBelow (length subgraph.now.graph.now.edges)
        subgraph.now.graph.now subgraph.now.point.now subgraph.now.exclusion.now
        distances.new.items }
{
    subgraph.graph.keeps_conditions();
    let mut lowered = false;
    for number in 0..subgraph.graph.edges().len() {
        if visit(subgraph, number as u32, distances) {
            lowered = true;
        }
    }
    lowered
}

/// Puts each vertex's least cost of a walk to the target into its place, where that is below a limit, and the limit
/// into each other place. Takes no memory; it takes time in proportion to the edges for each pass.
pub fn put_distances(subgraph: &Subgraph<'_>, target: u32, limit: u128, distances: &mut Vec<u128>)
    // The target is a vertex, and no cost of a simple path passes the greatest one.
    requires fits { FitsSubgraph subgraph.now }
    requires target { target < length subgraph.now.graph.now.vertices }
    requires limit { limit ≤ far subgraph.now.point.now }

    // Each vertex gets its distance.
    requires count { length distances.old.items ≡ length subgraph.now.graph.now.vertices }
    ensures numbers { AreNumbersIn subgraph.now distances.new.items }
    ensures distances { AreDistancesTo subgraph.now target limit distances.new.items }
{
    distances.fill(limit);
    distances[target as usize] = 0;
    loop {
        if !pass(subgraph, distances) {
            return;
        }
    }
}
