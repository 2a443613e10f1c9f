//! Costs of paths at a point.

ghost use Rattle.std.specs.Prelude.{◌≡◌, ◌≤◌, ◌<◌, ◌*◌, ◌^◌, ℕ, length};
ghost use Rattle.area_graph.specs.Costs.{FitsPoint, IsPriced, cost, price_at};
ghost use Rattle.area_graph.specs.Paths.{IsSimple};

use crate::paths::edge_of;
use crate::{Graph, Path, Point, Price};

/// What a price counts at a point: a fixed cost counts the scale as often as its number says, a variable its value.
/// Takes no memory.
pub fn price_of(price: Price, point: &Point) -> u128
    requires scale { point.now.scale < 2 ^ 100 }
    requires known { IsPriced (length point.now.values) price }
    ensures { result ≡ price_at point.now price }
{
    match price {
        Price::Fixed(cost) => cost as u128 * point.scale,
        Price::Var(number) => point.values.as_slice()[number as usize],
        Price::Zero => 0,
    }
}

/// The cost of a path at a point: the sum of its prices, a fixed price counting its cost times the scale (RFC 2328,
/// 16.1, at scale 1). A simple path leaves each of at most 1,000 routers at most once, so it costs less than 2^26 times
/// the scale. Takes no memory.
pub fn path_cost(graph: &Graph, path: &Path, point: &Point) -> u128
    requires fits { FitsPoint graph.now point.now }
    requires simple { (end : ℕ) × IsSimple graph.now path.now.start path.now.edges end }
    ensures value { result ≡ cost graph.now point.now path.now.edges }
    ensures below { result < 2 ^ 26 * point.now.scale }
{
    graph.keeps_conditions();
    let mut total = 0;
    for number in path.edges.as_slice() {
        total += price_of(edge_of(graph, *number).price, point);
    }
    total
}
