//! The search for least costs: vertices are settled one by one, the nearest to the target first, over the edges into
//! each (Dijkstra's algorithm, with which RFC 2328, 16.1 builds its tree).

ghost use Rattle.std.specs.Prelude.{◌≡◌, ◌≤◌, ◌<◌, ◌*◌, ◌^◌, [], ◌∷◌, ℕ, All, IsPermutation, List, false, length, slice_set, true};
ghost use Rattle.cost_base.specs.Marks.{is_marked};
ghost use Rattle.area_graph.specs.Area.{edge_at, edges_in};
ghost use Rattle.area_graph.specs.Costs.{IsPriced, price_at};
ghost use Rattle.area_graph.specs.Distances.{AreDistancesTo, FitsSubgraph, far};
ghost use Rattle.spf_ties.specs.declared.heap.WaitingVertex.{WaitingVertex};
ghost use Rattle.spf_ties.specs.Searches.{AreFrontNumbers, GrowsByOne, HasPlaces, IsFrontFor, IsNarrow, NeedsNoMore};
ghost use Rattle.spf_ties.specs.Searches.{UnderwayIn, numbers_in_use};

use crate::heap::{Heap, WaitingVertex};
use area_graph::{Point, Price, Subgraph, edge_of, put_distances};

/// What a search writes in: for each vertex its number and whether it is settled, and the vertices that wait.
#[derive(Drop)]
pub(crate) struct Front {
    pub(crate) numbers: Vec<u64>,
    pub(crate) settled: Vec<bool>,
    pub(crate) waiting: Heap,
}

/// Which numbers tell of the distances.
#[derive(Clone, Copy)]
pub(crate) enum Width {
    /// Those of the front, of 64 bits.
    Narrow,
    /// Those beside it, of 128 bits.
    Wide,
}

/// An edge's price at a point whose scale is below 2^37, in 64 bits.
fn narrow_price(price: Price, point: &Point) -> u64
    requires scale { point.now.scale < 2 ^ 37 }
    requires known { IsPriced (length point.now.values) price }
    requires most { price_at point.now price ≤ 65535 * point.now.scale }
    ensures { result ≡ price_at point.now price }
{
    match price {
        Price::Fixed(cost) => cost as u64 * point.scale as u64,
        Price::Var(number) => point.values.as_slice()[number as usize] as u64,
        Price::Zero => 0,
    }
}

/// Looks at an edge into the vertex that was settled last: where the edge is left and leads from its start to less than
/// the start's number, that number is lowered and its vertex waits.
fn look(subgraph: &Subgraph<'_>, number: u32, front: &mut Front)
    // Numbers fit 64 bits, the edge is one of the graph's, and there is room for an entry.
    requires narrow { IsNarrow subgraph.now }
    requires known { number < length subgraph.now.graph.now.edges }
    requires front { AreFrontNumbers subgraph.now front.old }
    requires room { length front.old.waiting.entries < front.old.waiting.places }

    // No vertex is settled by this, and at most one entry more waits.
    ensures front { AreFrontNumbers subgraph.now front.new }
    ensures settled { front.new.settled.items ≡ front.old.settled.items }
    ensures waiting { GrowsByOne front.old.waiting front.new.waiting }

    // A search that had yet to look at this edge and others has yet to look at the others.
    ensures underway { (t limit least : ℕ) (todo : List ℕ) → UnderwayIn subgraph.now t limit least
        (number ∷ todo) front.old.numbers.items front.old.settled.items front.old.waiting.entries →
        UnderwayIn subgraph.now t limit least todo front.new.numbers.items front.new.settled.items
        front.new.waiting.entries }
{
    subgraph.graph.keeps_conditions();
    if !subgraph.exclusion.leaves(number) {
        return;
    }
    let edge = edge_of(subgraph.graph, number);
    let distance = narrow_price(edge.price, subgraph.point) + front.numbers[edge.to as usize];
    if distance < front.numbers[edge.from as usize] {
        front.numbers[edge.from as usize] = distance;
        front.waiting.push(WaitingVertex {
            distance,
            vertex: edge.from,
        });
    }
}

/// Settles a vertex, and looks at each edge into it.
fn settle(subgraph: &Subgraph<'_>, vertex: u32, front: &mut Front)
    // The vertex isn't settled yet, and there is a place for each entry that may come to wait.
    requires narrow { IsNarrow subgraph.now }
    requires vertex { vertex < length subgraph.now.graph.now.vertices }
    requires front { AreFrontNumbers subgraph.now front.old }
    requires waited { is_marked front.old.settled.items vertex ≡ false }
    requires room { HasPlaces subgraph.now front.old }

    // The front is still one of a search, and needs no more places than before.
    ensures front { AreFrontNumbers subgraph.now front.new }
    ensures waiting { NeedsNoMore subgraph.now front.old front.new }

    // A search that had yet to look at the edges into the vertex has looked at all of them.
    ensures underway { (t limit least : ℕ) → UnderwayIn subgraph.now t limit least
        (edges_in subgraph.now.graph.now vertex) front.old.numbers.items
        (slice_set front.old.settled.items vertex true) front.old.waiting.entries →
        UnderwayIn subgraph.now t limit least [] front.new.numbers.items front.new.settled.items
        front.new.waiting.entries }
{
    front.settled[vertex as usize] = true;
    for number in subgraph.graph.edges_in(vertex) {
        look(subgraph, *number, front);
    }
}

/// Settles the vertex of an entry that was taken out of the heap, unless it is settled already.
fn take_in(subgraph: &Subgraph<'_>, entry: WaitingVertex, front: &mut Front)
    // The vertex is one of the graph's, and there is a place for each entry that may wait.
    requires narrow { IsNarrow subgraph.now }
    requires vertex { entry.vertex < length subgraph.now.graph.now.vertices }
    requires front { AreFrontNumbers subgraph.now front.old }
    requires room { HasPlaces subgraph.now front.old }

    // The front is still one of a search, and needs no more places than before.
    ensures front { AreFrontNumbers subgraph.now front.new }
    ensures waiting { NeedsNoMore subgraph.now front.old front.new }

    // Where no entry that waited is nearer, the search goes on, and no edge is left to look at.
    ensures underway { (t limit least : ℕ) (waiting : List WaitingVertex) →
        UnderwayIn subgraph.now t limit least [] front.old.numbers.items front.old.settled.items
        waiting → IsPermutation waiting (entry ∷ front.old.waiting.entries) →
        All (λ other. entry.distance ≤ other.distance) waiting →
        (last : ℕ) × UnderwayIn subgraph.now t limit last [] front.new.numbers.items
        front.new.settled.items front.new.waiting.entries }
{
    if !front.settled[entry.vertex as usize] {
        settle(subgraph, entry.vertex, front);
    }
}

/// Finds for each vertex the least cost of a path to the target without the excluded edges, where that is below a
/// limit; elsewhere the limit stays. It looks at the edges into the vertices that are within the limit alone, and takes
/// time in proportion to their number, times its logarithm.
pub(crate) fn find(subgraph: &Subgraph<'_>, target: u32, limit: u64, front: &mut Front)
    // Numbers up to the limit fit 64 bits, and the front is one for the graph.
    requires narrow { IsNarrow subgraph.now }
    requires target { target < length subgraph.now.graph.now.vertices }
    requires limit { limit ≤ far subgraph.now.point.now }
    requires front { IsFrontFor subgraph.now front.old }

    // The front is still one for the graph, and its numbers are the least costs below the limit.
    ensures front { IsFrontFor subgraph.now front.new }
    ensures distances { AreDistancesTo subgraph.now target limit front.new.numbers.items }
{
    subgraph.graph.keeps_conditions();
    front.numbers.fill(limit);
    front.numbers[target as usize] = 0;
    front.settled.fill(false);
    front.waiting.clear();
    front.waiting.push(WaitingVertex {
        distance: 0,
        vertex: target,
    });
    while let Some(entry) = front.waiting.pop() {
        take_in(subgraph, entry, front);
    }
}

/// Finds these least costs by a search where the scale is below 2^37, so that each number fits 64 bits, and by passes
/// over all edges, in `wide`, where it isn't. It tells which numbers they are.
pub(crate) fn find_in_either(
    subgraph: &Subgraph<'_>,
    target: u32,
    limit: u128,
    front: &mut Front,
    wide: &mut Vec<u128>,
) -> Width
    // The target is a vertex of the graph, and the limit is at most 2^26 times the scale.
    requires fits { FitsSubgraph subgraph.now }
    requires target { target < length subgraph.now.graph.now.vertices }
    requires limit { limit ≤ far subgraph.now.point.now }

    // Before and after, the front and the wide list have a place for each vertex.
    requires front { IsFrontFor subgraph.now front.old }
    requires wide { length wide.old.items ≡ length subgraph.now.graph.now.vertices }
    ensures front { IsFrontFor subgraph.now front.new }
    ensures wide { length wide.new.items ≡ length subgraph.now.graph.now.vertices }

    // The numbers of the width that is told are the least costs below the limit.
    ensures distances { AreDistancesTo subgraph.now target limit
        (numbers_in_use result front.new.numbers.items wide.new.items) }
{
    if subgraph.point.scale < 1 << 37 {
        find(subgraph, target, limit as u64, front);
        Width::Narrow
    } else {
        put_distances(subgraph, target, limit, wide);
        Width::Wide
    }
}
