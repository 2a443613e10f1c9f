//! The deviation of least cost from a tree of prefixes.

ghost use Rattle.std.specs.Prelude.{◌≡◌, ℕ, ◌+◌, ◌<◌, ◌≤◌, MatchOption, length, slice_index};
ghost use Rattle.area_graph.specs.Area.{edge_at};
ghost use Rattle.design_problem.specs.Problems.{request_ends};
ghost use Rattle.rival_separation.specs.Deviations.{IsBestDeviation};
ghost use Rattle.rival_separation.specs.Outlooks.{FitsOutlook, HasDistances};
ghost use Rattle.set_separation.specs.Deviations.{ArePlaceCosts, place_vertex};
ghost use Rattle.set_separation.specs.SeenTrees.{DeviatesHere, HasPrefixTree, IsCosted};

use crate::PrefixTree;
use area_graph::{edge_of, price_of};
use rival_separation::{Deviation, Outlook, better_by, onward};
use spf_ties::Room;

/// A tree of prefixes with what the prefix of each place costs.
#[derive(Clone, Copy)]
pub(crate) struct CostedTree<'a> {
    /// The tree.
    pub(crate) tree: &'a PrefixTree,
    /// A cost for each place, and maybe more numbers behind them.
    pub(crate) costs: &'a [u128],
}

/// Writes down what the prefix of each place costs, in the order of the places.
pub(crate) fn put_place_costs(outlook: &Outlook<'_>, tree: &PrefixTree, costs: &mut [u128])
    requires fits { FitsOutlook outlook.now }
    requires tree { HasPrefixTree outlook.now tree.now }
    requires enough { length tree.now + 1 ≤ length costs.old }
    ensures costs { ArePlaceCosts outlook.now.graph.now outlook.now.point.now tree.now
        (length tree.now) costs.new }
    ensures count { length costs.new ≡ length costs.old }
{
    outlook.graph.keeps_conditions();
    costs[0] = 0;
    for (i, step) in tree.steps().iter().enumerate() {
        costs[i + 1] = costs[step.place]
            + price_of(edge_of(outlook.graph, step.edge).price, outlook.point);
    }
}

/// The vertex of a place.
fn vertex_of(outlook: &Outlook<'_>, tree: &PrefixTree, place: usize) -> u32
    requires tree { HasPrefixTree outlook.now tree.now }
    requires place { place ≤ length tree.now }
    ensures { result ≡ place_vertex outlook.now.graph.now (request_ends outlook.now.request.now)
        tree.now place }
{
    if place == 0 {
        return outlook.request.path.start;
    }
    edge_of(outlook.graph, tree.steps()[place - 1].edge).to
}

/// What the cheapest walk costs that leaves the tree at a place by an edge; None where the edge leads to another place
/// or is excluded, or where no path leads on from it.
fn deviation_cost(
    outlook: &Outlook<'_>,
    room: &Room,
    costed: &CostedTree<'_>,
    place: usize,
    number: u32,
) -> Option<u128>
    // The point is one for the graph, and the room has distances to the request's end there.
    requires fits { FitsOutlook outlook.now }
    requires found { HasDistances outlook.now room.now }

    // The tree is one of prefixes of the request's paths, with what each place costs.
    requires tree { HasPrefixTree outlook.now costed.now.tree.now }
    requires costs { IsCosted outlook.now costed.now }

    // The edge begins at the vertex of the place.
    requires place { place ≤ length costed.now.tree.now }
    requires known { number < length outlook.now.graph.now.edges }
    requires from { (edge_at outlook.now.graph.now number).from ≡
        place_vertex outlook.now.graph.now (request_ends outlook.now.request.now)
        costed.now.tree.now place }

    // There is a cost exactly where the edge leaves the tree with a way on to the request's end.
    ensures { MatchOption result
        ((total : ℕ) → DeviatesHere outlook.now room.now costed.now place number total → ⊥)
        (λ total. DeviatesHere outlook.now room.now costed.now place number total) }
{
    outlook.graph.keeps_conditions();
    if costed.tree.next(place, number).is_some() {
        return None;
    }
    match onward(outlook, room, number) {
        Some(rest) => Some(costed.costs[place] + rest),
        None => None,
    }
}

/// The best of the deviations before a place and at it; `best` is the best of those before it.
fn best_at(
    outlook: &Outlook<'_>,
    room: &Room,
    costed: &CostedTree<'_>,
    place: usize,
    best: Option<Deviation>,
) -> Option<Deviation>
    // The point is one for the graph, and the room has distances to the request's end there.
    requires fits { FitsOutlook outlook.now }
    requires found { HasDistances outlook.now room.now }

    // The tree is one of prefixes of the request's paths, with what each place costs.
    requires tree { HasPrefixTree outlook.now costed.now.tree.now }
    requires costs { IsCosted outlook.now costed.now }

    // The best of the deviations before the place becomes the best of those up to it.
    requires place { place ≤ length costed.now.tree.now }
    requires best { IsBestDeviation (DeviatesHere outlook.now room.now costed.now)
        (λ earlier e. earlier < place) best }
    ensures { IsBestDeviation (DeviatesHere outlook.now room.now costed.now)
        (λ earlier e. earlier < place + 1) result }
{
    outlook.graph.keeps_conditions();
    let mut found = best;
    let vertex = vertex_of(outlook, costed.tree, place);
    for number in outlook.graph.edges_out(vertex) {
        let cost = deviation_cost(outlook, room, costed, place, *number);
        found = better_by(found, place, *number, cost);
    }
    found
}

/// The deviation of least cost from a tree: places are tried in order, edges out of a vertex in rising order, and the
/// first of least cost is kept. None where no walk leaves the tree and comes to the end of the request.
pub(crate) fn least_deviation(
    outlook: &Outlook<'_>,
    room: &Room,
    costed: &CostedTree<'_>,
) -> Option<Deviation>
    requires fits { FitsOutlook outlook.now }
    requires found { HasDistances outlook.now room.now }
    requires tree { HasPrefixTree outlook.now costed.now.tree.now }
    requires costs { IsCosted outlook.now costed.now }
    ensures { IsBestDeviation (DeviatesHere outlook.now room.now costed.now)
        (λ place e. place ≤ length costed.now.tree.now) result }
{
    let mut best = None;
    for place in 0..costed.tree.steps().len() + 1 {
        best = best_at(outlook, room, costed, place, best);
    }
    best
}
