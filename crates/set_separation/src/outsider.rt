//! The cheapest outsider of several wanted paths.

ghost use Rattle.std.specs.Prelude.{◌≡◌, ℕ, ◌+◌, ◌<◌, ◌≤◌, List, MatchBool, MatchOption, Some, length};
ghost use Rattle.design_problem.specs.Problems.{request_ends};
ghost use Rattle.rival_separation.specs.Deviations.{IsBestDeviation};
ghost use Rattle.rival_separation.specs.Outlooks.{CanCompare, FitsOutlook, HasItsPath, lead_in};
ghost use Rattle.rival_separation.specs.declared.deviation.Deviation.{Deviation};
ghost use Rattle.spf_ties.specs.Distances.{IsRoomFor};
ghost use Rattle.set_separation.specs.Deviations.{ArePlaceCosts, DeviatesFromTree};
ghost use Rattle.set_separation.specs.PrefixTrees.{IsGrown, prefix_of_place};
ghost use Rattle.set_separation.specs.SeenTrees.{AreOutsidersDearHere, DeviatesHere, HasPrefixTree, HasTiedTree};
ghost use Rattle.set_separation.specs.SeenTrees.{IsCheapestOutsiderHere, IsCosted, IsTiedHere};

use crate::PrefixTree;
use crate::deviation::{CostedTree, least_deviation, put_place_costs};
use rival_separation::{Deviation, Outlook, find_distances, least_lead, leave_by};
use spf_ties::Room;

/// Makes the path that the room keeps the prefix of a place: its edges are found from the place back to the root, and
/// then the path is turned around.
fn put_prefix(outlook: &Outlook<'_>, tree: &PrefixTree, place: usize, room: &mut Room)
    requires room { IsRoomFor outlook.now.graph.now room.old }
    requires tree { HasPrefixTree outlook.now tree.now }
    requires place { place ≤ length tree.now }
    ensures { (wanted done : List (List ℕ)) (tree : IsGrown wanted done tree.now) →
        room.new ≡ record room.old { path = prefix_of_place tree.prefixes place } }
{
    outlook.graph.keeps_conditions();
    room.clear_path();
    let mut at = place;
    while at != 0 {
        let step = tree.steps()[at - 1];
        room.add_to_path(step.edge);
        at = step.place;
    }
    room.reverse_path();
}

/// The deviation of least cost, where it costs less than the wanted paths and the scale; `costs` then has what the
/// places cost. The room has the distances to the request's end that are below that.
fn cheap_deviation(
    outlook: &Outlook<'_>,
    tree: &PrefixTree,
    costs: &mut [u128],
    room: &Room,
) -> Option<Deviation>
    // The room has the distances below what the request's path and the scale cost at the point.
    requires fits { FitsOutlook outlook.now }
    requires path { HasItsPath outlook.now }
    requires found { CanCompare outlook.now room.now }

    // The tree's paths all cost the same, and `costs` has a number for each of its places.
    requires tree { HasTiedTree outlook.now tree.now }
    requires enough { length tree.now + 1 ≤ length costs.old }

    // Each place gets what its prefix costs.
    ensures costs { ArePlaceCosts outlook.now.graph.now outlook.now.point.now tree.now
        (length tree.now) costs.new }
    ensures count { length costs.new ≡ length costs.old }

    // The best deviation costs less than the wanted paths and the scale, or no outsider does.
    ensures best { MatchOption result ((wanted : List (List ℕ)) →
        IsTiedHere outlook.now wanted tree.now → AreOutsidersDearHere outlook.now wanted)
        (λ best. IsBestDeviation (DeviatesFromTree outlook.now.graph.now outlook.now.point.now
        (request_ends outlook.now.request.now) room.now tree.now costs.new)
        (λ place e. place ≤ length tree.now) (Some best) × (best.cost < lead_in outlook.now)) }
{
    outlook.graph.keeps_conditions();
    put_place_costs(outlook, tree, costs);
    let costed = CostedTree { tree, costs };
    let best = match least_deviation(outlook, room, &costed) {
        Some(best) => best,
        None => return None,
    };
    if least_lead(outlook) <= best.cost {
        return None;
    }
    Some(best)
}

/// Makes the path that the room keeps the cheapest outsider: up to the place of the best deviation it is
/// that place's prefix.
fn lay_out(outlook: &Outlook<'_>, costed: &CostedTree<'_>, best: Deviation, room: &mut Room)
    // The room has the distances below what the request's path and the scale cost at the point.
    requires fits { FitsOutlook outlook.now }
    requires found { CanCompare outlook.now room.old }

    // The tree's paths all cost the same, and each of its places has its cost.
    requires tree { HasTiedTree outlook.now costed.now.tree.now }
    requires costs { IsCosted outlook.now costed.now }

    // No deviation costs less than this one, and it is below the wanted paths and the scale.
    requires best { IsBestDeviation (DeviatesHere outlook.now room.old costed.now)
        (λ place e. place ≤ length costed.now.tree.now) (Some best) }
    requires cheap { best.cost < lead_in outlook.now }

    // Only the room's path changes, and becomes the cheapest outsider.
    ensures same { room.new ≡ record room.old { path = room.new.path } }
    ensures cheapest { (wanted : List (List ℕ)) → IsTiedHere outlook.now wanted
        costed.now.tree.now → IsCheapestOutsiderHere outlook.now wanted room.new.path }
{
    outlook.graph.keeps_conditions();
    put_prefix(outlook, costed.tree, best.place, room);
    leave_by(outlook, best.edge, room);
}

/// Looks for the cheapest outsider of some wanted paths at a point at which they cost the same, and tells whether one
/// costs less than they and the scale. Then the path that the room keeps is such an outsider, and no outsider costs
/// less. The request is that of one of the paths, the tree is that of them all, and `costs` has a number for each of
/// its places. Takes no memory, and time in proportion to the places and the edges out of their vertices, besides that
/// of the distances.
pub fn find_outsider(
    outlook: &Outlook<'_>,
    tree: &PrefixTree,
    costs: &mut [u128],
    room: &mut Room,
) -> bool
    // The room and the point are for the graph, and the request's path is a simple path of it.
    requires room { IsRoomFor outlook.now.graph.now room.old }
    requires fits { FitsOutlook outlook.now }
    requires path { HasItsPath outlook.now }

    // The tree's paths all cost the same, and `costs` has a number for each of its places.
    requires tree { HasTiedTree outlook.now tree.now }
    requires enough { length tree.now + 1 ≤ length costs.old }

    // The room still fits the graph, and `costs` is as long as before.
    ensures room { IsRoomFor outlook.now.graph.now room.new }
    ensures count { length costs.new ≡ length costs.old }

    // On true the room has the cheapest outsider; on false none costs less than path and scale.
    ensures outsider { (wanted : List (List ℕ)) → IsTiedHere outlook.now wanted tree.now →
        MatchBool result (IsCheapestOutsiderHere outlook.now wanted room.new.path)
        (AreOutsidersDearHere outlook.now wanted) }
{
    find_distances(outlook, least_lead(outlook), room);
    find_outsider_at_hand(outlook, tree, costs, room)
}

/// Looks for the cheapest outsider as `find_outsider` does, by the distances that the room has: those to the
/// request's end that are below what the wanted paths and the scale cost, or more of them, as another request
/// with that end and the same excluded edges may have left them. It finds the same outsider, and the room has the
/// same distances afterwards.
pub fn find_outsider_at_hand(
    outlook: &Outlook<'_>,
    tree: &PrefixTree,
    costs: &mut [u128],
    room: &mut Room,
) -> bool
    // The room has the distances below what the request's path and the scale cost at the point.
    requires fits { FitsOutlook outlook.now }
    requires path { HasItsPath outlook.now }
    requires found { CanCompare outlook.now room.old }

    // The tree's paths all cost the same, and `costs` has a number for each of its places.
    requires tree { HasTiedTree outlook.now tree.now }
    requires enough { length tree.now + 1 ≤ length costs.old }

    // Only the room's path and the numbers of the places change.
    ensures same { room.new ≡ record room.old { path = room.new.path } }
    ensures count { length costs.new ≡ length costs.old }

    // On true the room has the cheapest outsider; on false none costs less than path and scale.
    ensures outsider { (wanted : List (List ℕ)) → IsTiedHere outlook.now wanted tree.now →
        MatchBool result (IsCheapestOutsiderHere outlook.now wanted room.new.path)
        (AreOutsidersDearHere outlook.now wanted) }
{
    match cheap_deviation(outlook, tree, costs, room) {
        Some(best) => {
            let costed = CostedTree { tree, costs };
            lay_out(outlook, &costed, best, room);
            true
        }
        None => false,
    }
}

/// Whether some wanted paths, which cost the same at a point, lead there by the scale: each outsider costs at least
/// what they and the scale do. The request, the tree and `costs` are as in `find_outsider`; the room has the distances
/// to the request's end that are below that, or more of them, as another request with that end and the same excluded
/// edges may have left them. Takes no memory.
pub fn paths_lead(outlook: &Outlook<'_>, tree: &PrefixTree, costs: &mut [u128], room: &Room) -> bool
    // The room has the distances below what the request's path and the scale cost at the point.
    requires fits { FitsOutlook outlook.now }
    requires path { HasItsPath outlook.now }
    requires found { CanCompare outlook.now room.now }

    // The tree's paths all cost the same, and `costs` has and keeps a number for each place.
    requires tree { HasTiedTree outlook.now tree.now }
    requires enough { length tree.now + 1 ≤ length costs.old }
    ensures count { length costs.new ≡ length costs.old }

    // It tells whether each outsider costs at least what the wanted paths and the scale do.
    ensures outsider { (wanted : List (List ℕ)) → IsTiedHere outlook.now wanted tree.now →
        MatchBool result
        (AreOutsidersDearHere outlook.now wanted)
        (AreOutsidersDearHere outlook.now wanted → ⊥) }
{
    outlook.graph.keeps_conditions();
    match cheap_deviation(outlook, tree, costs, room) {
        Some(_) => false,
        None => true,
    }
}
