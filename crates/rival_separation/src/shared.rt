//! Distances that several requests share: those to one end without the same edges.

ghost use Rattle.std.specs.Prelude.{◌≡◌, ◌<◌, ◌≤◌, ℕ, All, Contains, IfOk, IsTrue, length, slice_get};
ghost use Rattle.rival_separation.specs.Askers.{IsReadyToCompare, IsShared};
ghost use Rattle.rival_separation.specs.Outlooks.{CanCompare, FitsOutlook, HasItsPath, IsReadyFor, MayShareFor, lead_in};
ghost use Rattle.rival_separation.specs.Outlooks.{AreOutlooks};
ghost use Rattle.rival_separation.specs.declared.outlook.Outlook.{Outlook};
ghost use Rattle.spf_ties.specs.Distances.{Findings, IsRoomFor};

use crate::outlook::Outlook;
use crate::rival::{find_distances, least_lead};
use cost_base::OutOfMemory;
use design_problem::Request;
use spf_ties::Room;
use std::alloc::Global;
use std::ops::Range;

/// What a room has: the distances that serve this request, those below the limit.
#[derive(Clone, Copy)]
pub struct Shared<'a> {
    /// The request.
    pub request: &'a Request,
    /// The limit.
    pub limit: u128,
}

/// What requests that share distances have in common: their end, and how many edges they exclude and the
/// first of these.
pub fn target_of(request: &Request) -> (u32, usize, Option<u32>)
    ensures end { result.0 ≡ request.now.end }
    ensures excluded { result.1 ≡ length request.now.excluded }
    ensures first { result.2 ≡ slice_get request.now.excluded 0 }
{
    let excluded = request.excluded.as_slice();
    (request.end, excluded.len(), excluded.first().copied())
}

/// The numbers below a count, sorted by what `key` makes of each.
///
/// # Errors
///
/// `OutOfMemory`.
pub fn sorted_numbers<K: Ord + Drop, F: Fn(&usize) -> K>(
    alloc: Global,
    count: usize,
    key: F,
) -> Result<Vec<usize>, OutOfMemory>
    requires key { F.IsAlwaysCallable key }
    ensures known { IfOk result (λ order. All (λ k. k < count) order.items) }
    ensures each { IfOk result (λ order. (k : ℕ) → k < count → Contains order.items k) }
{
    let mut order = Vec::new(alloc);
    for number in 0..count {
        order.push(number)?;
    }
    order.sort_unstable_by_key(key);
    Ok(order)
}

/// Whether distances found for one request serve another: they have one end, and exclude the same edges.
fn share(first: &Request, other: &Request) -> bool
    ensures end { IsTrue result → first.now.end ≡ other.now.end }
    ensures excluded { IsTrue result → first.now.excluded ≡ other.now.excluded }
{
    first.end == other.end && first.excluded.as_slice() == other.excluded.as_slice()
}

/// Whether what a room has serves a request: it goes up to what the request's path is compared with.
fn serves(shared: &Shared<'_>, outlook: &Outlook<'_>) -> bool
    requires fits { FitsOutlook outlook.now }
    requires path { HasItsPath outlook.now }
    ensures { IsTrue result → (room : Findings) →
        IsShared outlook.now.graph.now outlook.now.point.now room shared.now →
        CanCompare outlook.now room }
{
    if !share(shared.request, outlook.request) {
        return false;
    }
    least_lead(outlook) <= shared.limit
}

/// Looks for the distances that serve a request, and others with which it shares them: those below a limit.
fn look<'a>(outlook: &Outlook<'a>, limit: u128, room: &mut Room) -> Shared<'a>
    // The request's path is a simple path of it, and the limit is at least what that path and the scale cost.
    requires room { IsRoomFor outlook.now.graph.now room.old }
    requires fits { FitsOutlook outlook.now }
    requires path { HasItsPath outlook.now }
    requires enough { lead_in outlook.now ≤ limit }

    // The room is still one for the graph, and has the distances up to what the request's path is compared with.
    ensures room { IsRoomFor outlook.now.graph.now room.new }
    ensures ready { IsReadyToCompare outlook.now.graph.now outlook.now.point.now
        outlook.now.request.now room.new result }
{
    find_distances(outlook, limit, room);
    Shared {
        request: outlook.request,
        limit,
    }
}

/// Sees to it that a room has the distances that serve the request at the first of these places. It keeps those that it
/// has where they serve that one too. Otherwise it looks for those that serve the requests behind it, too, up to the
/// first that doesn't share them.
pub fn prepare<'a, F: Fn(usize) -> Outlook<'a>>(
    outlook_at: F,
    places: Range<usize>,
    shared: Option<Shared<'a>>,
    room: &mut Room,
) -> Shared<'a>
    // There is a first place, and at each the point fits, and the request's path is a simple path of it.
    requires some { places.start < places.end }
    requires outlooks { AreOutlooks (F.pre outlook_at) (F.post outlook_at) places.end }

    // The room is one for the graph; if it is told which distances it has, it has them.
    requires shared { (o : Outlook) → F.post outlook_at places.start o → MayShareFor o room.old shared }

    // The room has the distances up to what the path of the request at the first place is compared with.
    ensures { (o : Outlook) × F.post outlook_at places.start o × IsReadyFor o room.new result }
{
    let first = outlook_at(places.start);
    if let Some(shared) = shared {
        if serves(&shared, &first) {
            return shared;
        }
    }
    let mut limit = least_lead(&first);
    for later in places.start..places.end {
        let other = outlook_at(later);
        if !share(first.request, other.request) {
            break;
        }
        limit = limit.max(least_lead(&other));
    }
    look(&first, limit, room)
}
