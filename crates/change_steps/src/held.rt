//! The paths that a rollout has to hold.
ghost use Rattle.std.specs.Prelude.{◌≡◌, ◌↔◌, ◌<◌, IfOk, IsTrue, length};
ghost use Rattle.cost_base.specs.Marks.{is_marked};
ghost use Rattle.spf_ties.specs.Distances.{IsRoomFor};
ghost use Rattle.change_steps.specs.Orders.{AreHeld, IsOnlyIn, all_done, none_done};
ghost use Rattle.change_steps.specs.States.{marks_of};
ghost use Rattle.change_steps.specs.Search.{IsStateOf};

use crate::rollout::Rollout;
use crate::state::State;
use cost_base::{OutOfMemory, push_if};
use spf_ties::Room;
use std::alloc::Global;

/// Whether the path of a request is the only cheapest in two states.
fn is_only_in_both(
    rollout: &Rollout,
    first: &State,
    second: &State,
    number: u32,
    room: &mut Room,
) -> bool
    // Both states and the request are of the rollout.
    requires first { IsStateOf rollout.now first.now }
    requires second { IsStateOf rollout.now second.now }
    requires known { number < length rollout.now.requests }

    // The room is one for the rollout's graph, before and after.
    requires room { IsRoomFor rollout.now.graph room.old }
    ensures room { IsRoomFor rollout.now.graph room.new }

    // It tells of the request's path in the one state and in the other.
    ensures both { IsTrue result ↔ (IsOnlyIn rollout.now (is_marked first.now.done.items) number ×
        IsOnlyIn rollout.now (is_marked second.now.done.items) number) }
{
    if !first.is_only(rollout, number, room) {
        return false;
    }
    second.is_only(rollout, number, room)
}

/// The numbers of the requests whose paths are the only cheapest in the present and in the wanted network.
fn held_in(
    alloc: Global,
    rollout: &Rollout,
    room: &mut Room,
    present: &State,
    wanted: &State,
) -> Result<Vec<u32>, OutOfMemory>
    // In the present state no step is done, in the wanted one all are.
    requires present { IsStateOf rollout.now present.now }
    requires none { present.now.done.items ≡ marks_of rollout.now none_done }
    requires wanted { IsStateOf rollout.now wanted.now }
    requires all { wanted.now.done.items ≡ marks_of rollout.now all_done }

    // The room is one for the rollout's graph, before and after.
    requires room { IsRoomFor rollout.now.graph room.old }
    ensures room { IsRoomFor rollout.now.graph room.new }

    // On Ok these are the held paths of the rollout.
    ensures held { IfOk result (λ held. AreHeld rollout.now held.items) }
{
    let mut held = Vec::new(alloc);
    for number in 0..rollout.request_count() {
        let is_held = is_only_in_both(rollout, present, wanted, number, room);
        push_if(&mut held, number, is_held)?;
    }
    Ok(held)
}

/// The numbers of the requests whose paths are the only cheapest both in the present network, which is given, and after
/// all steps.
fn held_beside(
    alloc: Global,
    rollout: &Rollout,
    room: &mut Room,
    present: &State,
) -> Result<Vec<u32>, OutOfMemory>
    requires room { IsRoomFor rollout.now.graph room.old }
    requires present { IsStateOf rollout.now present.now }
    requires none { present.now.done.items ≡ marks_of rollout.now none_done }
    ensures room { IsRoomFor rollout.now.graph room.new }
    ensures held { IfOk result (λ held. AreHeld rollout.now held.items) }
{
    let wanted = State::wanted(alloc, rollout)?;
    held_in(alloc, rollout, room, present, &wanted)
}

/// The numbers of the requests whose paths are the only cheapest both at present and after all steps.
pub(crate) fn find_held(
    alloc: Global,
    rollout: &Rollout,
    room: &mut Room,
) -> Result<Vec<u32>, OutOfMemory>
    requires { IsRoomFor rollout.now.graph room.old }
    ensures room { IsRoomFor rollout.now.graph room.new }
    ensures held { IfOk result (λ held. AreHeld rollout.now held.items) }
{
    let present = State::present(alloc, rollout)?;
    held_beside(alloc, rollout, room, &present)
}
