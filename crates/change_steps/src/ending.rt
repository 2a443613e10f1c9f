//! What a search that ended found.
ghost use Rattle.std.specs.Prelude.{◌≡◌, ◌++◌, ◌<◌, ℕ, Contains, IfOk, false, slice_set, true};
ghost use Rattle.cost_base.specs.Marks.{is_marked};
ghost use Rattle.spf_ties.specs.Distances.{IsRoomFor};
ghost use Rattle.change_steps.specs.Rollouts.{step_count};
ghost use Rattle.change_steps.specs.Orders.{IsSafe};
ghost use Rattle.change_steps.specs.States.{MayFollow};
ghost use Rattle.change_steps.specs.Outcomes.{IsBarrier, IsOutcome, IsSearchEnd};
ghost use Rattle.change_steps.specs.Search.{AreBlockedIn, IsStateOf, IsStepBlocked, last_steps, order_behind_first};
ghost use Rattle.change_steps.specs.Walks.{IsWalkEnded, IsSearchWalk};

use crate::found::{Barrier, Blocked, Outcome, Stuck};
use crate::held_rollout::HeldRollout;
use crate::kinds::Kind;
use crate::state::State;
use crate::state_search::{End, Walk};
use crate::tested::Tested;
use cost_base::OutOfMemory;
use spf_ties::Room;
use std::alloc::Global;

/// The first steps, and some steps behind them.
fn order_behind_first(
    alloc: Global,
    held_rollout: &HeldRollout,
    between: &[usize],
) -> Result<Vec<usize>, OutOfMemory>
    ensures { IfOk result (λ order. order.items ≡ order_behind_first held_rollout.now between.now) }
{
    let mut order = Vec::new(alloc);
    held_rollout.put_steps(&mut order, Kind::First)?;
    order.extend_from_slice(between)?;
    Ok(order)
}

/// The first steps, some steps behind them, and the last steps.
fn order_of(
    alloc: Global,
    held_rollout: &HeldRollout,
    between: &[usize],
) -> Result<Vec<usize>, OutOfMemory>
    ensures { IfOk result (λ order. order.items ≡ order_behind_first held_rollout.now between.now ++
        last_steps held_rollout.now) }
{
    let mut order = order_behind_first(alloc, held_rollout, between)?;
    held_rollout.put_steps(&mut order, Kind::Last)?;
    Ok(order)
}

/// What is in the way of a state that isn't both tested and safe.
fn barrier_of(
    held_rollout: &HeldRollout,
    tested: &Tested,
    room: &mut Room,
    state: &State,
) -> Barrier
    requires room { IsRoomFor held_rollout.now.rollout.graph room.old }
    requires state { IsStateOf held_rollout.now.rollout state.now }
    requires unsafe_then { Contains tested.now state.now.done.items →
        IsSafe held_rollout.now.rollout held_rollout.now.held (is_marked state.now.done.items) → ⊥ }
    ensures room { IsRoomFor held_rollout.now.rollout.graph room.new }
    ensures barrier { IsBarrier held_rollout.now.rollout held_rollout.now.held tested.now
        state.now.done.items result }
{
    if !tested.has(&state.done) {
        return Barrier::Untested;
    }
    match held_rollout.first_lost(state, room) {
        Some(path) => Barrier::Path(path),
        None => Barrier::Untested,
    }
}

/// What is in the way of a step that isn't done.
fn blocked_by(
    held_rollout: &HeldRollout,
    tested: &Tested,
    room: &mut Room,
    state: &mut State,
    step: usize,
) -> Blocked
    // The room fits the rollout's graph, and the state's point has the state's costs.
    requires room { IsRoomFor held_rollout.now.rollout.graph room.old }
    requires state { IsStateOf held_rollout.now.rollout state.old }

    // The step may come next, and the state after it isn't safe if it was tested.
    requires follows { MayFollow held_rollout.now.rollout held_rollout.now.held state.old.done.items
        step }
    requires greatest { Contains tested.now (slice_set state.old.done.items step true) →
        IsSafe held_rollout.now.rollout held_rollout.now.held
        (is_marked (slice_set state.old.done.items step true)) → ⊥ }

    // Room and state go together as before, with the same steps done.
    ensures room { IsRoomFor held_rollout.now.rollout.graph room.new }
    ensures state { IsStateOf held_rollout.now.rollout state.new }
    ensures done { state.new.done.items ≡ state.old.done.items }

    // In the way is the first held path that is lost, or that the state after it wasn't tested.
    ensures blocked { IsStepBlocked held_rollout.now tested.now state.old.done.items step result }
{
    state.do_step(held_rollout.rollout(), step);
    let by = barrier_of(held_rollout, tested, room, state);
    state.undo_step(held_rollout.rollout(), step);
    Blocked { step, by }
}

/// What is in the way of each step between that isn't done in a state.
fn blocked_in(
    alloc: Global,
    held_rollout: &HeldRollout,
    tested: &Tested,
    room: &mut Room,
    state: &mut State,
) -> Result<Vec<Blocked>, OutOfMemory>
    requires room { IsRoomFor held_rollout.now.rollout.graph room.old }
    requires state { IsStateOf held_rollout.now.rollout state.old }
    requires greatest { (step : ℕ) → MayFollow held_rollout.now.rollout held_rollout.now.held
        state.old.done.items step → Contains tested.now (slice_set state.old.done.items step true) →
        IsSafe held_rollout.now.rollout held_rollout.now.held
        (is_marked (slice_set state.old.done.items step true)) → ⊥ }
    ensures room { IsRoomFor held_rollout.now.rollout.graph room.new }
    ensures blocked { IfOk result (λ blocked. AreBlockedIn held_rollout.now tested.now
        state.old.done.items blocked.items) }
{
    let mut blocked = Vec::new(alloc);
    for step in 0..held_rollout.step_count() {
        if held_rollout.may_follow(&state.done, step) {
            blocked.push(blocked_by(held_rollout, tested, room, state, step))?;
        }
    }
    Ok(blocked)
}

/// How far a search came.
fn stuck_of(
    alloc: Global,
    held_rollout: &HeldRollout,
    walk: &mut Walk,
) -> Result<Stuck, OutOfMemory>
    requires { IsSearchWalk held_rollout.now walk.old }
    ensures { IfOk result (IsSearchEnd held_rollout.now.rollout held_rollout.now.held
        walk.old.tested) }
{
    let done = order_behind_first(alloc, held_rollout, &walk.greatest)?;
    let mut state = State::after(alloc, held_rollout.rollout(), &done)?;
    let blocked = blocked_in(
        alloc,
        held_rollout,
        &walk.tested,
        &mut walk.room,
        &mut state,
    )?;
    Ok(Stuck { done, blocked })
}

/// What a search found that ended so.
pub(crate) fn outcome_of(
    alloc: Global,
    held_rollout: &HeldRollout,
    walk: &mut Walk,
    end: End,
) -> Result<Outcome, OutOfMemory>
    requires { (nodes : ℕ) × IsWalkEnded held_rollout.now nodes walk.old end }
    ensures { (nodes : ℕ) → IsWalkEnded held_rollout.now nodes walk.old end →
        IfOk result (IsOutcome held_rollout.now.rollout held_rollout.now.held nodes) }
{
    held_rollout.keeps_conditions();
    match end {
        End::Complete => Ok(Outcome::Order(order_of(alloc, held_rollout, &walk.order)?)),
        End::Exhausted => Ok(Outcome::NoOrder(stuck_of(alloc, held_rollout, walk)?)),
        End::UsedUp => Ok(Outcome::Undecided(stuck_of(alloc, held_rollout, walk)?)),
    }
}
