//! A state of a rollout, with its costs.
ghost use Rattle.std.specs.Prelude.{◌≡◌, ◌↔◌, ◌<◌, ℕ, All, IfOk, IsTrue, cond, false, length, slice_index, slice_set, true};
ghost use Rattle.cost_base.specs.Marks.{is_marked, is_one_of};
ghost use Rattle.spf_ties.specs.Distances.{IsRoomFor};
ghost use Rattle.change_steps.specs.Rollouts.{variables_of_step, step_count};
ghost use Rattle.change_steps.specs.Orders.{IsOnlyIn, all_done, none_done};
ghost use Rattle.change_steps.specs.States.{marks_of};
ghost use Rattle.change_steps.specs.Search.{IsStateOf};

use crate::rollout::Rollout;
use area_graph::{Point, point_of};
use cost_base::{Listed, OutOfMemory, no_marks};
use rival_separation::find_rival;
use spf_ties::Room;
use std::alloc::Global;

/// Which steps are done, as a mark for each, and the costs that the variables then have.
#[derive(Drop)]
pub(crate) struct State {
    pub(crate) done: Vec<bool>,
    point: Point,
}

/// Gives the variables of a step these costs.
fn put(values: &mut Listed<u128>, variables: &[u32], costs: &[u16])
    requires known { All (λ v. v < length values.old) variables.now }
    requires costs { length costs.now ≡ length values.old }
    ensures count { length values.new ≡ length values.old }
    ensures put { (v : ℕ) → slice_index values.new v ≡ cond (is_one_of variables.now v)
        (slice_index costs.now v) (slice_index values.old v) }
{
    for variable in variables {
        let place = *variable as usize;
        values.set(place, costs[place] as u128);
    }
}

impl State {
    /// The present network: no step is done.
    pub(crate) fn present(alloc: Global, rollout: &Rollout) -> Result<State, OutOfMemory>
        ensures state { IfOk result (IsStateOf rollout.now) }
        ensures none { IfOk result (λ state. state.done.items ≡ marks_of rollout.now none_done) }
    {
        let done = no_marks(alloc, rollout.step_count())?;
        let point = point_of(alloc, rollout.present())?;
        Ok(State { done, point })
    }

    /// The state after some steps.
    pub(crate) fn after(
        alloc: Global,
        rollout: &Rollout,
        steps: &[usize],
    ) -> Result<State, OutOfMemory>
        requires { All (λ k. k < step_count rollout.now) steps.now }
        ensures state { IfOk result (IsStateOf rollout.now) }
        ensures done { IfOk result (λ state. state.done.items ≡ marks_of rollout.now
            (is_one_of steps.now)) }
    {
        let mut state = State::present(alloc, rollout)?;
        for step in steps {
            state.do_step(rollout, *step);
        }
        Ok(state)
    }

    /// The wanted network: all steps are done.
    pub(crate) fn wanted(alloc: Global, rollout: &Rollout) -> Result<State, OutOfMemory>
        ensures state { IfOk result (IsStateOf rollout.now) }
        ensures all { IfOk result (λ state. state.done.items ≡ marks_of rollout.now all_done) }
    {
        let mut state = State::present(alloc, rollout)?;
        for step in 0..rollout.step_count() {
            state.do_step(rollout, step);
        }
        Ok(state)
    }

    /// Does a step.
    pub(crate) fn do_step(&mut self, rollout: &Rollout, step: usize)
        requires state { IsStateOf rollout.now self.old }
        requires step { step < step_count rollout.now }
        ensures state { IsStateOf rollout.now self.new }
        ensures done { self.new.done.items ≡ slice_set self.old.done.items step true }
    {
        rollout.keeps_conditions();
        put(
            &mut self.point.values,
            rollout.variables(step),
            rollout.wanted(),
        );
        self.done[step] = true;
    }

    /// Takes a step back that is done.
    pub(crate) fn undo_step(&mut self, rollout: &Rollout, step: usize)
        requires state { IsStateOf rollout.now self.old }
        requires step { step < step_count rollout.now }
        ensures state { IsStateOf rollout.now self.new }
        ensures undone { self.new.done.items ≡ slice_set self.old.done.items step false }
    {
        rollout.keeps_conditions();
        put(
            &mut self.point.values,
            rollout.variables(step),
            rollout.present(),
        );
        self.done[step] = false;
    }

    /// The costs, as a point.
    pub(crate) fn point(&self) -> &Point
        ensures { result.now ≡ self.now.point }
    {
        &self.point
    }

    /// Whether the path of a request is the only cheapest in the state.
    pub(crate) fn is_only(&self, rollout: &Rollout, number: u32, room: &mut Room) -> bool
        requires state { IsStateOf rollout.now self.now }
        requires known { number < length rollout.now.requests }
        requires room { IsRoomFor rollout.now.graph room.old }
        ensures room { IsRoomFor rollout.now.graph room.new }
        ensures only { IsTrue result ↔
            IsOnlyIn rollout.now (is_marked self.now.done.items) number }
    {
        rollout.keeps_conditions();
        !find_rival(rollout.graph(), rollout.request(number), &self.point, room)
    }
}
