//! A rollout with the paths that it has to hold, and the kinds of its steps.
ghost use Rattle.std.specs.Prelude.{◌≡◌, ◌++◌, ◌↔◌, ◌<◌, ◌&&◌, ℕ, All, Bool, IfOk, IsTrue, List, MatchOption, OnOk, false, filter, length, not, slice_index_or, true};
ghost use Rattle.std.specs.List.{list_all};
ghost use Rattle.cost_base.specs.Lists.{numbers_from};
ghost use Rattle.cost_base.specs.Marks.{is_marked};
ghost use Rattle.spf_ties.specs.Distances.{IsRoomFor};
ghost use Rattle.design_problem.specs.Problems.{request_at};
ghost use Rattle.change_steps.specs.Rollouts.{IsRollout, variables_of_step, step_count};
ghost use Rattle.change_steps.specs.Orders.{AreHeld, IsSafe, IsOnlyIn};
ghost use Rattle.change_steps.specs.Kinds.{comes_between, goes_over, has_kind, kind_of_step};
ghost use Rattle.change_steps.specs.States.{MayFollow};
ghost use Rattle.change_steps.specs.Outcomes.{IsFirstLost};
ghost use Rattle.change_steps.specs.Search.{HasMore, IsStateOf};

use crate::held::find_held;
use crate::kinds::{Kind, is_kind, kinds_of};
use crate::reach::Reach;
use crate::rollout::Rollout;
use crate::state::State;
use cost_base::{OutOfMemory, push_if};
use spf_ties::Room;
use std::alloc::Global;
use std::marker::Model;

/// A rollout with the paths that it has to hold. Contracts see both.
#[derive(Drop)]
pub(crate) struct HeldRollout<'a> {
    rollout: Rollout<'a>,
    held: Vec<u32>,
    kinds: Vec<Kind>,
    reach: Reach,
}

impl<'a> Model for HeldRollout<'a> {
    ghost use Rattle.change_steps.specs.Search.{HeldRollout as OneHeldRollout, IsHeldRollout};

    ghost Value = { OneHeldRollout };

    ghost view = { λ p. record { rollout = p.rollout; held = p.held.items } };

    ghost invariant = { λ p. IsHeldRollout (record {
      rollout = p.rollout;
      held = p.held.items;
    }) p.kinds.items p.reach };
}

/// The kind at a place.
fn kind_at(kinds: &[Kind], step: usize) -> Kind
    requires { step < length kinds.now }
    ensures { result ≡ slice_index_or kinds.now step Kind.Between }
{
    kinds[step]
}

impl<'a> HeldRollout<'a> {
    /// The rollout with the paths that it has to hold.
    pub fn new(
        alloc: Global,
        rollout: Rollout<'a>,
        room: &mut Room,
    ) -> Result<HeldRollout<'a>, OutOfMemory>
        requires { IsRoomFor rollout.graph room.old }
        ensures room { IsRoomFor rollout.entry.graph room.new }
        ensures rollout { IfOk result (λ held_rollout. held_rollout.rollout ≡ rollout.entry) }
        ensures held { IfOk result (λ held_rollout. AreHeld rollout.entry held_rollout.held) }
    {
        rollout.keeps_conditions();
        let held = find_held(alloc, &rollout, room)?;
        let kinds = kinds_of(alloc, &rollout, &held)?;
        let reach = Reach::new(alloc, &rollout, &held, &kinds, room)?;
        Ok(HeldRollout {
            rollout,
            held,
            kinds,
            reach,
        })
    }

    /// For the prover alone, a law of each held rollout, which takes no time: it keeps the conditions of its rollout,
    /// and its held paths are those of the rollout.
    pub fn keeps_conditions(&self)
        ensures rollout { IsRollout self.now.rollout }
        ensures held { AreHeld self.now.rollout self.now.held }
    {
        let _ = &self.held;
    }

    /// The rollout.
    pub fn rollout(&self) -> &Rollout<'a>
        ensures { result.now ≡ self.now.rollout }
    {
        &self.rollout
    }

    /// The held paths.
    pub fn held(&self) -> &[u32]
        ensures { result.now ≡ self.now.held }
    {
        self.held.as_slice()
    }

    /// The held paths alone.
    pub fn into_held(self) -> Vec<u32>
        ensures { result.items ≡ self.entry.held }
    {
        let HeldRollout {
            rollout: _,
            held,
            kinds: _,
            reach: _,
        } = self;
        held
    }

    /// How many steps there are.
    pub fn step_count(&self) -> usize
        ensures { result ≡ step_count self.now.rollout }
    {
        self.rollout.step_count()
    }

    /// When a step is done.
    pub fn kind(&self, step: usize) -> Kind
        requires { step < step_count self.now.rollout }
        ensures { result ≡ kind_of_step self.now.rollout self.now.held step }
    {
        kind_at(self.kinds.as_slice(), step)
    }

    /// Whether a step is one between that isn't done.
    pub fn may_follow(&self, done: &[bool], step: usize) -> bool
        requires count { length done.now ≡ step_count self.now.rollout }
        requires step { step < step_count self.now.rollout }
        ensures { result ≡ (comes_between (kind_of_step self.now.rollout self.now.held step) &&
            not (is_marked done.now step)) }
    {
        if is_kind(Kind::Between, self.kind(step)) {
            !done[step]
        } else {
            false
        }
    }

    /// Puts the steps of a kind behind others, in order.
    pub fn put_steps(&self, steps: &mut Vec<usize>, kind: Kind) -> Result<(), OutOfMemory>
        ensures { OnOk result (steps.new.items ≡ steps.old.items ++
            filter (λ k. has_kind kind (kind_of_step self.now.rollout self.now.held k))
            (numbers_from 0 (step_count self.now.rollout))) }
    {
        for step in 0..self.step_count() {
            push_if(steps, step, is_kind(kind, self.kind(step)))?;
        }
        Ok(())
    }

    /// The first step between that isn't done.
    pub fn first_left(&self, done: &[bool]) -> Option<usize>
        requires { length done.now ≡ step_count self.now.rollout }
        ensures { MatchOption result ((k : ℕ) → MayFollow self.now.rollout self.now.held done.now
            k → ⊥) (λ step. MayFollow self.now.rollout self.now.held done.now step) }
    {
        for step in 0..self.step_count() {
            if self.may_follow(done, step) {
                return Some(step);
            }
        }
        None
    }

    /// Whether a step that was done last is seen to have taken nothing from the path of a request, which then stays the
    /// only cheapest.
    fn spares(&self, state: &State, step: usize, number: u32) -> bool
        requires state { IsStateOf self.now.rollout state.now }
        requires step { step < step_count self.now.rollout }
        requires known { number < length self.now.rollout.requests }
        ensures { IsTrue result → (before : ℕ → Bool) → HasMore self.now.rollout before
            (is_marked state.now.done.items) step → IsOnlyIn self.now.rollout before number →
            IsOnlyIn self.now.rollout (is_marked state.now.done.items) number }
    {
        self.reach.spares(&self.rollout, state, number, step)
    }

    /// Whether a state is safe, one step of which was done last, after a state that was safe. Held paths that the step
    /// spares aren't asked for.
    pub fn is_safe_after(&self, state: &State, step: usize, room: &mut Room) -> bool
        requires state { IsStateOf self.now.rollout state.now }
        requires room { IsRoomFor self.now.rollout.graph room.old }
        requires before { (f : ℕ → Bool) × HasMore self.now.rollout f
            (is_marked state.now.done.items) step × IsSafe self.now.rollout self.now.held f }
        ensures room { IsRoomFor self.now.rollout.graph room.new }
        ensures safe { IsTrue result ↔ IsSafe self.now.rollout self.now.held
            (is_marked state.now.done.items) }
    {
        self.keeps_conditions();
        for number in self.held() {
            if !self.spares(state, step, *number) && !state.is_only(self.rollout(), *number, room) {
                return false;
            }
        }
        true
    }

    /// The first held path that isn't the only cheapest in a state.
    pub fn first_lost(&self, state: &State, room: &mut Room) -> Option<u32>
        requires state { IsStateOf self.now.rollout state.now }
        requires room { IsRoomFor self.now.rollout.graph room.old }
        ensures room { IsRoomFor self.now.rollout.graph room.new }
        ensures lost { MatchOption result (IsSafe self.now.rollout self.now.held
            (is_marked state.now.done.items)) (λ path. IsFirstLost self.now.rollout self.now.held
            (is_marked state.now.done.items) path) }
    {
        self.keeps_conditions();
        for number in self.held() {
            if !state.is_only(self.rollout(), *number, room) {
                return Some(*number);
            }
        }
        None
    }
}
