//! The search for an order of the steps between.
ghost use Rattle.std.specs.Prelude.{◌≡◌, ◌++◌, ◌∷◌, ◌↔◌, ◌+◌, ◌<◌, ◌≤◌, ℕ, [], Contains, IfOk, IsTrue, MatchBool, MatchOption, OnOk, false, length, max, slice_set, true, ⊤};
ghost use Rattle.cost_base.specs.Marks.{is_marked, is_one_of};
ghost use Rattle.spf_ties.specs.Distances.{IsRoomFor};
ghost use Rattle.change_steps.specs.Rollouts.{step_count};
ghost use Rattle.change_steps.specs.Orders.{IsSafe};
ghost use Rattle.change_steps.specs.Kinds.{first_steps};
ghost use Rattle.change_steps.specs.States.{MayFollow, marks_of};
ghost use Rattle.change_steps.specs.Search.{AllLack, IsNewStep, IsStateOf, longer_of};
ghost use Rattle.change_steps.specs.Walks.{IsBegun, IsWalkEnded, IsAfterRound, IsUnderWay, IsSearchWalk, position_of};

use crate::held_rollout::HeldRollout;
use crate::kinds::Kind;
use crate::state::State;
use crate::tested::Tested;
use cost_base::OutOfMemory;
use spf_ties::Room;
use std::alloc::Global;

/// How a search ended.
pub(crate) enum End {
    /// All steps between are done.
    Complete,
    /// Each state that can be reached was tested.
    Exhausted,
    /// Another state would be tested than the budget allows.
    UsedUp,
}

/// A search, depth first, for an order of the steps between.
#[derive(Drop)]
pub(crate) struct Walk {
    /// The state at which the search stands: the first steps are done, and those of the order.
    pub(crate) state: State,
    /// The steps between that are done, in the order in which they were done.
    pub(crate) order: Vec<usize>,
    /// The step from which on the search goes on.
    next: usize,
    /// The states that were tested.
    pub(crate) tested: Tested,
    /// The steps between of the first of the greatest safe states.
    pub(crate) greatest: Vec<usize>,
    /// The room for distances.
    pub(crate) room: Room,
}

/// Whether a state with one step more wasn't tested yet. The marks are as before.
fn is_new(tested: &Tested, marks: &mut Vec<bool>, step: usize) -> bool
    requires known { step < length marks.old.items }
    requires left { is_marked marks.old.items step ≡ false }
    ensures same { marks.new.items ≡ marks.old.items }
    ensures new { MatchBool result (Contains tested.now (slice_set marks.old.items step true) → ⊥)
        (Contains tested.now (slice_set marks.old.items step true)) }
{
    marks[step] = true;
    let new = !tested.has(marks);
    marks[step] = false;
    new
}

/// The state of the first steps.
fn first_state(alloc: Global, held_rollout: &HeldRollout) -> Result<State, OutOfMemory>
    ensures state { IfOk result (IsStateOf held_rollout.now.rollout) }
    ensures done { IfOk result (λ state. state.done.items ≡ marks_of held_rollout.now.rollout
        (is_one_of (first_steps held_rollout.now.rollout held_rollout.now.held))) }
{
    let mut first = Vec::new(alloc);
    held_rollout.put_steps(&mut first, Kind::First)?;
    State::after(alloc, held_rollout.rollout(), &first)
}

impl Walk {
    /// A search that stands at the state of the first steps, which counts as tested.
    pub fn begin(alloc: Global, held_rollout: &HeldRollout, room: Room) -> Result<Walk, OutOfMemory>
        requires { IsRoomFor held_rollout.now.rollout.graph room }
        ensures { IfOk result (IsBegun held_rollout.now) }
    {
        held_rollout.keeps_conditions();
        let state = first_state(alloc, held_rollout)?;
        let mut tested = Tested::new(alloc);
        tested.add(alloc, &state.done)?;
        Ok(Walk {
            state,
            order: Vec::new(alloc),
            next: 0,
            tested,
            greatest: Vec::new(alloc),
            room,
        })
    }

    /// Whether a step may follow, and its state wasn't tested.
    fn may_try(&mut self, held_rollout: &HeldRollout, step: usize) -> bool
        // The state and the step are ones of the rollout.
        requires state { IsStateOf held_rollout.now.rollout self.old.state }
        requires known { step < step_count held_rollout.now.rollout }

        // The walk stands where it stood, with the same steps done.
        ensures state { IsStateOf held_rollout.now.rollout self.new.state }
        ensures done { self.new.state.done.items ≡ self.old.state.done.items }
        ensures position { position_of self.new ≡ position_of self.old }
        ensures room { self.new.room ≡ self.old.room }

        // Where a step may follow and isn't to be tried, the state after it was tested.
        ensures new { MatchBool result
            (IsNewStep held_rollout.now self.old.tested self.old.state.done.items step)
            (MayFollow held_rollout.now.rollout held_rollout.now.held
            self.old.state.done.items step →
            Contains self.old.tested (slice_set self.old.state.done.items step true)) }
    {
        if held_rollout.may_follow(&self.state.done, step) {
            is_new(&self.tested, &mut self.state.done, step)
        } else {
            false
        }
    }

    /// The next step whose state has to be tested.
    fn find_next(&mut self, held_rollout: &HeldRollout) -> Option<usize>
        requires walk { IsSearchWalk held_rollout.now self.old }
        ensures walk { IsSearchWalk held_rollout.now self.new }
        ensures order { self.new.order.items ≡ self.old.order.items }
        ensures tested { self.new.tested ≡ self.old.tested }
        ensures next { MatchOption result (self.new.next ≡ step_count held_rollout.now.rollout)
            (λ step. (self.new.next ≡ step) × IsNewStep held_rollout.now self.new.tested
            self.new.state.done.items step) }
    {
        for step in self.next..held_rollout.step_count() {
            if self.may_try(held_rollout, step) {
                self.next = step;
                return Some(step);
            }
        }
        self.next = held_rollout.step_count();
        None
    }

    /// Goes on from a safe state after a step.
    fn go_on(&mut self, step: usize) -> Result<(), OutOfMemory>
        // The way ends with the step, steps are tried from the first, and the longest way is kept.
        ensures order { OnOk result (self.new.order.items ≡ self.old.order.items ++ step ∷ []) }
        ensures next { OnOk result (self.new.next ≡ 0) }
        ensures greatest { OnOk result (self.new.greatest.items ≡ longer_of self.old.greatest.items
            (self.old.order.items ++ step ∷ [])) }

        // What was tested, the state and the room stay as they are.
        ensures tested { self.new.tested ≡ self.old.tested }
        ensures state { self.new.state ≡ self.old.state }
        ensures room { self.new.room ≡ self.old.room }
    {
        self.order.push(step)?;
        self.next = 0;
        if self.greatest.len() < self.order.len() {
            self.greatest.clear();
            self.greatest.extend_from_slice(&self.order)?;
        }
        Ok(())
    }

    /// Tests the state after a step, and goes on from it where it is safe.
    fn test(
        &mut self,
        alloc: Global,
        held_rollout: &HeldRollout,
        step: usize,
    ) -> Result<bool, OutOfMemory>
        // The walk stands at the step, which leads to a state that wasn't tested.
        requires walk { IsSearchWalk held_rollout.now self.old }
        requires next { self.old.next ≡ step }
        requires new { IsNewStep held_rollout.now self.old.tested self.old.state.done.items step }

        // That state is tested then, whether it is safe or not.
        ensures walk { IfOk result (λ safe. IsSearchWalk held_rollout.now self.new) }
        ensures tested { IfOk result (λ safe. self.new.tested ≡ self.old.tested ++
            slice_set self.old.state.done.items step true ∷ []) }

        // Where it is safe the walk goes on there, and its way is longer by one step at most.
        ensures safe { IfOk result (λ safe. IsTrue safe ↔ IsSafe held_rollout.now.rollout
            held_rollout.now.held (is_marked (slice_set self.old.state.done.items step true))) }
        ensures here { IfOk result (λ safe. IsTrue safe → self.new.state.done.items ≡
            slice_set self.old.state.done.items step true) }
        ensures order { IfOk result (λ safe. length self.new.order.items ≤
            length self.old.order.items + 1) }
    {
        self.state.do_step(held_rollout.rollout(), step);
        self.tested.add(alloc, &self.state.done)?;
        let safe = held_rollout.is_safe_after(&self.state, step, &mut self.room);
        if safe {
            self.go_on(step)?;
        } else {
            self.state.undo_step(held_rollout.rollout(), step);
            self.next = step + 1;
        }
        Ok(safe)
    }

    /// Goes back to the state before the last step, if there is one.
    fn go_back(&mut self, held_rollout: &HeldRollout) -> bool
        // No step is left to try at the walk's state.
        requires walk { IsSearchWalk held_rollout.now self.old }
        requires next { self.old.next ≡ step_count held_rollout.now.rollout }

        // The walk is still one of a search, with the same tested states.
        ensures walk { IsSearchWalk held_rollout.now self.new }
        ensures tested { self.new.tested ≡ self.old.tested }

        // The way is shorter by a step, or it is empty and nothing is left to try.
        ensures order { MatchBool result (length self.new.order.items + 1 ≡
            length self.old.order.items) (self.new.order.items ≡ []) }
        ensures next { MatchBool result ⊤ (self.new.next ≡ step_count held_rollout.now.rollout) }
    {
        // For the prover: that a step's number plus 1 fits a `usize` is known once the number of steps is read.
        let _few = held_rollout.step_count();
        match self.order.pop() {
            Some(step) => {
                self.state.undo_step(held_rollout.rollout(), step);
                self.next = step + 1;
                true
            }
            None => false,
        }
    }

    /// Tests the state after a step that is new, unless the budget is used up.
    fn try_step(
        &mut self,
        alloc: Global,
        held_rollout: &HeldRollout,
        nodes: u32,
        step: usize,
    ) -> Result<Option<End>, OutOfMemory>
        requires walk { IsUnderWay held_rollout.now nodes self.old }
        requires next { self.old.next ≡ step }
        requires new { IsNewStep held_rollout.now self.old.tested self.old.state.done.items step }
        ensures { IfOk result (IsAfterRound held_rollout.now nodes self.old self.new) }
    {
        if nodes as usize <= self.tested.len() {
            return Ok(Some(End::UsedUp));
        }
        let safe = self.test(alloc, held_rollout, step)?;
        if !safe {
            return Ok(None);
        }
        match held_rollout.first_left(&self.state.done) {
            Some(_) => Ok(None),
            None => Ok(Some(End::Complete)),
        }
    }

    /// Goes back, where all steps that may follow were tried. At the beginning the search ends.
    fn retreat(&mut self, held_rollout: &HeldRollout) -> Option<End>
        requires walk { (nodes : ℕ) × IsUnderWay held_rollout.now nodes self.old }
        requires next { self.old.next ≡ step_count held_rollout.now.rollout }
        ensures { (nodes : ℕ) → IsUnderWay held_rollout.now nodes self.old →
            IsAfterRound held_rollout.now nodes self.old self.new result }
    {
        if self.go_back(held_rollout) {
            None
        } else {
            Some(End::Exhausted)
        }
    }

    /// One round of the search: tests a state, or goes back.
    fn round(
        &mut self,
        alloc: Global,
        held_rollout: &HeldRollout,
        nodes: u32,
    ) -> Result<Option<End>, OutOfMemory>
        requires { IsUnderWay held_rollout.now nodes self.old }
        ensures { IfOk result (IsAfterRound held_rollout.now nodes self.old self.new) }
    {
        match self.find_next(held_rollout) {
            Some(step) => self.try_step(alloc, held_rollout, nodes, step),
            None => Ok(self.retreat(held_rollout)),
        }
    }

    /// Takes rounds until the search ends.
    fn take_rounds(
        &mut self,
        alloc: Global,
        held_rollout: &HeldRollout,
        nodes: u32,
    ) -> Result<End, OutOfMemory>
        requires { IsUnderWay held_rollout.now nodes self.old }
        ensures { IfOk result (IsWalkEnded held_rollout.now nodes self.new) }
    {
        loop {
            if let Some(end) = self.round(alloc, held_rollout, nodes)? {
                return Ok(end);
            }
        }
    }

    /// Searches until all steps between are done, each state that can be reached was tested, or the budget is used up.
    pub fn search(
        &mut self,
        alloc: Global,
        held_rollout: &HeldRollout,
        nodes: u32,
    ) -> Result<End, OutOfMemory>
        requires { IsBegun held_rollout.now self.old }
        ensures { IfOk result (IsWalkEnded held_rollout.now nodes self.new) }
    {
        match held_rollout.first_left(&self.state.done) {
            Some(_) => self.take_rounds(alloc, held_rollout, nodes),
            None => Ok(End::Complete),
        }
    }
}
