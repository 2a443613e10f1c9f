//! The order of a rollout's steps.
ghost use Rattle.std.specs.Prelude.{◌≤◌, All, IfOk, length};
ghost use Rattle.area_graph.specs.Costs.{IsPriced};
ghost use Rattle.rival_separation.specs.Askers.{ArePathsOf};
ghost use Rattle.spf_ties.specs.Distances.{IsRoomFor};
ghost use Rattle.change_steps.specs.Outcomes.{AreStepsFound, IsOutcome};
ghost use Rattle.change_steps.specs.Walks.{IsBegun};

use crate::ending::outcome_of;
use crate::found::{Outcome, Steps};
use crate::held_rollout::HeldRollout;
use crate::moves::Moves;
use crate::rollout::Rollout;
use crate::state_search::Walk;
use area_graph::Graph;
use cost_base::OutOfMemory;
use design_problem::Request;
use spf_ties::Room;
use std::alloc::Global;

/// What a search comes to that begins at the state of the first steps.
fn outcome_in(
    alloc: Global,
    held_rollout: &HeldRollout,
    walk: &mut Walk,
    nodes: u32,
) -> Result<Outcome, OutOfMemory>
    requires { IsBegun held_rollout.now walk.old }
    ensures { IfOk result (IsOutcome held_rollout.now.rollout held_rollout.now.held nodes) }
{
    let end = walk.search(alloc, held_rollout, nodes)?;
    outcome_of(alloc, held_rollout, walk, end)
}

/// What the search for an order of a rollout's steps comes to, in this room for distances.
fn outcome_by(
    alloc: Global,
    held_rollout: &HeldRollout,
    room: Room,
    nodes: u32,
) -> Result<Outcome, OutOfMemory>
    requires { IsRoomFor held_rollout.now.rollout.graph room }
    ensures { IfOk result (IsOutcome held_rollout.now.rollout held_rollout.now.held nodes) }
{
    let mut walk = Walk::begin(alloc, held_rollout, room)?;
    outcome_in(alloc, held_rollout, &mut walk, nodes)
}

/// An order of all steps in which each held path stays the only cheapest of its request: one that is so both at present
/// and after all steps, and is so after each step of the order. A state is a set of steps that are done. States are
/// tested depth first from that of the steps that come first, which take nothing from the held paths; the steps between
/// are tried in order, and the search goes on from the first whose state is safe and wasn't tested before; those that
/// come last follow. Where `nodes` states were tested and another would be, the outcome is `Undecided`; that of the
/// first steps counts as tested.
///
/// # Errors
///
/// `OutOfMemory`.
pub fn find_steps(
    alloc: Global,
    graph: &Graph,
    requests: &[Request],
    moves: &Moves,
    nodes: u32,
) -> Result<Steps, OutOfMemory>
    requires priced { All (λ edge. IsPriced (length moves.now.present) edge.price) graph.now.edges }
    requires requests { ArePathsOf graph.now requests.now }
    requires few { length requests.now ≤ 10000 }
    ensures { IfOk result (AreStepsFound (record {
      graph = graph.now;
      requests = requests.now;
      moves
          = moves.now;
    }) nodes) }
{
    let rollout = Rollout::new(graph, requests, moves);
    let mut room = Room::new(alloc, graph)?;
    let held_rollout = HeldRollout::new(alloc, rollout, &mut room)?;
    let outcome = outcome_by(alloc, &held_rollout, room, nodes)?;
    Ok(Steps {
        held: held_rollout.into_held(),
        outcome,
    })
}
