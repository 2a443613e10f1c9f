//! A least conflict.
ghost use Rattle.std.specs.Prelude.{◌≡◌, ◌⊎◌, ℕ, ◌≤◌, length, IfOk};
ghost use Rattle.form_search.specs.AdvisorsAsked.{AreCalled};
ghost use Rattle.least_conflict.specs.AdvisorsAsked.{AreAskedFinding, IsLeastConflictOf, IsUndecidedOfRequests};
ghost use Rattle.least_conflict.specs.Conflicts.{IsConflictFound, IsConflictLessOne, all_requests};
ghost use Rattle.least_conflict.specs.Deciding.{AreAskedFrom, AreAskedShrinking, AreFitWithout, IsRefutedSet, IsShrunk, IsUndecidedSet};

use crate::conflict::Conflict;
use crate::deciding::{Decided, SetTree, decide_set};
use crate::members::all_requests;
use crate::shrinking::{Shrunk, Tried, leave_out};
use crate::telling::{Told, tell};
use cost_base::{Listed, OutOfMemory};
use cut_advisors::Advisor;
use design_problem::{CostList, Problem, keeps_problem_on_graph};
use std::alloc::Global;
use wide_fraction::Limits;

/// That the budget was used up at a set.
fn undecided(alloc: Global, problem: &Problem, set: SetTree) -> Result<Conflict, OutOfMemory>
    requires used_up { (top : ℕ) × (nodes : ℕ) × IsUndecidedSet problem.now top nodes set }
    requires tried { (set.members.items ≡ all_requests problem.now) ⊎
        IsConflictLessOne problem.now set.members.items }
    ensures found { (top nodes : ℕ) → IsUndecidedSet problem.now top nodes set →
        IfOk result (IsConflictFound problem.now top nodes) }
    ensures told { IfOk result (IsUndecidedOfRequests set.members.items set.pool set.tree) }
{
    let Told {
        members,
        rows,
        tree,
    } = tell(alloc, problem, set)?;
    Ok(Conflict::Undecided {
        members,
        rows,
        tree,
    })
}

/// A conflict for whose members there are costs without each.
fn least(
    alloc: Global,
    problem: &Problem,
    conflict: SetTree,
    without: Vec<CostList>,
) -> Result<Conflict, OutOfMemory>
    requires conflict { (top : ℕ) × (nodes : ℕ) × IsRefutedSet problem.now top nodes conflict }
    requires counted { length without.items ≡ length conflict.members.items }
    requires fits { AreFitWithout problem.now conflict.members.items without.items }
    ensures found { (top nodes : ℕ) → IsRefutedSet problem.now top nodes conflict →
        IfOk result (IsConflictFound problem.now top nodes) }
    ensures told { IfOk result (IsLeastConflictOf conflict.members.items conflict.pool conflict.tree
        without.items) }
{
    keeps_problem_on_graph(problem);
    let Told {
        members,
        rows,
        tree,
    } = tell(alloc, problem, conflict)?;
    Ok(Conflict::Least {
        members,
        rows,
        tree,
        without: Listed::from_items(without),
    })
}

/// Decides a conflict once more, for its own tree.
fn finish(
    alloc: Global,
    problem: &Problem,
    limits: &Limits,
    shrunk: Shrunk,
    advisors: &mut Vec<Box<dyn Advisor>>,
) -> Result<Conflict, OutOfMemory>
    requires shrunk { IsShrunk problem.now shrunk }
    requires ended { length shrunk.members ≤ length shrunk.without.items }
    ensures found { IfOk result (IsConflictFound problem.now limits.now.top limits.now.nodes) }
    ensures asked { IfOk result (AreAskedFrom ⟦<dyn Advisor as Advisor>⟧ (λ b. b.vtable)
        (λ b. state b) problem.now limits.now.top limits.now.nodes shrunk.members shrunk.rows
        shrunk.without.items advisors.old.items advisors.new.items) }
    ensures advisors { AreCalled ⟦<dyn Advisor as Advisor>⟧ (λ b. b.vtable) (λ b. state b)
        advisors.old.items advisors.new.items }
{
    let members = Vec::from_slice(alloc, shrunk.members.as_slice())?;
    match decide_set(alloc, problem, members, limits, advisors)? {
        // The members are a conflict: rows of them show that no costs are fit.
        Decided::Costs(_) => unreachable!(),
        Decided::Refuted(conflict) => least(alloc, problem, conflict, shrunk.without),
        Decided::Undecided(set) => undecided(alloc, problem, set),
    }
}

/// Leaves out one member of a conflict after the other.
fn shrink(
    alloc: Global,
    problem: &Problem,
    limits: &Limits,
    conflict: SetTree,
    advisors: &mut Vec<Box<dyn Advisor>>,
) -> Result<Conflict, OutOfMemory>
    requires conflict { IsRefutedSet problem.now limits.now.top limits.now.nodes conflict }
    requires all { conflict.members.items ≡ all_requests problem.now }
    ensures found { IfOk result (IsConflictFound problem.now limits.now.top limits.now.nodes) }
    ensures asked { IfOk result (AreAskedShrinking ⟦<dyn Advisor as Advisor>⟧ (λ b. b.vtable)
        (λ b. state b) problem.now limits.now.top limits.now.nodes conflict advisors.old.items
        advisors.new.items) }
    ensures advisors { AreCalled ⟦<dyn Advisor as Advisor>⟧ (λ b. b.vtable) (λ b. state b)
        advisors.old.items advisors.new.items }
{
    keeps_problem_on_graph(problem);
    let Told {
        members,
        rows,
        tree: _,
    } = tell(alloc, problem, conflict)?;
    let mut shrunk = Shrunk {
        members,
        rows,
        without: Vec::new(alloc),
    };
    while shrunk.without.len() < shrunk.members.as_slice().len() {
        match leave_out(alloc, problem, limits, shrunk, advisors)? {
            Tried::On(next) => shrunk = next,
            Tried::Undecided(set) => return undecided(alloc, problem, set),
        }
    }
    finish(alloc, problem, limits, shrunk, advisors)
}

/// Looks for a least conflict among the requests of a problem.
///
/// All requests are decided first, at the greatest bound. Where they have no fit costs, each request in rising
/// order is left out, and stays out where the others have none either. That is known without a search where the last
/// tree has no row of it; so the core is decided once more, for its own tree. Fits has fit costs of the whole problem.
/// A core is a least conflict, with a closed earnest tree, and fit costs for each set without one of its members.
/// Undecided has the earnest tree that used up the budget, with exactly `limits.nodes` entries.
///
/// # Errors
///
/// `OutOfMemory`.
pub fn find_conflict(
    alloc: Global,
    problem: &Problem,
    limits: &Limits,
    advisors: &mut Vec<Box<dyn Advisor>>,
) -> Result<Conflict, OutOfMemory>
    ensures found { IfOk result (IsConflictFound problem.now limits.now.top limits.now.nodes) }

    // The advisors are asked and told by one search after another, each of a set of requests: by
    // that of all requests, and where these are a conflict, by one for each member that is left
    // out in turn, and at last by that of the core. What is found is what these searches found.
    ensures asked { IfOk result (AreAskedFinding ⟦<dyn Advisor as Advisor>⟧ (λ b. b.vtable)
        (λ b. state b) problem.now limits.now.top limits.now.nodes advisors.old.items
        advisors.new.items) }
    ensures advisors { AreCalled ⟦<dyn Advisor as Advisor>⟧ (λ b. b.vtable) (λ b. state b)
        advisors.old.items advisors.new.items }
{
    keeps_problem_on_graph(problem);
    let all = all_requests(alloc, problem)?;
    match decide_set(alloc, problem, all, limits, advisors)? {
        Decided::Costs(costs) => Ok(Conflict::Fit { costs }),
        Decided::Refuted(conflict) => shrink(alloc, problem, limits, conflict, advisors),
        Decided::Undecided(set) => undecided(alloc, problem, set),
    }
}
