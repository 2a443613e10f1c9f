//! The least cap.
ghost use Rattle.std.specs.Prelude.{◌≤◌, IfOk};
ghost use Rattle.form_search.specs.AdvisorsAsked.{AreCalled};
ghost use Rattle.cost_branching.specs.Pools.{IsRowPool};
ghost use Rattle.least_bound.specs.Answered.{IsDesignAnswer};
ghost use Rattle.least_bound.specs.AdvisorsAsked.{AreAskedAnswering};
ghost use Rattle.least_bound.specs.Caps.{AreAskedOn, IsBoundSoFar, caps_of};

use crate::answering::impossible;
use crate::so_far::{Best, SoFar};
use cost_base::OutOfMemory;
use cost_branching::{Found, Pool, decide};
use cut_advisors::Advisor;
use design_problem::{Answer, CapTree, Problem, greatest_of, keeps_problem_on_graph};
use std::alloc::Global;
use wide_fraction::Limits;

/// Decides caps until none is left, and answers.
fn narrowed(
    problem: &Problem,
    limits: &Limits,
    pool: Pool,
    so_far: SoFar,
    advisors: &mut Vec<Box<dyn Advisor>>,
) -> Result<Answer, OutOfMemory>
    requires pool { IsRowPool problem.now pool }
    requires so_far { IsBoundSoFar problem.now limits.now.top limits.now.nodes pool so_far }
    ensures answered { IfOk result (IsDesignAnswer problem.now limits.now.top limits.now.nodes) }
    ensures asked { IfOk result (AreAskedOn ⟦<dyn Advisor as Advisor>⟧ (λ b. b.vtable)
        (λ b. state b) problem.now limits.now.top limits.now.nodes (caps_of so_far)
        advisors.old.items advisors.new.items) }
    ensures advisors { AreCalled ⟦<dyn Advisor as Advisor>⟧ (λ b. b.vtable) (λ b. state b)
        advisors.old.items advisors.new.items }
{
    keeps_problem_on_graph(problem);
    let mut pool = pool;
    let mut so_far = so_far;
    while let Some(cap) = so_far.next_cap() {
        let found = decide(problem, cap, limits, &mut pool, advisors)?;
        so_far = so_far.after(cap, found);
    }
    so_far.answer(problem, pool)
}

/// Looks for fit costs of the least greatest cost, with evidence.
///
/// An optimal answer has best costs, with a floor or a closed earnest tree at the cap below; an impossible one a closed
/// earnest tree at the greatest bound. An undecided answer names the cap of its undecided tree, which has exactly
/// `limits.nodes` entries; it holds the best costs that were found, and the closed tree of the greatest refuted cap,
/// where there are such.
///
/// # Errors
///
/// `OutOfMemory`.
pub fn least(
    alloc: Global,
    problem: &Problem,
    limits: &Limits,
    advisors: &mut Vec<Box<dyn Advisor>>,
) -> Result<Answer, OutOfMemory>
    ensures answered { IfOk result (IsDesignAnswer problem.now limits.now.top limits.now.nodes) }

    // The advisors are asked and told by one search for each cap that is decided: the greatest
    // bound first, and then each that comes next until none is left. The answer tells what
    // these searches found.
    ensures asked { IfOk result (AreAskedAnswering ⟦<dyn Advisor as Advisor>⟧ (λ b. b.vtable)
        (λ b. state b) problem.now limits.now.top limits.now.nodes advisors.old.items
        advisors.new.items) }
    ensures advisors { AreCalled ⟦<dyn Advisor as Advisor>⟧ (λ b. b.vtable) (λ b. state b)
        advisors.old.items advisors.new.items }
{
    keeps_problem_on_graph(problem);
    let cap = greatest_of(problem.high.as_slice());
    let mut pool = Pool::new(alloc);
    match decide(problem, cap, limits, &mut pool, advisors)? {
        Found::Refuted(tree) => impossible(problem, pool, cap, tree),
        Found::Costs(costs) => {
            let most = greatest_of(costs.as_slice());
            let so_far = SoFar::start(problem, most, Best::Costs(costs));
            narrowed(problem, limits, pool, so_far, advisors)
        }
        Found::Undecided(tree) => {
            let best = Best::NoCosts(CapTree { cap, tree });
            let so_far = SoFar::start(problem, cap, best);
            narrowed(problem, limits, pool, so_far, advisors)
        }
    }
}
