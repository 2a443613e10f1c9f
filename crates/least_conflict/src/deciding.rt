//! One set of requests decided.
ghost use Rattle.std.specs.Prelude.{IfOk};
ghost use Rattle.design_problem.specs.Problems.{restricted};
ghost use Rattle.design_problem.specs.Answers.{greatest_bound};
ghost use Rattle.form_search.specs.AdvisorsAsked.{AreCalled};
ghost use Rattle.cost_branching.specs.Decisions.{IsDecided};
ghost use Rattle.cost_branching.specs.Pools.{IsRowPool};
ghost use Rattle.least_conflict.specs.Conflicts.{IsRequestSet};
ghost use Rattle.least_conflict.specs.Deciding.{IsAskedDeciding, IsAskedSearching, IsSetDecided};

use cost_base::OutOfMemory;
use cost_branching::{Found, Pool, decide};
use cut_advisors::Advisor;
use design_problem::{CostList, Problem, Tree, greatest_of, keeps_problem_on_graph};
use std::alloc::Global;
use wide_fraction::Limits;

/// A set of requests, and a tree over the box at the greatest bound that speaks of it. The rows of the pool are those
/// of the restricted problem: they number the members.
#[derive(Drop)]
pub(crate) struct SetTree {
    pub(crate) members: Vec<u32>,
    pub(crate) pool: Pool,
    pub(crate) tree: Tree,
}

/// What is decided of a set of requests.
#[derive(Drop)]
pub(crate) enum Decided {
    /// Costs that are fit for these requests.
    Costs(CostList),
    /// The requests are a conflict.
    Refuted(SetTree),
    /// The budget was used up.
    Undecided(SetTree),
}

/// Decides the greatest bound of the problem of these requests alone, by a pool of its rows.
fn search_set(
    problem: &Problem,
    members: &[u32],
    limits: &Limits,
    pool: &mut Pool,
    advisors: &mut Vec<Box<dyn Advisor>>,
) -> Result<Found, OutOfMemory>
    // The members are a set of the problem's requests, and the rows of the pool those of it.
    requires set { IsRequestSet problem.now members.now }
    requires pool { IsRowPool (restricted problem.now members.now) pool.old }

    // What is found holds of the problem of these requests alone; the pool stays one of its rows.
    ensures decided { IfOk result (IsDecided (restricted problem.now members.now) limits.now.top
        limits.now.nodes (greatest_bound problem.now) pool.new) }
    ensures pool { IsRowPool (restricted problem.now members.now) pool.new }

    // The advisors are called as that search calls them, and left as its calls leave them.
    ensures asked { IfOk result (λ found. IsAskedSearching ⟦<dyn Advisor as Advisor>⟧
        (λ b. b.vtable) (λ b. state b) problem.now limits.now.top limits.now.nodes (record {
          set = members.now;
          pool = pool.new;
          found = found;
        }) advisors.old.items
        advisors.new.items) }
    ensures advisors { AreCalled ⟦<dyn Advisor as Advisor>⟧ (λ b. b.vtable) (λ b. state b)
        advisors.old.items advisors.new.items }
{
    keeps_problem_on_graph(problem);
    let part = problem.only(pool.alloc(), members)?;
    let cap = greatest_of(part.high.as_slice());
    decide(&part, cap, limits, pool, advisors)
}

/// Decides a set of requests at the greatest bound, with a pool of its own.
pub(crate) fn decide_set(
    alloc: Global,
    problem: &Problem,
    members: Vec<u32>,
    limits: &Limits,
    advisors: &mut Vec<Box<dyn Advisor>>,
) -> Result<Decided, OutOfMemory>
    requires { IsRequestSet problem.now members.items }
    ensures decided { IfOk result (IsSetDecided problem.now limits.now.top limits.now.nodes
        members.items) }
    ensures asked { IfOk result (λ decided. IsAskedDeciding ⟦<dyn Advisor as Advisor>⟧
        (λ b. b.vtable) (λ b. state b) problem.now limits.now.top limits.now.nodes members.items
        decided advisors.old.items advisors.new.items) }
    ensures advisors { AreCalled ⟦<dyn Advisor as Advisor>⟧ (λ b. b.vtable) (λ b. state b)
        advisors.old.items advisors.new.items }
{
    let mut pool = Pool::new(alloc);
    match search_set(problem, members.as_slice(), limits, &mut pool, advisors)? {
        Found::Costs(costs) => Ok(Decided::Costs(costs)),
        Found::Refuted(tree) => Ok(Decided::Refuted(SetTree {
            members,
            pool,
            tree,
        })),
        Found::Undecided(tree) => Ok(Decided::Undecided(SetTree {
            members,
            pool,
            tree,
        })),
    }
}
