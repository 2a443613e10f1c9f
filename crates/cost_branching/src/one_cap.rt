//! One cap decided.
ghost use Rattle.std.specs.Prelude.{◌≤◌, length, All, IfOk, OnOk};
ghost use Rattle.design_problem.specs.Boxes.{IsBox, capped};
ghost use Rattle.design_problem.specs.Earnest.{IsLeastPoint};
ghost use Rattle.design_problem.specs.Rows.{LeadsEach, box_of};
ghost use Rattle.form_search.specs.AdvisorsAsked.{AreAdvised, AreCalled};
ghost use Rattle.form_search.specs.Finds.{IsSearchResult};
ghost use Rattle.cost_branching.specs.Pools.{IsRowPool, MoreRows};
ghost use Rattle.cost_branching.specs.Decisions.{IsDecided};
ghost use Rattle.cost_branching.specs.Rivals.{GrowsByRows, IsBegunWith};

use crate::rivals::{Begun, Rivals};
use crate::{Found, Pool};
use cost_base::OutOfMemory;
use cut_advisors::Advisor;
use design_problem::{CostBox, Problem, box_at, keeps_problem_on_graph};
use form_search::search;
use rival_separation::Asker;
use std::marker::Brand;
use std::mem;
use wide_fraction::Limits;

/// Searches a box over the rivals of the problem's paths. Whatever comes, the pool's rows begin with those that it had.
fn search_rivals<B: Begun>(
    problem: &Problem,
    costs: &CostBox,
    limits: &Limits,
    pool: &mut Pool,
    advisors: &mut Vec<Box<dyn Advisor>>,
) -> Result<Found, OutOfMemory>
    // The search begins with this problem and the pool's rows, which are rows of the problem.
    requires begun { IsBegunWith B.problem B.rows problem.now pool.old }
    requires pool { IsRowPool problem.now pool.old }

    // The box has a range for each variable, of costs from 1 on.
    requires ranges { IsBox (length problem.now.low) costs.now }
    requires lows { All (λ low. 1 ≤ low) costs.now.low }

    // What is found holds by the pool's forms, to which only those of new rows came, at its end.
    ensures found { IfOk result (IsSearchResult (LeadsEach problem.now) limits.now.top
        limits.now.nodes pool.new.forms costs.now) }
    ensures pool { OnOk result (IsRowPool problem.now pool.new) }
    ensures grows { GrowsByRows problem.now pool.old pool.new }

    // The advisors are asked before each Split and told each entry, along the tree that grows.
    ensures advisors { AreAdvised ⟦<dyn Advisor as Advisor>⟧ (λ b. b.vtable) (λ b. state b)
        (IsLeastPoint (LeadsEach problem.now)) costs.now result advisors.old.items
        advisors.new.items }
{
    keeps_problem_on_graph(problem);
    let alloc = pool.alloc();
    let asker = Asker::new(alloc, &problem.graph, problem.requests.as_slice())?;
    let rows = mem::replace(&mut pool.rows, Vec::new(alloc));
    let mut source = Rivals::<B>::new(problem, asker, rows);
    let found = search(&mut source, costs, limits, &mut pool.forms, advisors);
    pool.rows = source.into_rows();
    found
}

/// Searches a box for costs at which each wanted path leads.
///
/// Costs lie in the box and are fit as far as its ranges lie within the problem's bounds. Refuted comes with a closed
/// earnest tree over the box, Undecided with one that has an Undone and exactly `limits.nodes` entries; the rows of the
/// trees are numbered as in the pool. The pool keeps its rows, and new ones come at its end.
///
/// # Errors
///
/// `OutOfMemory`. Then the pool is as before.
pub fn decide_within(
    problem: &Problem,
    costs: &CostBox,
    limits: &Limits,
    pool: &mut Pool,
    advisors: &mut Vec<Box<dyn Advisor>>,
) -> Result<Found, OutOfMemory>
    // The box has costs from 1 on for each variable, and the pool has rows of the problem.
    requires ranges { IsBox (length problem.now.low) costs.now }
    requires lows { All (λ low. 1 ≤ low) costs.now.low }
    requires pool { IsRowPool problem.now pool.old }

    // What is found holds by the pool's forms; the pool keeps its rows, with new ones at its end.
    ensures found { IfOk result (IsSearchResult (LeadsEach problem.now) limits.now.top
        limits.now.nodes pool.new.forms costs.now) }
    ensures pool { IsRowPool problem.now pool.new }
    ensures more { MoreRows pool.old pool.new }

    // The advisors are asked before each Split and told each entry, along the tree that grows.
    ensures advisors { AreAdvised ⟦<dyn Advisor as Advisor>⟧ (λ b. b.vtable) (λ b. state b)
        (IsLeastPoint (LeadsEach problem.now)) costs.now result advisors.old.items
        advisors.new.items }
{
    keeps_problem_on_graph(problem);
    let begun = pool.rows().len();
    match search_rivals::<Brand>(problem, costs, limits, pool, advisors) {
        Ok(found) => Ok(found),
        Err(OutOfMemory) => {
            pool.truncate(begun);
            Err(OutOfMemory)
        }
    }
}

/// Decides whether a problem has fit costs of at most `cap`.
///
/// Costs are fit and lie in the box at the cap. Refuted comes with a closed earnest tree over that box, Undecided with
/// one that has an Undone and exactly `limits.nodes` entries; the rows of the trees are numbered as in the pool. The
/// pool keeps its rows, and new ones come at its end.
///
/// # Errors
///
/// `OutOfMemory`. Then too the pool keeps its rows, and each new one is a row of the problem.
pub fn decide(
    problem: &Problem,
    cap: u16,
    limits: &Limits,
    pool: &mut Pool,
    advisors: &mut Vec<Box<dyn Advisor>>,
) -> Result<Found, OutOfMemory>
    // The cap is below no variable's lower bound, and the pool has rows of the problem.
    requires cap { All (λ low. low ≤ cap) problem.now.low }
    requires pool { IsRowPool problem.now pool.old }

    // What is decided holds by the pool's forms; the pool keeps its rows, with new ones at its end.
    ensures decided { IfOk result (IsDecided problem.now limits.now.top limits.now.nodes cap
        pool.new) }
    ensures pool { IsRowPool problem.now pool.new }
    ensures more { MoreRows pool.old pool.new }

    // The advisors are asked before each Split and told each entry, along the tree that grows over
    // the box at the cap.
    ensures asked { AreAdvised ⟦<dyn Advisor as Advisor>⟧ (λ b. b.vtable) (λ b. state b)
        (IsLeastPoint (LeadsEach problem.now)) (capped (box_of problem.now) cap) result
        advisors.old.items advisors.new.items }
    ensures advisors { AreCalled ⟦<dyn Advisor as Advisor>⟧ (λ b. b.vtable) (λ b. state b)
        advisors.old.items advisors.new.items }
{
    keeps_problem_on_graph(problem);
    let costs = box_at(pool.alloc(), problem, cap)?;
    decide_within(problem, &costs, limits, pool, advisors)
}
