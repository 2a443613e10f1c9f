//! Costs that spread traffic over sets of wanted paths.
ghost use Rattle.std.specs.Prelude.{◌≡◌, ℕ, ◌≤◌, List, [], length, All, IfOk, OnOk};
ghost use Rattle.design_problem.specs.Answers.{greatest_bound, whole_box};
ghost use Rattle.design_problem.specs.Boxes.{IsBox};
ghost use Rattle.design_problem.specs.Problems.{IsProblemOnGraph};
ghost use Rattle.form_search.specs.Finds.{IsSearchResult};
ghost use Rattle.set_reader.specs.SpreadSets.{AreSetsOf};
ghost use Rattle.spread_sets.specs.Answers.{IsFoundOf, IsSpreadFound};
ghost use Rattle.spread_sets.specs.MemberSets.{AreDistinctSets, AreMemberSets, HasTree, sets_in};
ghost use Rattle.spread_sets.specs.Spreads.{SharesEach};
ghost use Rattle.spread_sets.specs.Sources.{IsFoundInStep, IsPoolOfSets, IsSpreadSought};

use crate::member_sets::{MemberSet, all_sets, with_trees};
use crate::source::{Begun, Spreads};
use crate::spread::{SetRow, Spread};
use cost_base::OutOfMemory;
use cost_branching::request_count;
use design_problem::{CostBox, Problem, box_at, greatest_of, keeps_problem_on_graph};
use form_search::{FormPool, Found, search};
use printed_rows::{PrintedTree, printed};
use set_reader::Sets;
use std::alloc::Global;
use std::marker::Brand;
use wide_fraction::Limits;

/// What a search found, and the rows of the forms that it knew.
#[derive(Drop)]
pub(crate) struct Sought {
    pub(crate) rows: Vec<SetRow>,
    pub(crate) found: Found,
}

/// Searches a box for costs at which the members of each set tie and every other path is dearer, with an empty pool. No
/// advisor is asked: the first candidate for a split is taken.
fn search_in<B: Begun>(
    source: &mut Spreads<'_, B>,
    costs: &CostBox,
    limits: &Limits,
    pool: &mut FormPool,
) -> Result<Found, OutOfMemory>
    // No row is known of the sets, which are the problem's, and no form of one.
    requires rows { source.old.rows ≡ [] }
    requires forms { pool.old ≡ [] }
    requires kept { IsProblemOnGraph source.old.problem }
    requires sets { AreMemberSets source.old.problem source.old.sets }

    // The box has a range for each variable, of costs from 1 on.
    requires ranges { IsBox (length source.old.problem.low) costs.now }
    requires lows { All (λ low. 1 ≤ low) costs.now.low }

    // What is found holds by the forms of rows of the sets.
    ensures lists { OnOk result (IsPoolOfSets source.new pool.new) }
    ensures found { IfOk result (IsSearchResult (SharesEach source.old.problem source.old.sets)
        limits.now.top limits.now.nodes pool.new costs.now) }
{
    let alloc = pool.alloc();
    source.begin(alloc, pool)?;
    search(source, costs, limits, pool, &mut Vec::new(alloc))
}

/// Searches a box as `search_in` does, with a pool of its own.
fn search_box<B: Begun>(
    alloc: Global,
    source: &mut Spreads<'_, B>,
    costs: &CostBox,
    limits: &Limits,
) -> Result<Found, OutOfMemory>
    // No row is known of the sets, which are the problem's.
    requires rows { source.old.rows ≡ [] }
    requires kept { IsProblemOnGraph source.old.problem }
    requires sets { AreMemberSets source.old.problem source.old.sets }

    // The box has a range for each variable, of costs from 1 on.
    requires ranges { IsBox (length source.old.problem.low) costs.now }
    requires lows { All (λ low. 1 ≤ low) costs.now.low }
    ensures { IfOk result (IsFoundInStep source.old.problem source.old.sets limits.now.top
        limits.now.nodes costs.now source.new) }
{
    let mut pool = FormPool::new(alloc);
    search_in(source, costs, limits, &mut pool)
}

/// Searches a box for costs that spread traffic over the sets of a problem.
fn search_sets<B: Begun>(
    alloc: Global,
    problem: &Problem,
    sets: Vec<MemberSet>,
    costs: &CostBox,
    limits: &Limits,
) -> Result<Sought, OutOfMemory>
    // The search begins with this problem and these sets, each with the tree of its paths.
    requires problem { problem.now ≡ B.problem }
    requires sets { sets_in sets.items ≡ B.sets }
    requires trees { All (HasTree problem.now) sets.items }

    // The box has a range for each variable, of costs from 1 on.
    requires ranges { IsBox (length problem.now.low) costs.now }
    requires lows { All (λ low. 1 ≤ low) costs.now.low }

    // What is found holds by the forms of rows of the sets.
    ensures { IfOk result (IsSpreadSought problem.now (sets_in sets.items) limits.now.top
        limits.now.nodes costs.now) }
{
    keeps_problem_on_graph(problem);
    let mut source = Spreads::<B>::new(alloc, problem, sets)?;
    let found = search_box(alloc, &mut source, costs, limits)?;
    Ok(Sought {
        rows: source.into_rows(),
        found,
    })
}

/// What was found, with the rows that a tree names and the tree with their new numbers.
fn answered(
    alloc: Global,
    problem: &Problem,
    limits: &Limits,
    sought: Sought,
) -> Result<Spread, OutOfMemory>
    requires bound_small { greatest_bound problem.now ≤ 65535 }
    requires sought { (sets : List (List ℕ)) × AreMemberSets problem.now sets ×
        IsSpreadSought problem.now sets limits.now.top limits.now.nodes (whole_box problem.now)
        sought }
    ensures { (sets : List (List ℕ)) → AreMemberSets problem.now sets → AreDistinctSets sets →
        IsSpreadSought problem.now sets limits.now.top limits.now.nodes (whole_box problem.now)
        sought → IfOk result (IsFoundOf problem.now sets limits.now.top limits.now.nodes) }
{
    keeps_problem_on_graph(problem);
    let Sought { rows, found } = sought;
    match found {
        Found::Costs(costs) => Ok(Spread::Fit(costs)),
        Found::Refuted(tree) => {
            let PrintedTree { rows, tree } = printed(alloc, rows, &tree)?;
            Ok(Spread::Impossible { rows, tree })
        }
        Found::Undecided(tree) => {
            let PrintedTree { rows, tree } = printed(alloc, rows, &tree)?;
            Ok(Spread::Undecided { rows, tree })
        }
    }
}

/// Looks for costs at which the members of each set cost the same and every other simple path between their ends costs
/// more. `sets` are those of the `set` lines; each path in none of them is a set by itself.
///
/// Fit has such costs. Impossible comes with a closed earnest tree over the box at the greatest bound, and
/// Undecided with an earnest tree over that box that has an Undone and exactly `limits.nodes` entries.
///
/// # Errors
///
/// `OutOfMemory`.
pub fn find_spread(
    alloc: Global,
    problem: &Problem,
    sets: &Sets,
    limits: &Limits,
) -> Result<Spread, OutOfMemory>
    requires { AreSetsOf problem.now sets.now }
    ensures { IfOk result (IsSpreadFound problem.now sets.now limits.now.top limits.now.nodes) }
{
    keeps_problem_on_graph(problem);
    let all = all_sets(alloc, sets.as_slice(), request_count(problem))?;
    let grown = with_trees(alloc, problem, all)?;
    let cap = greatest_of(problem.high.as_slice());
    let costs = box_at(alloc, problem, cap)?;
    let sought = search_sets::<Brand>(alloc, problem, grown, &costs, limits)?;
    answered(alloc, problem, limits, sought)
}
