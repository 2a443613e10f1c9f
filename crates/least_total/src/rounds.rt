//! A round: the search for costs within a cap whose total is at most a bound.
ghost use Rattle.std.specs.Prelude.{◌≡◌, ◌^◌, ◌<◌, ◌≤◌, [], length, All, IfOk};
ghost use Rattle.design_problem.specs.Boxes.{IsBox};
ghost use Rattle.least_total.specs.Rounds.{IsRound, IsTotalSought};

use crate::bounded::Bounded;
use cost_base::OutOfMemory;
use cost_branching::Begun;
use design_problem::{CostBox, CostList, Problem, Row, Tree, box_at, keeps_problem_on_graph};
use form_search::{FormPool, Found, search};
use rival_separation::Asker;
use std::alloc::Global;
use std::marker::Brand;
use wide_fraction::Limits;

/// What a search with a bound of the total found, and the forms that it knew: those of the rows, and that of the total
/// behind the first `before` of them, if it came.
#[derive(Drop)]
pub(crate) struct Sought {
    pub(crate) rows: Vec<Row>,
    pub(crate) before: Option<usize>,
    pub(crate) found: Found,
}

/// A tree over the forms of the rows and that of the total, which stands behind the first `before` of them, if it came.
#[derive(Drop)]
pub(crate) struct TotalTree {
    pub(crate) rows: Vec<Row>,
    pub(crate) before: Option<usize>,
    pub(crate) tree: Tree,
}

/// What a round finds.
#[derive(Drop)]
pub(crate) enum Round {
    /// Fit costs within the cap, whose total is at most the bound.
    Costs(CostList),
    /// There are none, as this closed tree shows.
    Refuted(TotalTree),
    /// The budget was used up by this tree.
    Undecided(TotalTree),
}

/// Searches a box for costs that are fit and whose total is at most `most`. No advisor is asked: the first candidate
/// for a split is taken.
fn search_within<B: Begun>(
    alloc: Global,
    problem: &Problem,
    costs: &CostBox,
    most: u32,
    limits: &Limits,
) -> Result<Sought, OutOfMemory>
    // The search begins with this problem, and without a row.
    requires problem { problem.now ≡ B.problem }
    requires begun { B.rows ≡ [] }

    // The box has costs from 1 on, and the bound of the total is below 2^26.
    requires ranges { IsBox (length problem.now.low) costs.now }
    requires lows { All (λ low. 1 ≤ low) costs.now.low }
    requires small { most < 2 ^ 26 }

    // What is found holds by the forms of the rows and that of the total, at its place.
    ensures { IfOk result (IsTotalSought problem.now limits.now.top limits.now.nodes most
        costs.now) }
{
    keeps_problem_on_graph(problem);
    let asker = Asker::new(alloc, &problem.graph, problem.requests.as_slice())?;
    let mut source = Bounded::<B>::new(alloc, problem, asker, most);
    let mut pool = FormPool::new(alloc);
    let mut advisors = Vec::new(alloc);
    let found = search(&mut source, costs, limits, &mut pool, &mut advisors)?;
    let (rows, before) = source.into_parts();
    Ok(Sought {
        rows,
        before,
        found,
    })
}

/// Searches the box at a cap for fit costs whose total is at most `most`.
///
/// # Errors
///
/// `OutOfMemory`.
pub(crate) fn one_round(
    alloc: Global,
    problem: &Problem,
    cap: u16,
    most: u32,
    limits: &Limits,
) -> Result<Round, OutOfMemory>
    requires cap { All (λ low. low ≤ cap) problem.now.low }
    requires small { most < 2 ^ 26 }
    ensures { IfOk result (IsRound problem.now limits.now.top limits.now.nodes cap most) }
{
    keeps_problem_on_graph(problem);
    let costs = box_at(alloc, problem, cap)?;
    let Sought {
        rows,
        before,
        found,
    } = search_within::<Brand>(alloc, problem, &costs, most, limits)?;
    match found {
        Found::Costs(costs) => Ok(Round::Costs(costs)),
        Found::Refuted(tree) => Ok(Round::Refuted(TotalTree { rows, before, tree })),
        Found::Undecided(tree) => Ok(Round::Undecided(TotalTree { rows, before, tree })),
    }
}
