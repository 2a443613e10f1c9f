//! Answers to a problem, by what the decided caps have come to.
ghost use Rattle.std.specs.Prelude.{◌≡◌, ℕ, ◌≤◌, IfOk, IfSome, None, Some};
ghost use Rattle.std.specs.Option.{option_copied};
ghost use Rattle.design_problem.specs.Rows.{IsFit, greatest_cost};
ghost use Rattle.design_problem.specs.Answers.{greatest_bound};
ghost use Rattle.printed_rows.specs.PrintedCosts.{ArePrintedCosts};
ghost use Rattle.cost_branching.specs.Pools.{IsRowPool};
ghost use Rattle.least_bound.specs.Answered.{IsDesignAnswer};
ghost use Rattle.least_bound.specs.AdvisorsAsked.{TellsCaps, TellsFound};
ghost use Rattle.least_bound.specs.Caps.{caps_of, IsKeptAt, IsTreeKeptBelow, IsBoundSoFar, AreCapsDone, IsRefuted, IsUndecidedAt, CostsFound};
ghost use Rattle.least_bound.specs.Printing.{ArePrintedIfAny, IsFloorFor};

use crate::floor::floor_of;
use crate::so_far::{Best, SoFar};
use cost_base::OutOfMemory;
use cost_branching::Pool;
use design_problem::{
    Answer, CapTree, CostList, Costs, Floor, Problem, Tree, Verdict, keeps_problem_on_graph,
};
use printed_rows::{printed_both, printed_costs};
use std::alloc::Global;

/// That no costs are fit, with the closed tree at the greatest bound.
pub(crate) fn impossible(
    problem: &Problem,
    pool: Pool,
    cap: u16,
    tree: Tree,
) -> Result<Answer, OutOfMemory>
    requires pool { IsRowPool problem.now pool }
    requires cap { cap ≡ greatest_bound problem.now }
    requires refuted { (top : ℕ) × (nodes : ℕ) × (nodes ≤ 10000000) ×
        IsRefuted problem.now top nodes pool (record { cap = cap; tree = tree }) }
    ensures answered { (top nodes : ℕ) → IsRefuted problem.now top nodes pool
        (record { cap = cap; tree = tree }) → IfOk result
        (IsDesignAnswer problem.now top nodes) }
    ensures tells { IfOk result (TellsFound problem.now None
        (Some (record { cap = cap; tree = tree })) None) }
{
    keeps_problem_on_graph(problem);
    let alloc = pool.alloc();
    let proof = CapTree { cap, tree };
    let printed = printed_both(alloc, pool.into_rows(), Some(&proof), None)?;
    Ok(Answer {
        verdict: Verdict::Impossible,
        costs: None,
        floor: Floor::Absent,
        rows: printed.rows,
        proof: printed.proof,
        undecided: printed.undecided,
    })
}

/// A floor, unless a tree is kept.
fn floor_without(problem: &Problem, kept: &Option<CapTree>) -> Floor
    ensures { IsFloorFor problem.now kept.now result }
{
    match kept {
        Some(_) => Floor::Absent,
        None => floor_of(problem.low.as_slice()),
    }
}

/// Costs of the least greatest cost, with the closed tree that is kept at the cap below it; without one with a floor.
fn optimal(
    problem: &Problem,
    pool: Pool,
    costs: &CostList,
    kept: Option<CapTree>,
) -> Result<Answer, OutOfMemory>
    requires pool { IsRowPool problem.now pool }
    requires fit { IsFit problem.now costs.now }
    requires kept { (top : ℕ) × (nodes : ℕ) × (nodes ≤ 10000000) ×
        IsKeptAt problem.now top nodes pool (greatest_cost costs.now) kept }
    ensures answered { (top nodes : ℕ) →
        IsKeptAt problem.now top nodes pool (greatest_cost costs.now) kept →
        IfOk result (IsDesignAnswer problem.now top nodes) }
    ensures tells { IfOk result (TellsFound problem.now (Some costs.now) kept None) }
{
    keeps_problem_on_graph(problem);
    let alloc = pool.alloc();
    let floor = floor_without(problem, &kept);
    let printed = printed_both(alloc, pool.into_rows(), kept.as_ref(), None)?;
    let costs = printed_fit(alloc, problem, costs)?;
    Ok(Answer {
        verdict: Verdict::Optimal(costs.greatest),
        costs: Some(costs),
        floor,
        rows: printed.rows,
        proof: printed.proof,
        undecided: printed.undecided,
    })
}

/// Fit costs as they are printed.
fn printed_fit(alloc: Global, problem: &Problem, costs: &CostList) -> Result<Costs, OutOfMemory>
    requires { IsFit problem.now costs.now }
    ensures { IfOk result (ArePrintedCosts problem.now costs.now) }
{
    keeps_problem_on_graph(problem);
    printed_costs(alloc, problem, costs.as_slice())
}

/// The costs as they are printed, if there are some.
fn printed_if_any(
    alloc: Global,
    problem: &Problem,
    costs: Option<&CostList>,
) -> Result<Option<Costs>, OutOfMemory>
    requires { IfSome (option_copied costs) (λ w. IsFit problem.now w) }
    ensures { IfOk result (ArePrintedIfAny problem.now (option_copied costs.entry)) }
{
    match costs {
        Some(costs) => Ok(Some(printed_fit(alloc, problem, costs)?)),
        None => Ok(None),
    }
}

/// The cap of a tree. For the prover: a call, so that the caller's goals have this part alone.
fn cap_of(tree: &CapTree) -> u16
    ensures { result ≡ tree.now.cap }
{
    tree.cap
}

/// That the budget was used up at the cap of the undecided tree, with the best costs and the kept tree, where there
/// are such.
fn undecided(
    problem: &Problem,
    pool: Pool,
    costs: Option<&CostList>,
    kept: Option<CapTree>,
    undecided: CapTree,
) -> Result<Answer, OutOfMemory>
    // The undecided tree stands at a cap from the greatest lower bound on: without costs at the
    // greatest bound, with costs below their greatest. The kept one is closed below that cap.
    requires pool { IsRowPool problem.now pool }
    requires from_lowest_cap { greatest_cost problem.now.low ≤ undecided.cap }
    requires costs { CostsFound problem.now undecided.cap (option_copied costs) }
    requires trees { (top : ℕ) × (nodes : ℕ) × (nodes ≤ 10000000) ×
        IsTreeKeptBelow problem.now top nodes pool undecided.cap kept ×
        IsUndecidedAt problem.now top nodes pool undecided }

    // The answer is one of `design` within the limits of these trees, and tells what was found.
    ensures answered { (top nodes : ℕ) →
        IsTreeKeptBelow problem.now top nodes pool undecided.cap kept →
        IsUndecidedAt problem.now top nodes pool undecided →
        IfOk result (IsDesignAnswer problem.now top nodes) }
    ensures tells { IfOk result (TellsFound problem.now (option_copied costs.entry) kept
        (Some undecided)) }
{
    keeps_problem_on_graph(problem);
    let alloc = pool.alloc();
    let cap = cap_of(&undecided);
    let printed = printed_both(alloc, pool.into_rows(), kept.as_ref(), Some(&undecided))?;
    Ok(Answer {
        verdict: Verdict::Undecided(cap),
        costs: printed_if_any(alloc, problem, costs)?,
        floor: Floor::Absent,
        rows: printed.rows,
        proof: printed.proof,
        undecided: printed.undecided,
    })
}

impl SoFar {
    /// The answer once no cap is left.
    pub(crate) fn answer(self, problem: &Problem, pool: Pool) -> Result<Answer, OutOfMemory>
        requires pool { IsRowPool problem.now pool }
        requires ended { AreCapsDone self.lowest_cap self.least self.most self.best }
        requires so_far { (top : ℕ) × (nodes : ℕ) × (nodes ≤ 10000000) ×
            IsBoundSoFar problem.now top nodes pool self }
        ensures answered { (top nodes : ℕ) → IsBoundSoFar problem.now top nodes pool self →
            IfOk result (IsDesignAnswer problem.now top nodes) }
        ensures tells { IfOk result (TellsCaps problem.now (caps_of self)) }
    {
        let SoFar { kept, best, .. } = self;
        match best {
            Best::NoCosts(tree) => undecided(problem, pool, None, kept, tree),
            Best::Costs(costs) => optimal(problem, pool, &costs, kept),
            Best::Between(costs, tree) => undecided(problem, pool, Some(&costs), kept, tree),
        }
    }
}
