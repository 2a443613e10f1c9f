//! An answer with other costs.
ghost use Rattle.std.specs.Prelude.{◌≡◌, ℕ, length, IfOk};
ghost use Rattle.design_problem.specs.declared.answer.Verdict.TheVariants.{Optimal};
ghost use Rattle.design_problem.specs.Rows.{greatest_cost};
ghost use Rattle.design_problem.specs.Answers.{IsValid};
ghost use Rattle.least_total.specs.Rounds.{IsFitWithin};
ghost use Rattle.least_total.specs.Results.{IsRecosted};
ghost use Rattle.least_total.specs.Given.{AreGiven};

use cost_base::OutOfMemory;
use design_problem::{Answer, CostList, Problem, costs_given, keeps_problem_on_graph, lines_in};
use printed_rows::printed_costs;
use std::alloc::Global;

/// The costs that a valid optimal answer gives the variables.
///
/// # Errors
///
/// `OutOfMemory`.
pub(crate) fn costs_in(
    alloc: Global,
    problem: &Problem,
    answer: &Answer,
) -> Result<CostList, OutOfMemory>
    requires valid { IsValid problem.now answer.now }
    requires optimal { (k : ℕ) × (answer.now.verdict ≡ Optimal k) }
    ensures { IfOk result (AreGiven problem.now answer.now) }
{
    keeps_problem_on_graph(problem);
    let count = problem.low.as_slice().len();
    let lines = lines_in(&answer.costs);
    let costs = costs_given(alloc, count, problem.vars.as_slice(), lines)?;
    Ok(CostList::from_items(costs))
}

/// A valid optimal answer with other costs of its greatest cost.
///
/// # Errors
///
/// `OutOfMemory`.
pub(crate) fn recosted(
    alloc: Global,
    problem: &Problem,
    answer: Answer,
    costs: &CostList,
) -> Result<Answer, OutOfMemory>
    requires valid { IsValid problem.now answer }
    requires optimal { (k : ℕ) × (answer.verdict ≡ Optimal k) × IsFitWithin problem.now k
        costs.now }
    ensures { IfOk result (λ new. IsRecosted problem.now answer new costs.now) }
{
    keeps_problem_on_graph(problem);
    let costs = printed_costs(alloc, problem, costs.as_slice())?;
    let Answer {
        verdict,
        costs: _,
        floor,
        rows,
        proof,
        undecided,
    } = answer;
    Ok(Answer {
        verdict,
        costs: Some(costs),
        floor,
        rows,
        proof,
        undecided,
    })
}
