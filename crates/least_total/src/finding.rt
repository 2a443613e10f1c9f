//! The least total among the best costs.
ghost use Rattle.std.specs.Prelude.{◌≡◌, ℕ, IfOk, All, ◌≤◌};
ghost use Rattle.design_problem.specs.declared.answer.Verdict.TheVariants.{Optimal};
ghost use Rattle.design_problem.specs.Problems.{DesignProblem};
ghost use Rattle.design_problem.specs.Answers.{IsValid};
ghost use Rattle.least_total.specs.Results.{CanPrintTotals, IsTotalAnswer, ShowsLeastTotal};
ghost use Rattle.least_total.specs.Rounds.{IsKeptBelowTotal, IsNarrowed, IsTotalSoFar};

use crate::printing::{PrintedTotal, printed_total};
use crate::recosting::{costs_in, recosted};
use crate::rounds::{Round, TotalTree, one_round};
use crate::so_far::SoFar;
use cost_base::OutOfMemory;
use design_problem::{Answer, Problem, Row, Tree, greatest_of, keeps_problem_on_graph};
use std::alloc::Global;
use wide_fraction::Limits;

/// Why no best costs have a smaller total.
#[derive(Drop)]
pub enum TotalEvidence {
    /// It is the total of the lower bounds.
    Floor,
    /// A closed tree over the box at the answer's greatest cost, in which the form of the total has the bound `total -
    /// 1`. That form has the number behind those of the rows.
    Tree { rows: Vec<Row>, tree: Tree },
}

/// The costs of the least total that were found.
#[derive(Drop)]
pub enum Total {
    /// No best costs have a smaller total.
    Least {
        /// The answer with these costs.
        answer: Answer,
        /// Their total.
        total: u64,
        proof: TotalEvidence,
    },
    /// The budget was used up.
    Undecided {
        /// The answer with the best costs of the least total so far.
        answer: Answer,
        /// Their total.
        total: u64,
        /// The bound of the total at which the budget was used up.
        bound: u64,
        /// The rows of the tree that used it up. The form of the total has the number behind theirs.
        rows: Vec<Row>,
        tree: Tree,
    },
}

/// What the rounds come to: the costs so far, and, where the budget was used up, the bound and the tree of that round.
#[derive(Drop)]
pub(crate) struct Narrowed {
    pub(crate) so_far: SoFar,
    pub(crate) undecided: Option<(u32, TotalTree)>,
}

/// Runs rounds until none is left, or until one uses the budget up.
fn run_rounds(
    alloc: Global,
    problem: &Problem,
    cap: u16,
    limits: &Limits,
    so_far: SoFar,
) -> Result<Narrowed, OutOfMemory>
    requires cap { All (λ low. low ≤ cap) problem.now.low }
    requires so_far { IsTotalSoFar problem.now limits.now.top limits.now.nodes cap so_far }
    ensures { IfOk result (IsNarrowed problem.now limits.now.top limits.now.nodes cap) }
{
    keeps_problem_on_graph(problem);
    let mut so_far = so_far;
    while let Some(most) = so_far.next_bound() {
        match one_round(alloc, problem, cap, most, limits)? {
            Round::Costs(costs) => so_far = so_far.with_costs(costs),
            Round::Refuted(tree) => so_far = so_far.without(most, tree),
            Round::Undecided(tree) => {
                return Ok(Narrowed {
                    so_far,
                    undecided: Some((most, tree)),
                });
            }
        }
    }
    Ok(Narrowed {
        so_far,
        undecided: None,
    })
}

/// The proof that a kept tree is, or the floor where none is kept.
fn proof_of(alloc: Global, kept: Option<TotalTree>) -> Result<TotalEvidence, OutOfMemory>
    requires { (p : DesignProblem) × (top : ℕ) × (nodes : ℕ) × (cap : ℕ) × (least : ℕ) ×
        IsKeptBelowTotal p top nodes cap least kept }
    ensures { IfOk result (λ proof. (p : DesignProblem) (top nodes cap least : ℕ) →
        CanPrintTotals p nodes cap → IsKeptBelowTotal p top nodes cap least kept →
        ShowsLeastTotal p top nodes cap least proof) }
{
    match kept {
        None => Ok(TotalEvidence::Floor),
        Some(tree) => {
            let PrintedTotal { rows, tree } = printed_total(alloc, tree)?;
            Ok(TotalEvidence::Tree { rows, tree })
        }
    }
}

/// Looks for the best costs of the least total, from a valid optimal answer.
///
/// Where they are found, the answer with these costs is valid, and the proof is the floor or a closed earnest tree.
/// Where the budget is used up in a round, the answer has the best costs of the least total so far, and the tree of
/// that round is earnest and has an Undone and exactly `limits.nodes` entries. In both the trees stand over the box at
/// the answer's greatest cost.
///
/// # Errors
///
/// `OutOfMemory`.
pub fn least_total(
    alloc: Global,
    problem: &Problem,
    answer: Answer,
    limits: &Limits,
) -> Result<Total, OutOfMemory>
    requires valid { IsValid problem.now answer }
    requires optimal { (k : ℕ) × (answer.verdict ≡ Optimal k) }
    ensures { IfOk result (IsTotalAnswer problem.now limits.now.top limits.now.nodes answer) }
{
    keeps_problem_on_graph(problem);
    let costs = costs_in(alloc, problem, &answer)?;
    let cap = greatest_of(costs.as_slice());
    let so_far = SoFar::start(problem, costs);
    let Narrowed { so_far, undecided } = run_rounds(alloc, problem, cap, limits, so_far)?;
    let answer = recosted(alloc, problem, answer, &so_far.costs)?;
    let total = u64::from(so_far.total);
    match undecided {
        None => Ok(Total::Least {
            answer,
            total,
            proof: proof_of(alloc, so_far.kept)?,
        }),
        Some((most, tree)) => {
            let PrintedTotal { rows, tree } = printed_total(alloc, tree)?;
            Ok(Total::Undecided {
                answer,
                total,
                bound: u64::from(most),
                rows,
                tree,
            })
        }
    }
}
