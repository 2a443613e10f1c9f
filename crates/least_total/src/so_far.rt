//! What is known of the least total while rounds are run.
ghost use Rattle.std.specs.Prelude.{◌≡◌, ℕ, ◌+◌, ◌^◌, ◌<◌, ◌≤◌, length, IfOk, IfSome, None};
ghost use Rattle.design_problem.specs.Problems.{DesignProblem, IsProblem};
ghost use Rattle.least_total.specs.Totals.{total};
ghost use Rattle.least_total.specs.Rounds.{IsFitWithin, IsRefutedWithin, IsTotalSoFar};

use crate::rounds::TotalTree;
use crate::totals::total_of;
use design_problem::{CostList, Problem, keeps_problem_on_graph};

/// The costs of the least total so far, and between which ends the least total lies.
#[derive(Drop)]
pub(crate) struct SoFar {
    /// Fit costs within the cap.
    pub(crate) costs: CostList,
    /// Their total.
    pub(crate) total: u32,
    /// No fit costs within the cap have a smaller total.
    pub(crate) least: u32,
    /// The closed tree at the bound `least - 1`; none is needed where `least` is the total of the lower bounds.
    pub(crate) kept: Option<TotalTree>,
}

impl SoFar {
    /// Before the first round: only the lower bounds are known.
    pub(crate) fn start(problem: &Problem, costs: CostList) -> SoFar
        requires { length costs ≡ length problem.now.low }
        ensures { (top nodes cap : ℕ) → IsFitWithin problem.now cap costs →
            IsTotalSoFar problem.now top nodes cap result }
    {
        keeps_problem_on_graph(problem);
        SoFar {
            total: total_of(costs.as_slice()),
            least: total_of(problem.low.as_slice()),
            costs,
            kept: None,
        }
    }

    /// The bound of the next round, if one is left: in the middle between the greatest that was refuted and the total.
    pub(crate) fn next_bound(&self) -> Option<u32>
        // The total is that of at most 1,000 costs of 16 bits, so it is below `FAR` of
        // `area_graph`.
        requires { self.now.total < 2 ^ 26 }
        ensures within { IfSome result (λ most. (self.now.least ≤ most) × (most < self.now.total)) }
        ensures ended { result ≡ None → self.now.total ≤ self.now.least }
    {
        if self.least < self.total {
            Some((self.least + self.total - 1) / 2)
        } else {
            None
        }
    }

    /// After a round that found costs.
    pub(crate) fn with_costs(self, costs: CostList) -> SoFar
        requires { length costs ≤ 1000 }
        ensures holds { (p : DesignProblem) (top nodes cap : ℕ) → IsProblem p →
            IsTotalSoFar p top nodes cap self → IsFitWithin p cap costs →
            IsTotalSoFar p top nodes cap result }
        ensures least { result.least ≡ self.least }
        ensures total { result.total ≡ total costs }
    {
        SoFar {
            total: total_of(costs.as_slice()),
            least: self.least,
            costs,
            kept: self.kept,
        }
    }

    /// After a round at a bound that was refuted.
    pub(crate) fn without(self, most: u32, tree: TotalTree) -> SoFar
        requires below { most < self.total }
        requires above { self.least ≤ most }
        ensures holds { (p : DesignProblem) (top nodes cap : ℕ) → IsTotalSoFar p top nodes cap self
            → IsRefutedWithin p top nodes cap most tree → IsTotalSoFar p top nodes cap result }
        ensures least { result.least ≡ most + 1 }
        ensures total { result.total ≡ self.total }
    {
        SoFar {
            least: most + 1,
            kept: Some(tree),
            total: self.total,
            costs: self.costs,
        }
    }
}
