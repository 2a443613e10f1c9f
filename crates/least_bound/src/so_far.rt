//! What is known of the least greatest cost while caps are decided.
ghost use Rattle.std.specs.Prelude.{◌≡◌, ℕ, ◌+◌, ◌-◌, ◌<◌, ◌≤◌, max, IfSome, None};
ghost use Rattle.design_problem.specs.Problems.{DesignProblem, IsProblem};
ghost use Rattle.design_problem.specs.Rows.{greatest_cost};
ghost use Rattle.cost_branching.specs.Pools.{Pooled, IsRowPool, MoreRows};
ghost use Rattle.cost_branching.specs.Decisions.{IsDecided};
ghost use Rattle.least_bound.specs.AdvisorsAsked.{after_cap, cap_between, climbed_cap, halved_cap, undecided_after};
ghost use Rattle.least_bound.specs.Caps.{AreCapsDone, BestHolds, IsBoundSoFar, IsUndecidedAt, caps_of, known_costs, undecided_of};

use cost_branching::Found;
use design_problem::{CapTree, CostList, Problem, Tree, greatest_of};

/// The best that the caps so far have come to.
#[derive(Drop)]
pub(crate) enum Best {
    /// No costs yet: at the greatest bound this tree used the budget up.
    NoCosts(CapTree),
    /// Costs, whose greatest cost is the least cap that was decided without a refutation.
    Costs(CostList),
    /// Costs, and the tree that used the budget up at a cap below their greatest cost.
    Between(CostList, CapTree),
}

/// Where the least greatest cost lies, as far as the decided caps tell.
#[derive(Drop)]
pub(crate) struct SoFar {
    /// The lowest cap: the greatest of the lower bounds.
    pub(crate) lowest_cap: u16,
    /// No fit costs have a smaller greatest cost.
    pub(crate) least: u16,
    /// The least cap that wasn't refuted; where costs were found there, their greatest cost.
    pub(crate) most: u16,
    /// The closed tree at the cap `least - 1`; none is needed where `least` is the lowest cap.
    pub(crate) kept: Option<CapTree>,
    /// What stands at the cap `most`.
    pub(crate) best: Best,
}

/// The cap in the middle, rounded down, of those from `least - 1` to `most`.
fn halved_cap(least: u16, most: u16) -> Option<u16>
    ensures rule { result ≡ halved_cap least most }
    ensures within { IfSome result (λ cap. (least ≤ cap) × (cap < most)) }
    ensures ended { result ≡ None → most ≤ least }
{
    if least < most {
        let sum = u32::from(least) + u32::from(most);
        Some(((sum - 1) / 2) as u16)
    } else {
        None
    }
}

/// The next cap of a climb from the lowest one, whose steps grow twofold: none where the greatest refuted cap, or the
/// lowest cap, is next to `most`.
fn climbed_cap(lowest_cap: u16, least: u16, most: u16) -> Option<u16>
    requires { lowest_cap ≤ least }
    ensures rule { result ≡ climbed_cap lowest_cap (max (least - 1) lowest_cap) most }
    ensures within { IfSome result (λ cap. (least ≤ cap) × (cap < most)) }
    ensures ended { result ≡ None → least < most → most ≤ lowest_cap + 1 }
{
    let passed = u32::from(least.saturating_sub(1).max(lowest_cap));
    let end = u32::from(most);
    if passed + 1 < end {
        let middle = (passed + end) / 2;
        let twofold = 2 * passed - u32::from(lowest_cap) + 1;
        Some(middle.min(twofold) as u16)
    } else {
        None
    }
}

impl Best {
    /// Where the budget was used up at a further cap: with costs this tree stands there.
    fn undecided_at(self, undecided: CapTree) -> Best
        ensures holds { (p : DesignProblem) (top nodes : ℕ) (old new : Pooled) (most : ℕ) →
            BestHolds p top nodes old most self → MoreRows old new →
            IsUndecidedAt p top nodes new undecided → undecided.cap < most →
            BestHolds p top nodes new undecided.cap result }
        ensures costs { known_costs result ≡ known_costs self }
        ensures undecided { undecided_of result ≡ undecided_after (known_costs self)
            (undecided_of self) undecided }
    {
        match self {
            Best::NoCosts(tree) => Best::NoCosts(tree),
            Best::Costs(costs) => Best::Between(costs, undecided),
            Best::Between(costs, _) => Best::Between(costs, undecided),
        }
    }
}

impl SoFar {
    /// After the greatest bound was decided.
    pub(crate) fn start(problem: &Problem, most: u16, best: Best) -> SoFar
        requires { greatest_cost problem.now.low ≤ most }
        ensures holds { (top nodes : ℕ) (pool : Pooled) →
            BestHolds problem.now top nodes pool most best →
            IsBoundSoFar problem.now top nodes pool result }
        ensures caps { caps_of result ≡ record {
          least = greatest_cost problem.now.low;
          most = most;
          costs = known_costs best;
          refuted = None;
          undecided = undecided_of best;
        } }
    {
        let lowest_cap = greatest_of(problem.low.as_slice());
        SoFar {
            lowest_cap,
            least: lowest_cap,
            most,
            kept: None,
            best,
        }
    }

    /// The next cap to decide, if one is left.
    pub(crate) fn next_cap(&self) -> Option<u16>
        requires { self.now.lowest_cap ≤ self.now.least }
        ensures rule { result ≡ cap_between self.now.lowest_cap self.now.least self.now.most
            (known_costs self.now.best) }
        ensures within { IfSome result (λ cap. (self.now.least ≤ cap) × (cap < self.now.most)) }
        ensures ended { result ≡ None → AreCapsDone self.now.lowest_cap self.now.least self.now.most
            self.now.best }
    {
        match &self.best {
            Best::NoCosts(_) => climbed_cap(self.lowest_cap, self.least, self.most),
            Best::Costs(_) | Best::Between(_, _) => halved_cap(self.least, self.most),
        }
    }

    /// After a further cap was decided.
    pub(crate) fn after(self, cap: u16, found: Found) -> SoFar
        requires from_least { self.least ≤ cap }
        requires below_most { cap < self.most }
        ensures holds { (p : DesignProblem) (top nodes : ℕ) (old new : Pooled) → IsProblem p →
            IsRowPool p new → MoreRows old new → IsBoundSoFar p top nodes old self →
            IsDecided p top nodes cap new found → IsBoundSoFar p top nodes new result }
        ensures caps { caps_of result ≡ after_cap (caps_of self) cap found }
        ensures nearer { (p : DesignProblem) (top nodes : ℕ) (pool : Pooled) →
            IsDecided p top nodes cap pool found → result.most + self.least <
            self.most + result.least }
    {
        let SoFar {
            lowest_cap,
            least,
            most,
            kept,
            best,
        } = self;
        match found {
            Found::Costs(costs) => SoFar {
                lowest_cap,
                least,
                most: greatest_of(costs.as_slice()),
                kept,
                best: Best::Costs(costs),
            },
            Found::Refuted(tree) => SoFar {
                lowest_cap,
                least: cap + 1,
                most,
                kept: Some(CapTree { cap, tree }),
                best,
            },
            Found::Undecided(tree) => SoFar {
                lowest_cap,
                least,
                most: cap,
                kept,
                best: best.undecided_at(CapTree { cap, tree }),
            },
        }
    }
}
