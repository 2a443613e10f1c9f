//! Laws about sets, their rows and what is found: each is the contract of a function that does nothing.
ghost use Rattle.spread_sets.specs.Laws.{CheapestAreMembers, SpreadMeansMet, SpreadSettlesIfSufficient, SpreadSufficientIfLarge};

/// Costs within the bounds are spread-fit exactly where the forms of all rows of the sets are at least 0.
pub fn spread_means_met()
    ensures { SpreadMeansMet }
{}

/// Under spread-fit costs the cheapest simple paths of a set's request are exactly the members.
pub fn cheapest_are_members()
    ensures { CheapestAreMembers }
{}

/// Where no tree uses the budget up, such costs are found, or that there are none.
pub fn sufficient_budgets_settle()
    ensures { SpreadSettlesIfSufficient }
{}

/// No tree uses up a budget of twice as many entries as the box at the greatest bound has points, less one.
pub fn large_budgets_suffice()
    ensures { SpreadSufficientIfLarge }
{}
