//! Laws about what is found: each is the contract of a function that does nothing.
ghost use Rattle.least_conflict.specs.Laws.{ConflictSettlesIfSufficient, ConflictSufficientIfLarge};

/// Where no tree uses the budget up, fit costs or a least conflict are found.
pub fn sufficient_budgets_settle()
    ensures { ConflictSettlesIfSufficient }
{}

/// No tree uses up a budget of twice as many entries as the box at the greatest bound has points, less one.
pub fn large_budgets_suffice()
    ensures { ConflictSufficientIfLarge }
{}
