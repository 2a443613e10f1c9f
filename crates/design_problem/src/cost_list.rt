//! Lists of costs.
ghost use Rattle.std.specs.Prelude.{◌≡◌, ◌*◌, ◌≤◌, length};
ghost use Rattle.std.specs.List.{sum};
ghost use Rattle.design_problem.specs.Rows.{greatest_cost};

use std::marker::Model;

/// A cost for each variable. Contracts see the list of the costs.
#[derive(Drop)]
pub struct CostList {
    items: Vec<u16>,
}

impl Model for CostList {
    ghost use Rattle.std.specs.Prelude.{ℕ, List};

    ghost Value = { List ℕ };

    ghost view = { λ l. l.items.items };
}

impl CostList {
    /// The list of these costs.
    pub fn from_items(items: Vec<u16>) -> CostList
        ensures { result ≡ items.items }
    {
        CostList { items }
    }

    /// The costs, in the order of the variables.
    pub fn as_slice(&self) -> &[u16]
        ensures { result.now ≡ self.now }
    {
        self.items.as_slice()
    }
}

/// The greatest of some costs, and 0 where there is none.
pub fn greatest_of(costs: &[u16]) -> u16
    ensures { result ≡ greatest_cost costs.now }
{
    let mut greatest = 0;
    for cost in costs {
        greatest = greatest.max(*cost);
    }
    greatest
}

/// The sum of costs.
pub fn sum_of_costs(costs: &[u16]) -> u128
    ensures sum { result ≡ sum costs.now }
    ensures most { result ≤ 65535 * length costs.now }
{
    let mut total = 0u128;
    for cost in costs {
        total += u128::from(*cost);
    }
    total
}
