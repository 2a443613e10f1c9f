//! What is found of the sets of a problem.
use cost_base::Listed;
use design_problem::{CostList, Tree};

/// A row of a set, which is named by the least number in it.
#[derive(Drop)]
pub enum SetRow {
    /// An outsider of a set: a simple path of the request that is no member. Its form is cost(outsider) - cost(first
    /// member) - 1. It is told as its edges, in their order; they start where the request's path starts.
    Outsider(u32, Listed<u32>),
    /// Two members of a set, I and J. Its form is cost(J) - cost(I).
    Same(u32, u32, u32),
}

/// What is found: costs under which the members of each set tie and every other path is dearer, or why there are none,
/// or that the budget was used up.
#[derive(Drop)]
pub enum Spread {
    /// Such costs, one for each variable.
    Fit(CostList),
    /// There are none.
    Impossible {
        /// The rows that the tree uses.
        rows: Vec<SetRow>,
        /// A closed tree over the box at the greatest bound.
        tree: Tree,
    },
    /// The budget was used up.
    Undecided {
        /// The rows that the tree uses.
        rows: Vec<SetRow>,
        /// The undecided tree over the box at the greatest bound.
        tree: Tree,
    },
}
