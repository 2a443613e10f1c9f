//! What is found of the conflicts among requests.
use cost_base::Listed;
use design_problem::{CostList, Row, Tree};

/// What is found of the conflicts among a problem's requests. Numbers of requests are the whole problem's, in rows too.
#[derive(Drop)]
pub enum Conflict {
    /// No conflict: these costs are fit for all requests.
    Fit {
        /// A cost for each variable.
        costs: CostList,
    },
    /// A least conflict.
    Least {
        /// The numbers of its requests, in rising order.
        members: Listed<u32>,
        /// The rows that the tree uses.
        rows: Listed<Row>,
        /// A closed tree over the box at the greatest bound.
        tree: Tree,
        /// For each member, in order, costs that are fit for the others.
        without: Listed<CostList>,
    },
    /// The budget was used up.
    Undecided {
        /// The requests at which it was used up, in rising order: all of them, or a conflict without one
        /// of its members.
        members: Listed<u32>,
        /// The rows that the tree uses.
        rows: Listed<Row>,
        /// The undecided tree over the box at the greatest bound.
        tree: Tree,
    },
}
