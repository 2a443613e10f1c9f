//! What a search finds.
use design_problem::{CostList, Tree};

/// What a search over a box found.
#[derive(Drop)]
pub enum Found {
    /// Costs of the box that are accepted.
    Costs(CostList),
    /// No costs of the box are accepted, as this closed tree shows.
    Refuted(Tree),
    /// The budget was used up by this tree, which has boxes left that nothing is said of.
    Undecided(Tree),
}
