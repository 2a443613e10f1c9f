//! The cheapest simple path of a request that is none of several wanted ones, which cost the same: each such path
//! leaves the tree of the wanted paths' common prefixes at some place.
#![tactic(auto)]

mod deviation;
mod outsider;
mod prefix_tree;

pub use outsider::{find_outsider, find_outsider_at_hand, paths_lead};
pub use prefix_tree::{PrefixTree, Step};
