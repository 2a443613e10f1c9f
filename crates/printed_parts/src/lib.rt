//! Parts that the texts of several commands share, put behind a text in memory.
#![tactic(auto)]

mod heads;
mod parts;

pub use heads::counted_head;
pub use parts::{
    at_greatest_bound, costs_by_name, keeps_greatest_bound, push_tree_at_greatest_bound,
};
