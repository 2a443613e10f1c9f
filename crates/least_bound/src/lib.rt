//! The least cap at which a problem has fit costs, with its evidence.
//!
//! Caps are decided one by one: the greatest bound first, then caps between the greatest one that was refuted and
//! the least one that wasn't.
#![tactic(auto)]

mod answering;
mod floor;
mod least_cap;
mod so_far;

pub use least_cap::least;
