//! Costs under which the cheapest paths between two ends are exactly the wanted ones: sets of wanted paths that tie,
//! and all other paths dearer.
//!
//! The search runs over two kinds of forms: those of outsiders of the sets, and those that keep the members of a set at
//! one cost.
#![tactic(auto)]

mod finding;
pub mod laws;
mod line_numbers;
mod member_sets;
mod row_forms;
mod set_asker;
mod source;
mod spread;

pub use finding::find_spread;
pub use spread::{SetRow, Spread};
