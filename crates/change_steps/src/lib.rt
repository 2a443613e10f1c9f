//! An order of the steps of a rollout in which wanted paths stay the only cheapest ones.
#![tactic(auto)]

mod ending;
mod finding;
mod found;
mod held;
mod held_rollout;
mod kinds;
mod moves;
mod reach;
mod rollout;
mod state;
mod state_search;
mod tested;

pub use finding::find_steps;
pub use found::{Barrier, Blocked, Outcome, Steps, Stuck};
pub use moves::Moves;
