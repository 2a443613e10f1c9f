//! The cheapest rival of a wanted path at a point: the test that separates a relaxed point from what it lacks.
#![tactic(auto)]

mod asker;
mod deviation;
mod outlook;
mod rival;
mod shared;
mod told;

pub use asker::Asker;
pub use deviation::{Deviation, better_by, onward};
pub use outlook::Outlook;
pub use rival::{Rival, cheapest_rival, find_distances, find_rival, least_lead, leave_by};
pub use shared::{Shared, prepare, sorted_numbers, target_of};
pub use told::{nothing_told, tell};
