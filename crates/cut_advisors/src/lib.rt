//! Advisors, who pick the variable at which a box is cut.
//!
//! An advisor is asked and told, and keeps a state. Whatever it answers, a search stays sound: an advisor that answers
//! out of range is removed.
#![tactic(auto)]

mod advisor;
mod candidate;
mod choosing;
mod progress;
mod smallest_number;
mod widest_first;

pub use advisor::Advisor;
pub use candidate::Candidate;
pub use choosing::{choose, tell};
pub use progress::Progress;
pub use smallest_number::SmallestNumber;
pub use widest_first::WidestFirst;
