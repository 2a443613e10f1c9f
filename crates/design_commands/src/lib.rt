//! The commands that design costs: the smallest greatest cost, the least total, and a trial of a made network.
#![tactic(auto)]

mod cost_sum;
mod design;
mod total;
mod trial;
mod trial_files;
mod trial_line;

pub use design::design_report;
pub use total::total_report;
pub use trial::trial_report;
pub use trial_line::TrialNumbers;
