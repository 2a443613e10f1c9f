//! The commands on the way from the present costs to wanted ones: the fewest changes, and an order in which
//! they go live.
#![tactic(auto)]

mod change;
mod change_text;
mod changed_lines;
mod step_text;
mod steps;
mod wanted_moves;

pub use change::change_report;
pub use steps::{StepsWords, steps_report};
