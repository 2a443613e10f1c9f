//! The top call: from words and files to what is written, and what each status means.
#![tactic(auto)]

pub mod completeness;
mod dispatch;
mod exit_and_record;
mod top_call;

pub use exit_and_record::{recorded_run, run_to_exit};
pub use top_call::run;
