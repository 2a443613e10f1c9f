//! The commands on answers' files: a check against a problem, and a rewrite of a configuration.
#![tactic(auto)]

mod check;
mod own_lines;
mod rewrite;
mod verdict_lines;

pub use check::check_report;
pub use rewrite::rewrite_report;
