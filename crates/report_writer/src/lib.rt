//! What a command reports, a status and a text, with the lines that texts are made of, and the one writer of reports.
#![tactic(auto)]

mod lines;
mod rejection;
mod report;
mod writer;

pub use rejection::{Rejection, rejection_of};
pub use report::{Report, Text, report_of};
pub use writer::write_report;
