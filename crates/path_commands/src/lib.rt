//! The commands on wanted paths: how they stand, which of them conflict, and traffic spread over several of them.
#![tactic(auto)]

mod audit;
mod audit_live;
mod conflict;
mod conflict_text;
mod link_edges;
mod sets_file;
mod spread;
mod spread_text;

pub use audit::audit_report;
pub use audit_live::audit_live_report;
pub use conflict::conflict_report;
pub use spread::spread_report;
