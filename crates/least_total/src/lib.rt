//! The least total among the best costs: costs of the least greatest cost whose sum is the least, with a proof of it.
#![tactic(auto)]

mod bounded;
mod finding;
mod moving;
mod printing;
mod recosting;
mod rounds;
mod so_far;
mod totals;

pub use finding::{Total, TotalEvidence, least_total};
