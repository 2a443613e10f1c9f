//! A least conflict among the requests of a problem: wanted paths that can't stand together, but can without any one of
//! them.
//!
//! All requests are decided first. Where they can't stand together, one after the other is left out, and stays out
//! where the others can't stand together either.
#![tactic(auto)]

mod conflict;
mod deciding;
mod finding;
pub mod laws;
mod members;
mod shrinking;
mod telling;

pub use conflict::Conflict;
pub use finding::find_conflict;
pub use members::all_requests;
