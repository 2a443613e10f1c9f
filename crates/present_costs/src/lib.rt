//! The present costs beside requests: which problem they make where each link has one, and the present cost
//! of each variable.
#![tactic(auto)]

mod beside;
mod links;
mod variables;

pub use beside::resolve_beside_present;
pub use links::{costs_of_links, priced_by_links};
pub use variables::{present_of_variables, price_of_link};
