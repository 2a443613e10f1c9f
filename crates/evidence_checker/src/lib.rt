//! A checker of answers: whoever made an answer isn't trusted, and no call of a solver is used.
#![tactic(auto)]

mod accepted;
mod checker;
mod cost_tests;
mod costs;
mod fault;
mod lines;
mod paths;
mod problem_parts;
mod products;
mod rows;
mod shape;
mod sums;
mod tree;

pub use accepted::Accepted;
pub use checker::check;
pub use fault::CheckFault;
