//! Bound propagation: a form alone makes the range of a variable smaller.
#![tactic(auto)]

mod range;
mod tightening;

pub use tightening::{tighten, tighten_within};
