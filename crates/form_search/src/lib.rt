//! The search over a source of forms: sources and their contract, the pool of forms, the steps at one box, and the loop
//! over the boxes of a tree. The steps are bound propagation, the relaxation by the tableau that is kept with the pool,
//! a box of one point, and the variables at which a box may be split.
#![tactic(auto)]

mod at_box;
mod candidates;
mod costs_of_points;
mod desk;
mod found;
mod held_tableau;
mod one_point;
mod pool;
mod propagation;
mod relaxation;
mod searching;
mod source;
mod watch;

pub use found::Found;
pub use pool::FormPool;
pub use searching::search;
pub use source::{Asked, FormSource};
