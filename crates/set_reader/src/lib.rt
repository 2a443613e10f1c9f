//! The file of sets: which wanted paths are to share traffic.
#![tactic(auto)]

mod fault;
mod reading;
mod sets;

pub use fault::SetFault;
pub use reading::read_sets;
pub use sets::Sets;
