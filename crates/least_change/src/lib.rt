//! The fewest changes of present costs under which the wanted paths of a problem are the only cheapest ones.
//!
//! Some variables with present costs are a core where no fit costs keep all of them. So fit costs change a member of
//! each core, and a cover tree over some cores tells how many variables have to be changed at least. Cores are found
//! one after another, until costs are found that change no more.
#![tactic(auto)]

mod boxes;
mod change;
mod cores;
mod counting;
mod finding;
pub mod laws;
mod looking;
mod naming;
mod question;
mod round;
mod searching;
mod so_far;
mod telling;

pub use change::{Change, Core, Cores, CoverTree, KeptTree};
pub use core_covers::CoverEntry;
pub use counting::change_count;
pub use finding::find_change;
