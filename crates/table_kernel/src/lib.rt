//! The kernel: the table of a box and of rows at a basis in 64-bit whole numbers, each line over its own denominator,
//! and the lexicographic dual simplex over it.
//!
//! It takes the same pivots as the table in fractions, and stops before a step that its bounds don't cover; then that
//! table takes over at the same basis.
#![tactic(auto)]

mod add_row;
mod choice;
mod constants;
mod corner;
mod kernel;
mod line;
mod lowest_turn;
mod moves;
mod multipliers;
mod pivot;
mod read_back;
mod restate;
mod settle;
mod start;

pub use kernel::{Kernel, OutOfRange};
pub use start::starting_kernel;
