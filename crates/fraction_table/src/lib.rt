//! The table of a box of costs and rows in checked fractions, and the lexicographic dual simplex over it.
//!
//! Pivots keep the equations of forms, columns stay lexicographically positive, constants rise, a refuting form
//! refutes, a corner is least: this theory stands in `proofs`.
#![tactic(auto)]

mod add_row;
mod choice;
mod corners;
mod fit;
mod moves;
mod multipliers;
mod restart;
mod settle;
mod shortest;
mod stage;
mod start;
mod table;

pub use add_row::{BlankLine, corner_value};
pub use fit::{fit_box, fits_box, is_box};
pub use moves::column_of;
pub use multipliers::{put_fraction, put_negated, whole_multipliers};
pub use shortest::shorter_row;
pub use stage::{SimplexStop, Solved, Stage};
pub use start::{range_of, starting_table};
pub use table::Table;
