//! Sparse lines of checked fractions: sums of lines, and the part of each line in a pivot.
#![tactic(auto)]

mod entries;
mod marks;
mod sum;
mod table_line;
mod turned_line;

pub use sum::{sum_at, sum_lines};
pub use table_line::TableLine;
pub use turned_line::{PivotColumn, take_quotients, turn_lines};
