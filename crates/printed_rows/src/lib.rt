//! Rows, trees and costs as they are printed.
//!
//! Of the rows that a search knew those are printed that a tree over them names, in their order, and the tree names
//! them by their new numbers. Costs are printed with the names of the free interfaces whose variables they are.
#![tactic(auto)]

mod cost_lines;
mod new_numbers;
mod printing;
mod row_marks;

pub use cost_lines::printed_costs;
pub use new_numbers::{marked_rows, new_numbers as numbers_of_marked, renumbered_entry};
pub use printing::{PrintedForest, PrintedTree, PrintedTrees, printed, printed_all, printed_both};
