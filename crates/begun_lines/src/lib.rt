//! Whether some lawful line of an answer's text begins with given bytes.
#![tactic(auto)]

mod begun;
mod entries;
mod fronts;
mod numbers;
mod other_text;
mod places;
mod ratios;
mod rows;

pub use entries::begins_entry;
pub use other_text::{
    begins_other_costs, begins_other_head, begins_other_section, begins_other_verdict,
    begins_sections_end,
};
pub use places::{
    begins_cost, begins_costs, begins_end, begins_exit, begins_floor, begins_head,
    begins_interface, begins_open, begins_proof, begins_rows, begins_section, begins_verdict,
    begins_wide,
};
pub use rows::begins_row;
