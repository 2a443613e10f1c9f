//! The lines of an answer's text: which are lawful at a place, and what each says.
#![tactic(auto)]

mod entries;
mod heads;
mod other_text;
mod ratios;
mod rows;
mod text_left;
mod words;

pub use entries::{
    GREATEST_MULTIPLIER, GREATEST_ROW, GREATEST_VALUE, GREATEST_VAR, entry_of, member_of, part_of,
};
pub use heads::{floor_next, floor_of, rows_next, tree_head_of, verdict_next};
pub use other_text::OtherText;
pub use ratios::{GREATEST_SIZE, integer_of};
pub use rows::row_of;
pub use text_left::{LONGEST, TextLeft};
pub use words::{Pieces, after, name_after, number_after};
