//! What a pivot in whole numbers turns: lines of 64-bit numbers, each over its own denominator.
//!
//! The numbers are small, so that no step is too wide. What a line stands for, the crates above say.
#![tactic(auto)]

mod bound_lines;
mod bounds;
mod choice;
mod first_lines;
mod leads;
mod line;
mod lowest;
mod marked;
mod multiples;
mod reciprocal;
mod shares;
mod turned_line;
mod uses;

pub use bound_lines::{put_signed_line, step};
pub use bounds::{CONSTANT_LIMIT, ENTRY_LIMIT, FACTOR_LIMIT, WEIGHT_LIMIT, greatest, within};
pub use choice::{keep_least, put_latest};
pub use first_lines::{no_turns, room_of, unit_leads, unit_lines, zero_line, zeros};
pub use leads::{put_leads, turn_leads};
pub use line::Line;
pub use lowest::Lowest;
pub use marked::MarkedNumbers;
pub use multiples::{clear, put_multiple};
pub use shares::{denominator_times, share_in, stays_within};
pub use turned_line::{Turn, common_multiple, put_touched, turn_of};
pub use uses::{Use, empty_uses, push_uses, put_uses, reserve_uses};
