//! Lines that are built word by word, and texts that are built line by line.
#![tactic(auto)]

mod line;
mod texts;

pub use line::LineBuilder;
pub use texts::{head_lines, push_count_line, push_line, push_quad};
