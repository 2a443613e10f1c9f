//! Reading the text of an answer, stage by stage. A text that is no answer's is refused by its first fault. The laws of
//! answers' texts, each the contract of a function that does nothing, stand in `laws`.
#![tactic(auto)]

mod fault;
mod faults;
pub mod laws;
mod reader;
mod stage_costs;
mod stage_end;
mod stage_head;
mod stage_rows;
mod stage_sections;
mod stage_trees;

pub use fault::AnswerFault;
pub use faults::{fault_at, nothing_left};
pub use reader::read_answer;
pub use stage_head::answer_head;
pub use stage_sections::{Sections, read_sections};
