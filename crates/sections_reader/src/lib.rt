//! Reading the costs of a text: an answer's, or what `total`, `spread` or `change` writes. Laws of these texts, each
//! the contract of a function that does nothing, stand in `laws`.
#![tactic(auto)]

mod costs;
mod fault;
mod heads;
pub mod laws;
mod reader;
mod unread;
mod whose_text;

pub use fault::CostsFault;
pub use reader::read_costs;
