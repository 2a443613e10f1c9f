//! Reading a live file, a router's own database, as JSON or as LSA bytes: what it says of an area, or its first fault.
#![tactic(auto)]

mod fault;
mod fields;
mod heads;
mod links;
mod lsas;
mod reader;
mod text;
mod tree;
mod walk;

pub use fault::LiveFault;
pub use reader::read_live;
