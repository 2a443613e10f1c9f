//! The link state advertisements (LSAs) of configurations, written.
#![tactic(auto)]

mod designation;
mod ends;
mod pieces;
mod ranges;
mod said;
mod writing;

pub use ends::{LinkEnd, ends_of};
pub use said::CostedLinks;
pub use writing::lsas_of;
