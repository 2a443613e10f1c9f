//! Distances to a target over simple paths, and the edges that tie for the next hop (RFC 2328, 16.1 and 16.8).
#![tactic(auto)]

mod aim;
mod heap;
mod next_hops;
mod room;
mod search;

pub use aim::Aim;
pub use next_hops::NextHops;
pub use room::Room;
