//! Reading the files that hold a router's database: a file of LSAs, or a live file.
#![tactic(auto)]

mod laws;
mod live;
mod lsas;

pub use live::read_live_file;
pub use lsas::read_database;

/// The greatest length of a file of LSAs, and of a live file: 64 MiB.
const LONGEST_DATABASE: usize = 67_108_864;
