//! Costs read back: a text of costs, each router's section put behind its configuration and read as configurations are.
#![tactic(auto)]

pub mod laws;
