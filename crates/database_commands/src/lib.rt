//! The commands on link state advertisements (LSAs): those of configurations (`lsas`), where those of the running area
//! differ from its configurations (`compare`), and a route in a file of them (`route`).
#![tactic(auto)]

mod compare;
mod differences;
mod hops;
mod identified;
mod lsas;
mod route;
mod routers;
mod vertices;

pub use compare::compare_report;
pub use lsas::lsas_report;
pub use route::route_report;
