//! The routers, interfaces and paths that the lines of a request file name, looked up in an area.
#![tactic(auto)]

mod fault;
mod lines;
mod names;
mod parts;
mod paths;
mod routes;

pub use fault::ResolutionFault;
pub use lines::resolve_lines;
pub use names::Names;
