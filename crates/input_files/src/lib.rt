//! Reading the files that words name, in their order, up to the first fault; and the network and the problem that they
//! make.
#![tactic(auto)]

mod layout;
mod network;
mod problem;
mod reading;
mod stop;

pub use layout::{Layout, read_layout};
pub use network::{Network, read_network};
pub use problem::{View, file_of, read_problem, resolution_at_present};
pub use reading::{ConfigText, FileWords, read_answer_file, read_config_text, read_file};
pub use stop::{FileFault, Stop, said_or_stop, stop_of};
