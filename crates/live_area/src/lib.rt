//! The running area beside its configurations: where they differ, and the area with the metrics of its links as costs.
#![tactic(auto)]

/// A line of a comparison.
#[derive(Clone, Copy, Debug, PartialEq, Eq)]
pub enum Difference {
    /// No router-LSA of the router ID of the configuration of this number counts.
    Absent {
        router: u32,
    },
    /// The link of the linked interface of this number has another metric than its present cost.
    Cost {
        link: u32,
        file: u16,
        live: u16,
    },
    /// The linked interface of this number has no link.
    Missing {
        link: u32,
    },
    /// No configuration has the router ID of this router-LSA.
    Stranger {
        router: u32,
    },
    /// A link of a router-LSA of this router ID, with this data, is that of no linked interface.
    Unknown {
        router: u32,
        address: u32,
        live: u16,
    },
    /// How many of the linked interfaces have a link with their present cost. It ends the lines.
    Same {
        same: u32,
        linked: u32,
    },
}

mod comparing;
mod interfaces;
mod links;
mod metrics;
mod routers;
mod running;

pub use comparing::compare;
pub use running::{RunningArea, running_area};
