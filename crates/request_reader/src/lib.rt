//! The request file: what its lines ask for.
#![tactic(auto)]

mod fault;
mod hops;
mod reading;

use cost_base::{Listed, Name};
pub use fault::RequestFault;
pub use hops::Hops;
pub use reading::read_request_file;
use std::marker::Model;

/// What a wanted path excludes.
#[derive(Drop)]
pub enum Excluded {
    /// The router of a name: each edge into or out of it.
    Router(Name),
    /// The link of an interface, in both directions: the router's name, and the interface's.
    Interface(Name, Name),
}

/// What a line of a request file asks for.
#[derive(Drop)]
pub enum Directive {
    /// Every linked interface becomes free: the least cost, and the greatest.
    FreeAll(u16, u16),
    /// An interface becomes free: its router, its name, the least cost, and the greatest.
    Free(Name, Name, u16, u16),
    /// An interface becomes fixed: its router, and its name.
    Fix(Name, Name),
    /// A path is wanted: its hops, and what it excludes.
    Path(Hops, Listed<Excluded>),
    /// The two ends of each point-to-point link have one cost where both are free.
    SymmetricAll,
    /// The two ends of the link of an interface have one cost where both are free: its router, and its name.
    Symmetric(Name, Name),
}

/// A line of a request file that asks for something.
#[derive(Drop)]
pub struct DirectiveLine {
    /// The line's number, from 1.
    pub line: u32,
    /// What the line asks for.
    pub what: Directive,
}

/// What a request file asks for. Kept: 1 <= least <= greatest in each `free` line, a default cost isn't 0, and there
/// are at most 10,000 paths.
#[derive(Drop)]
pub struct RequestFile {
    /// The area that the network is read in.
    pub area: u32,
    /// The present cost of an interface that has none, where one is given.
    pub default_cost: Option<u16>,
    /// What the lines ask for, in their order.
    pub items: Listed<DirectiveLine>,
}

impl Model for RequestFile {
    ghost use Rattle.request_reader.specs.Asked.{Asked, IsAsked};

    ghost Value = { Asked };

    ghost view = { λ r. record { area = r.area; default_cost = r.default_cost; items = r.items } };

    ghost invariant = { λ r. IsAsked (record {
      area = r.area;
      default_cost = r.default_cost;
      items = r.items;
    }) };
}
