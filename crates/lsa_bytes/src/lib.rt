//! Link state advertisements (LSAs) as bytes, and the graph that they make.
#![tactic(auto)]

ghost use Rattle.std.specs.Prelude.{◌≡◌};
ghost use Rattle.lsa_bytes.specs.Databases.{IsLsaDatabase};

use cost_base::Listed;
use std::marker::Model;

/// The type of a link to another router, point-to-point (RFC 2328, A.4.2).
pub const POINT_TO_POINT_LINK: u8 = 1;

/// The type of a link into a transit network (RFC 2328, A.4.2).
pub const TRANSIT_LINK: u8 = 2;

/// The type of a router-LSA (RFC 2328, A.4.1).
pub const ROUTER_LSA: u8 = 1;

/// The type of a network-LSA (RFC 2328, A.4.1).
pub const NETWORK_LSA: u8 = 2;

/// A link of a router-LSA (RFC 2328, A.4.2).
#[derive(Clone, Copy, Debug, PartialEq, Eq)]
pub struct LsaLink {
    /// The link ID: the neighbour's router ID for type 1, the designated router's address for type 2.
    pub id: u32,
    /// The link data: the address of the router's own interface for types 1 and 2.
    pub address: u32,
    /// The type: 1 leads to another router, 2 into a transit network, 3 into a stub network, 4 is a virtual link.
    pub kind: u8,
    /// The metric, above 0 for types 1 and 2 in a database.
    pub metric: u16,
}

/// What stands behind the header of an LSA.
#[derive(Drop)]
pub enum Body {
    /// The links of a router-LSA, in order.
    Links(Listed<LsaLink>),
    /// The router IDs of the routers that a network-LSA lists as attached, in order (RFC 2328, A.4.3).
    Attached(Listed<u32>),
}

/// A router-LSA or a network-LSA.
#[derive(Drop)]
pub struct Lsa {
    /// The link state ID.
    pub id: u32,
    /// The advertising router.
    pub router: u32,
    /// The links or the attached routers.
    pub body: Body,
}

/// The LSAs of an area that count, of each the newest instance, in the order of these instances in a file.
///
/// Kept: each link is of type 1 to 4, and has a metric above 0 where it is of type 1 or 2; no two router-LSAs are of
/// one advertising router, and no two network-LSAs of one link state ID; there are at most 1,000 router-LSAs; LSAs,
/// links and attached routers are together fewer than 2^30.
#[derive(Drop)]
pub struct LsaDatabase {
    lsas: Listed<Lsa>,
}

impl Model for LsaDatabase {
    ghost use Rattle.std.specs.Prelude.{List};
    ghost use Rattle.lsa_bytes.specs.declared.Lsa.{Lsa as OneLsa};
    ghost use Rattle.lsa_bytes.specs.Databases.{IsLsaDatabase};

    ghost Value = { List OneLsa };

    ghost view = { λ d. d.lsas };

    ghost invariant = { λ d. IsLsaDatabase d.lsas };
}

impl LsaDatabase {
    /// The database of these LSAs, in their order.
    pub fn from_items(lsas: Vec<Lsa>) -> LsaDatabase
        requires { IsLsaDatabase lsas.items }
        ensures { result ≡ lsas.items }
    {
        LsaDatabase {
            lsas: Listed::from_items(lsas),
        }
    }

    /// The LSAs, in order, with what is kept of them.
    pub fn as_slice(&self) -> &[Lsa]
        ensures items { result.now ≡ self.now }
        ensures kept { IsLsaDatabase self.now }
    {
        self.lsas.as_slice()
    }
}

mod bodies;
mod edges;
mod ends;
mod fault;
mod fields;
mod graphs;
mod ids;
mod instances;
mod newest;
mod reader;
mod reading;
mod seen;
mod sorted_numbers;
mod vertices;

pub use fault::LsaFault;
pub use graphs::graph_of_lsas;
pub use ids::{IdFault, check_ids, have_id};
pub use instances::{Instance, Stamp};
pub use reader::is_router;
pub use reading::{comes_to_one, database_of, read_lsas, written_is_read};
