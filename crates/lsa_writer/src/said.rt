//! What links say in the router-LSAs of their routers.
ghost use Rattle.std.specs.Prelude.{◌≡◌, ◌≤◌, IfOk, length};
ghost use Rattle.lsa_writer.specs.Ends.{end_of, link_ends};
ghost use Rattle.lsa_writer.specs.WrittenLsas.{lsa_link, said_link, said_links};

use crate::ends::{LinkEnd, end_at, id_of};
use cost_base::OutOfMemory;
use interface_model::RouterConfig;
use lsa_bytes::{LsaLink, POINT_TO_POINT_LINK, TRANSIT_LINK};
use lsdb_build::{Far, Linked};
use std::alloc::Global;

/// A link of a router-LSA, with the number of its router.
#[derive(Clone, Copy)]
pub struct OwnedLink {
    pub router: u32,
    pub link: LsaLink,
}

/// Linked interfaces in order, with the end and the cost of each.
#[derive(Clone, Copy)]
pub struct CostedLinks<'a> {
    /// The linked interfaces.
    pub links: &'a [Linked],
    /// Their own ends of their links.
    pub ends: &'a [LinkEnd],
    /// Their costs.
    pub costs: &'a [u16],
}

/// What a link from an end says at a cost.
fn lsa_link(
    configs: &[RouterConfig],
    designated: &[LinkEnd],
    own: LinkEnd,
    to: Far,
    cost: u16,
) -> LsaLink
    ensures { result ≡ lsa_link configs.now designated.now own to cost }
{
    match to {
        Far::Router(router) => LsaLink {
            id: id_of(configs, router),
            address: own.address,
            kind: POINT_TO_POINT_LINK,
            metric: cost,
        },
        Far::Subnet(subnet) => LsaLink {
            id: end_at(designated, subnet).address,
            address: own.address,
            kind: TRANSIT_LINK,
            metric: cost,
        },
    }
}

/// What links say, in order, with their ends and at their costs.
pub fn said_links(
    alloc: Global,
    configs: &[RouterConfig],
    designated: &[LinkEnd],
    of: CostedLinks<'_>,
) -> Result<Vec<OwnedLink>, OutOfMemory>
    requires ends { of.ends.now ≡ link_ends configs.now of.links.now }
    requires one_each { length of.costs.now ≡ length of.links.now }
    requires few { length of.links.now ≤ 4000 }
    ensures { IfOk result (λ said. said.items ≡ said_links configs.now designated.now
        of.entry.links.now of.entry.costs.now) }
{
    let mut said = Vec::new(alloc);
    for (i, link) in of.links.iter().enumerate() {
        let own = end_at(of.ends, i as u32);
        said.push(OwnedLink {
            router: link.router,
            link: lsa_link(configs, designated, own, link.to, of.costs[i]),
        })?;
    }
    Ok(said)
}
