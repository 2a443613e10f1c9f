//! The links of router-LSAs that count.
ghost use Rattle.std.specs.Prelude.{◌≡◌, ◌++◌, IfOk, OnOk, flat_map};
ghost use Rattle.live_area.specs.LiveLinks as definition;

use cost_base::{OutOfMemory, push_if};
use lsa_bytes::{Body, Lsa, LsaLink, POINT_TO_POINT_LINK, TRANSIT_LINK};
use std::alloc::Global;

/// A link of type 1 or 2 of a router-LSA: its advertising router, its link data and its metric.
#[derive(Clone, Copy)]
pub struct LiveLink {
    pub router: u32,
    pub address: u32,
    pub metric: u16,
}

/// Whether a link leads to a router or into a transit subnet.
fn is_area_link(link: &LsaLink) -> bool
    ensures { result ≡ definition.is_area_link link.now }
{
    link.kind == POINT_TO_POINT_LINK || link.kind == TRANSIT_LINK
}

/// Adds the links of type 1 and 2 of a router, in order.
fn push_links(found: &mut Vec<LiveLink>, router: u32, links: &[LsaLink]) -> Result<(), OutOfMemory>
    ensures { OnOk result (found.new.items ≡ found.old.items ++
        definition.live_links_among router links.now) }
{
    for link in links {
        let live = LiveLink {
            router,
            address: link.address,
            metric: link.metric,
        };
        push_if(found, live, is_area_link(link))?;
    }
    Ok(())
}

/// The links of type 1 and 2 of a router-LSA, in order.
pub fn links_of_lsa(alloc: Global, lsa: &Lsa) -> Result<Vec<LiveLink>, OutOfMemory>
    ensures { IfOk result (λ links. links.items ≡ definition.live_links_of lsa.now) }
{
    let mut found = Vec::new(alloc);
    if let Body::Links(links) = &lsa.body {
        push_links(&mut found, lsa.router, links.as_slice())?;
    }
    Ok(found)
}

/// The links of type 1 and 2 of router-LSAs, in order.
pub fn live_links(alloc: Global, lsas: &[Lsa]) -> Result<Vec<LiveLink>, OutOfMemory>
    ensures { IfOk result (λ links. links.items ≡ flat_map definition.live_links_of lsas.now) }
{
    let mut found = Vec::new(alloc);
    for lsa in lsas {
        let links = links_of_lsa(alloc, lsa)?;
        found.extend_from_slice(&links)?;
    }
    Ok(found)
}
