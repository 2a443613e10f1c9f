//! Where LSAs lead, found without going over their links.
ghost use Rattle.std.specs.Prelude.{◌≡◌, IfOk, true};
ghost use Rattle.lsa_bytes.specs.declared.Body.{Body as OneBody};
ghost use Rattle.lsa_bytes.specs.AreaGraphs.{attaches, has_link};
ghost use Rattle.lsa_bytes.specs.Grammar.{is_read};
ghost use Rattle.lsa_bytes.specs.Vertices.{AreEnds, ids_of_type};

use crate::sorted_numbers::SortedNumbers;
use crate::{Body, LsaLink, POINT_TO_POINT_LINK, TRANSIT_LINK};
use cost_base::{OutOfMemory, push_if};
use std::alloc::Global;

/// Where an LSA leads.
#[derive(Drop)]
pub enum Ends {
    /// A router-LSA: to these routers and into these networks.
    Links {
        routers: SortedNumbers,
        networks: SortedNumbers,
    },
    /// A network-LSA: to these routers.
    Attached(SortedNumbers),
}

/// The IDs of the links of a type.
#[tactic(auto, using(crate::proofs::MemberLaws::ids_step))]
fn ids_of_type(alloc: Global, links: &[LsaLink], kind: u8) -> Result<Vec<u32>, OutOfMemory>
    ensures { IfOk result (λ ids. ids.items ≡ ids_of_type kind links.now) }
{
    let mut ids = Vec::new(alloc);
    for link in links {
        push_if(&mut ids, link.id, link.kind == kind)?;
    }
    Ok(ids)
}

/// Where a body leads.
#[tactic(auto, using(crate::proofs::MemberLaws::ids_pass))]
pub fn ends_of(alloc: Global, body: &Body) -> Result<Ends, OutOfMemory>
    ensures { IfOk result (λ ends. AreEnds body.now ends) }
{
    match body {
        Body::Links(links) => {
            let routers = ids_of_type(alloc, links.as_slice(), POINT_TO_POINT_LINK)?;
            let networks = ids_of_type(alloc, links.as_slice(), TRANSIT_LINK)?;
            Ok(Ends::Links {
                routers: SortedNumbers::of(routers),
                networks: SortedNumbers::of(networks),
            })
        }
        Body::Attached(attached) => {
            let mut routers = Vec::new(alloc);
            routers.extend_from_slice(attached.as_slice())?;
            Ok(Ends::Attached(SortedNumbers::of(routers)))
        }
    }
}

/// Whether a router-LSA has a link of a type, which is 1 or 2, with an ID.
pub fn has_link(ends: &Ends, kind: u8, id: u32) -> bool
    requires { is_read kind ≡ true }
    ensures { (body : OneBody) → AreEnds body ends.now → result ≡ has_link kind id body }
{
    match ends {
        Ends::Links { routers, networks } => {
            if kind == POINT_TO_POINT_LINK {
                routers.has(id)
            } else {
                networks.has(id)
            }
        }
        Ends::Attached(_) => false,
    }
}

/// Whether a network-LSA lists a router as attached.
pub fn attaches(ends: &Ends, router: u32) -> bool
    ensures { (body : OneBody) → AreEnds body ends.now → result ≡ attaches router body }
{
    match ends {
        Ends::Links { .. } => false,
        Ends::Attached(routers) => routers.has(router),
    }
}
