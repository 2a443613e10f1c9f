//! Writing the LSAs of an area.
ghost use Rattle.std.specs.Prelude.{◌≡◌, ◌≢◌, ◌+◌, ◌*◌, ◌^◌, ◌<◌, ◌≤◌, ◌++◌, None, [], All, AllPairs, IfOk, OnOk, length, map};
ghost use Rattle.area_graph.specs.declared.Price.TheVariants.{Fixed};
ghost use Rattle.lsdb_build.specs.Graphs.{graph_at};
ghost use Rattle.lsa_bytes.specs.Ids.{first_id_fault};
ghost use Rattle.lsa_bytes.specs.Written.{bytes_of_all};
ghost use Rattle.lsa_writer.specs.Ends.{designated_ends};
ghost use Rattle.lsa_writer.specs.WrittenLsas.{network_lsas, router_lsas, written_lsas};
ghost use Rattle.lsa_writer.specs.Places.{own_count};
ghost use Rattle.lsa_writer.specs.OneGraph.{IsDatabaseOf, SayGraph};

use crate::designation::designated_ends;
use crate::ends::{LinkEnd, end_at, ends_of, id_of};
use crate::pieces::{push_network_lsa, push_router_lsa};
use crate::ranges::{keeps_configs, keeps_ends, keeps_said};
use crate::said::{CostedLinks, OwnedLink, said_links};
use cost_base::{Listed, OutOfMemory};
use interface_model::RouterConfig;
use lsdb_build::Lsdb;
use std::alloc::Global;

/// How many of the first links are of a router.
fn own_count(said: &[OwnedLink], router: u32) -> usize
    ensures { result ≡ own_count router said.now }
{
    for (place, link) in said.iter().enumerate() {
        if link.router != router {
            return place;
        }
    }
    said.len()
}

/// Adds the router-LSAs of configurations, in order, with their links, which stand in the order of their routers.
fn push_router_lsas(
    bytes: &mut Vec<u8>,
    configs: &[RouterConfig],
    said: &[OwnedLink],
) -> Result<(), OutOfMemory>
    requires in_order { AllPairs (λ a b. a.router ≤ b.router) said.now }
    requires few { length said.now ≤ 4000 }
    requires configs { length configs.now ≤ 1000 }
    ensures { OnOk result (bytes.new.items ≡ bytes.old.items ++
        bytes_of_all (router_lsas configs.now said.now)) }
{
    let mut rest = said;
    for router in 0..configs.len() as u32 {
        let (own, later) = rest.split_at(own_count(rest, router));
        push_router_lsa(bytes, id_of(configs, router), own)?;
        rest = later;
    }
    Ok(())
}

/// Adds the network-LSAs of subnets, in order, from their designated routers.
fn push_network_lsas(
    bytes: &mut Vec<u8>,
    ends: &[LinkEnd],
    designated: &[LinkEnd],
    subnets: &[Listed<u32>],
) -> Result<(), OutOfMemory>
    requires few { length subnets.now ≤ 4000 }
    requires few_members { All (λ members. length members ≤ 4000) subnets.now }
    requires designated { designated.now ≡ designated_ends ends.now subnets.now }
    ensures { OnOk result (bytes.new.items ≡ bytes.old.items ++
        bytes_of_all (network_lsas ends.now subnets.now)) }
{
    for (i, members) in subnets.iter().enumerate() {
        let from = end_at(designated, i as u32);
        push_network_lsa(bytes, from, ends, members.as_slice())?;
    }
    Ok(())
}

/// The LSAs of an area, one after the other (RFC 2328, A.4.1 to A.4.3): the router-LSAs in the order of the
/// configurations, each with its linked interfaces in order at their costs; then the network-LSAs of the transit
/// subnets. A subnet's designated router is the member with the greatest priority, of equals the one with the greatest
/// router ID. Stub links aren't written. The graph of these LSAs is that of the area at these costs.
///
/// The database is that of the configurations; each link has a cost above 0; each configuration has a router ID, no two
/// the same.
///
/// # Errors
///
/// `OutOfMemory` where memory runs out, and never else.
pub fn lsas_of(
    alloc: Global,
    configs: &[RouterConfig],
    lsdb: &Lsdb,
    costs: &[u16],
) -> Result<Vec<u8>, OutOfMemory>
    // The database is that of the configurations, whose router IDs are there and differ.
    requires built { IsDatabaseOf configs.now lsdb.now }
    requires ids { first_id_fault [] 0 configs.now ≡ None }

    // Each link has a cost above 0.
    requires one_each { length costs.now ≡ length lsdb.now.links }
    requires priced { All (λ cost. 0 < cost) costs.now }

    // The LSAs say the graph of the area at these costs.
    ensures written { IfOk result (λ bytes. bytes.items ≡ bytes_of_all
        (written_lsas configs.now lsdb.now costs.now)) }
    ensures one_graph { IfOk result (λ bytes. SayGraph bytes.items
        (graph_at lsdb.now (map Fixed costs.now))) }
{
    keeps_configs(configs);
    let links = lsdb.links.as_slice();
    let subnets = lsdb.subnets.as_slice();
    let ends = ends_of(alloc, configs, links)?;
    let designated = designated_ends(alloc, &ends, subnets)?;
    let costed = CostedLinks {
        links,
        ends: &ends,
        costs,
    };
    let said = said_links(alloc, configs, &designated, costed)?;
    keeps_ends(&ends);
    keeps_said(&said);
    let mut bytes = Vec::new(alloc);
    push_router_lsas(&mut bytes, configs, &said)?;
    push_network_lsas(&mut bytes, &ends, &designated, subnets)?;
    Ok(bytes)
}
