//! The graph of an area at given prices of its links.
ghost use Rattle.std.specs.Prelude.{◌≡◌, ◌+◌, ◌<◌, ◌^◌, ◌++◌, length, map, All, IfOk, OnOk};
ghost use Rattle.area_graph.specs.declared.Price.TheVariants.{Zero};
ghost use Rattle.lsdb_build.specs.Graphs.{graph_at, far_vertex, link_edges, subnet_edges, router_of, IsLinkPrice};

use crate::{Far, Linked, Lsdb};
use area_graph::{Edge, Graph, Price, vertices_of};
use cost_base::{Listed, OutOfMemory};
use std::alloc::Global;

/// The vertex that a link leads to: routers come first, then subnets.
fn far_vertex(routers: u32, far: Far) -> u32
    requires { far_vertex routers far < 2 ^ 32 }
    ensures { result ≡ far_vertex routers far }
{
    match far {
        Far::Router(router) => router,
        Far::Subnet(subnet) => routers + subnet,
    }
}

/// The edges of the links, each from its router at its price.
fn link_edges(
    alloc: Global,
    routers: u32,
    links: &[Linked],
    prices: &[Price],
) -> Result<Vec<Edge>, OutOfMemory>
    requires far { All (λ link. far_vertex routers link.to < 2 ^ 32) links.now }
    requires priced { length prices.now ≡ length links.now }
    ensures { IfOk result (λ made. made.items ≡ link_edges routers links.now prices.now) }
{
    let mut edges = Vec::new(alloc);
    for (i, link) in links.iter().enumerate() {
        let edge = Edge {
            from: link.router,
            to: far_vertex(routers, link.to),
            price: prices[i],
        };
        edges.push(edge)?;
    }
    Ok(edges)
}

/// The edge from a subnet to a router on it, at price 0 (RFC 2328, 16.1).
fn member_edge(subnet: u32, router: u32) -> Edge
    ensures { result ≡ record { from = subnet; to = router; price = Zero } }
{
    Edge {
        from: subnet,
        to: router,
        price: Price::Zero,
    }
}

/// Appends the edges from a subnet to its members' routers, at price 0.
fn push_members(
    edges: &mut Vec<Edge>,
    vertex: u32,
    links: &[Linked],
    members: &[u32],
) -> Result<(), OutOfMemory>
    requires { All (λ l. l < length links.now) members.now }
    ensures { OnOk result (edges.new.items ≡ edges.old.items ++
        map (λ l. record { from = vertex; to = router_of links.now l; price = Zero }) members.now) }
{
    for member in members {
        edges.push(member_edge(vertex, links[*member as usize].router))?;
    }
    Ok(())
}

/// Appends the edges out of the subnets, in order.
fn push_subnet_edges(
    edges: &mut Vec<Edge>,
    routers: u32,
    links: &[Linked],
    subnets: &[Listed<u32>],
) -> Result<(), OutOfMemory>
    requires members { All (λ members. All (λ l. l < length links.now) members) subnets.now }
    requires few { routers + length subnets.now < 2 ^ 32 }
    ensures { OnOk result (edges.new.items ≡ edges.old.items ++
        subnet_edges links.now routers subnets.now) }
{
    for (i, members) in subnets.iter().enumerate() {
        push_members(edges, routers + i as u32, links, members.as_slice())?;
    }
    Ok(())
}

/// The graph of the area at given prices of its links (RFC 2328, 16.1): an edge for each link at its price,
/// and an edge out of each transit subnet to each member's router at price 0.
///
/// There is one price for each link: a fixed one that isn't 0, or a variable's.
///
/// # Errors
///
/// `OutOfMemory` where memory runs out, and never else.
pub fn graph_of(alloc: Global, lsdb: &Lsdb, prices: &[Price]) -> Result<Graph, OutOfMemory>
    requires one_each { length prices.now ≡ length lsdb.now.links }
    requires priced { All IsLinkPrice prices.now }
    ensures { IfOk result (λ graph. graph ≡ graph_at lsdb.now prices.now) }
{
    let routers = lsdb.routers.as_slice().len() as u32;
    let links = lsdb.links.as_slice();
    let subnets = lsdb.subnets.as_slice();
    let vertices = vertices_of(alloc, routers, subnets.len() as u32)?;
    let mut edges = link_edges(alloc, routers, links, prices)?;
    push_subnet_edges(&mut edges, routers, links, subnets)?;
    Graph::new(alloc, vertices, edges)
}
