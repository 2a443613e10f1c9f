//! The edges of linked interfaces, in both directions.
ghost use Rattle.std.specs.Prelude.{◌≡◌, ◌<◌, ◌^◌, ◌==◌, ◌||◌, IfOk, length, slice_get};
ghost use Rattle.area_graph.specs.Area.{edge_at};
ghost use Rattle.std.specs.List.{list_any};
ghost use Rattle.wanted_paths.specs.Paths.{link_excludes};
ghost use Rattle.path_commands.specs.LiveAudits.{edges_of_links};
ghost use Rattle.path_commands.specs.LinkEdges.{is_link_back, leads_back};

use area_graph::{Edge, Graph, edge_of};
use cost_base::{OutOfMemory, push_if};
use lsdb_build::{Far, Linked, Lsdb};
use std::alloc::Global;

/// Whether an edge is the link back, where there is one.
fn is_link_back(link_back: Option<u32>, edge: u32) -> bool
    ensures { result ≡ is_link_back link_back edge }
{
    match link_back {
        Some(back) => edge == back,
        None => false,
    }
}

/// Whether an edge leads back from where a router's link leads, if that is a transit subnet.
fn leads_back(routers: usize, far: Far, router: u32, edge: Edge) -> bool
    requires { routers < 2 ^ 32 }
    ensures { result ≡ leads_back routers far router edge }
{
    match far {
        Far::Router(_) => false,
        Far::Subnet(subnet) => {
            u64::from(edge.from) == routers as u64 + u64::from(subnet) && edge.to == router
        }
    }
}

/// Whether an edge is of a link, in one direction or the other.
fn is_of_link(routers: usize, graph: &Graph, number: u32, link: &Linked, edge: u32) -> bool
    requires few { routers < 2 ^ 32 }
    requires edge { edge < length graph.now.edges }
    ensures { result ≡ (edge == number || is_link_back link.now.link_back edge ||
        leads_back routers link.now.to link.now.router (edge_at graph.now edge)) }
{
    edge == number
        || is_link_back(link.link_back, edge)
        || leads_back(routers, link.to, link.router, edge_of(graph, edge))
}

/// Whether an edge is of the link of a number, in one direction or the other.
fn link_excludes(lsdb: &Lsdb, graph: &Graph, number: u32, edge: u32) -> bool
    requires { edge < length graph.now.edges }
    ensures { result ≡ link_excludes lsdb.now graph.now number (slice_get lsdb.now.links number)
        edge }
{
    match lsdb.links.as_slice().get(number as usize) {
        Some(link) => is_of_link(lsdb.routers.as_slice().len(), graph, number, link, edge),
        None => false,
    }
}

/// Whether an edge is of one of some links, in one direction or the other.
fn is_of_any_link(lsdb: &Lsdb, graph: &Graph, links: &[u32], edge: u32) -> bool
    requires { edge < length graph.now.edges }
    ensures { result ≡ list_any (λ l. link_excludes lsdb.now graph.now l
        (slice_get lsdb.now.links l) edge) links.now }
{
    links
        .iter()
        .any(|link| link_excludes(lsdb, graph, *link, edge))
}

/// The edges of some links in both directions, in rising order.
pub(crate) fn edges_of_links(
    alloc: Global,
    lsdb: &Lsdb,
    graph: &Graph,
    links: &[u32],
) -> Result<Vec<u32>, OutOfMemory>
    ensures { IfOk result (λ edges. edges.items ≡ edges_of_links lsdb.now graph.now links.now) }
{
    graph.keeps_conditions();
    let mut edges = Vec::new(alloc);
    for edge in 0..graph.edges().len() as u32 {
        push_if(&mut edges, edge, is_of_any_link(lsdb, graph, links, edge))?;
    }
    Ok(edges)
}
