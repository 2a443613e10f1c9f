//! The graph of a database of LSAs.
ghost use Rattle.std.specs.Prelude.{◌≡◌, IfOk};
ghost use Rattle.lsa_bytes.specs.AreaGraphs.{lsa_graph};

use crate::LsaDatabase;
use crate::edges::push_edges;
use crate::vertices::{Kind, Vertices};
use area_graph::{Graph, vertices_of};
use cost_base::OutOfMemory;
use std::alloc::Global;

/// The graph of a database (RFC 2328, 16.1, first stage): a vertex for each router-LSA and then for each network-LSA,
/// in their order; an edge for each link of type 1 or 2 to a vertex whose LSA leads back, at the link's metric; and an
/// edge at no price out of each network to each attached router that has a link into it.
///
/// # Errors
///
/// `OutOfMemory` where memory runs out, and never else.
pub fn graph_of_lsas(alloc: Global, database: &LsaDatabase) -> Result<Graph, OutOfMemory>
    ensures { IfOk result (λ graph. graph ≡ lsa_graph database.now) }
{
    let vertices = Vertices::of(alloc, database.as_slice())?;
    let routers = vertices.router_count();
    let mut edges = Vec::new(alloc);
    push_edges(&mut edges, &vertices, Kind::Router, 0)?;
    push_edges(&mut edges, &vertices, Kind::Network, routers)?;
    let made = vertices_of(alloc, routers, vertices.network_count())?;
    Graph::new(alloc, made, edges)
}
