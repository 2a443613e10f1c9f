//! The edges out of the vertices of LSAs.
ghost use Rattle.std.specs.Prelude.{◌≡◌, ◌+◌, ◌-◌, ◌<◌, ◌^◌, ◌++◌, [], filter, flat_map, length, if◌then◌else◌, IfOk, OnOk};
ghost use Rattle.lsa_bytes.specs.AreaGraphs.{attached_edge, edge_if_found, edges_from, edges_in_order, far_end, link_edge};
ghost use Rattle.lsa_bytes.specs.Vertices.{is_kind};

use crate::vertices::{Kind, Vertices, is_kind};
use crate::{Body, Lsa, LsaLink, POINT_TO_POINT_LINK, TRANSIT_LINK};
use area_graph::{Edge, Price};
use cost_base::{OutOfMemory, push_some};

/// Appends an edge, if it leads anywhere.
fn push_edge(
    edges: &mut Vec<Edge>,
    from: u32,
    price: Price,
    to: Option<u32>,
) -> Result<(), OutOfMemory>
    ensures { OnOk result (edges.new.items ≡ edges.old.items ++ edge_if_found from price to) }
{
    push_some(edges, to.map(|to| Edge { from, to, price }))
}

/// The vertex to which a router's link leads, if that leads back.
fn far_end(vertices: &Vertices<'_>, router: u32, link: &LsaLink) -> Option<u32>
    ensures { result ≡ far_end vertices.now router link.now }
{
    match link.kind {
        POINT_TO_POINT_LINK => vertices.router_with_link(link.id, POINT_TO_POINT_LINK, router),
        TRANSIT_LINK => vertices.network_with_router(link.id, router),
        _ => None,
    }
}

/// Appends the edges of a router's links.
fn push_link_edges(
    edges: &mut Vec<Edge>,
    vertices: &Vertices<'_>,
    vertex: u32,
    router: u32,
    links: &[LsaLink],
) -> Result<(), OutOfMemory>
    ensures { OnOk result (edges.new.items ≡ edges.old.items ++
        flat_map (link_edge vertices.now vertex router) links.now) }
{
    for link in links {
        let to = far_end(vertices, router, link);
        push_edge(edges, vertex, Price::Fixed(link.metric), to)?;
    }
    Ok(())
}

/// Appends the edges out of a network, to the attached routers that have a link into it.
fn push_attached_edges(
    edges: &mut Vec<Edge>,
    vertices: &Vertices<'_>,
    vertex: u32,
    id: u32,
    attached: &[u32],
) -> Result<(), OutOfMemory>
    ensures { OnOk result (edges.new.items ≡ edges.old.items ++
        flat_map (attached_edge vertices.now vertex id) attached.now) }
{
    for router in attached {
        let to = vertices.router_with_link(*router, TRANSIT_LINK, id);
        push_edge(edges, vertex, Price::Zero, to)?;
    }
    Ok(())
}

/// Appends the edges out of the vertex of one LSA.
fn push_lsa_edges(
    edges: &mut Vec<Edge>,
    vertices: &Vertices<'_>,
    vertex: u32,
    lsa: &Lsa,
) -> Result<(), OutOfMemory>
    ensures { OnOk result (edges.new.items ≡ edges.old.items ++
        edges_from vertices.now vertex lsa.now lsa.now.body) }
{
    match &lsa.body {
        Body::Links(links) => {
            push_link_edges(edges, vertices, vertex, lsa.router, links.as_slice())
        }
        Body::Attached(attached) => {
            push_attached_edges(edges, vertices, vertex, lsa.id, attached.as_slice())
        }
    }
}

/// Appends the edges out of the vertex of an LSA, if it is of a kind; gives the next vertex of that kind.
fn push_edges_of_kind(
    edges: &mut Vec<Edge>,
    vertices: &Vertices<'_>,
    kind: Kind,
    vertex: u32,
    lsa: &Lsa,
) -> Result<u32, OutOfMemory>
    requires { vertex < 2 ^ 32 - 1 }
    ensures next { IfOk result (λ next. next ≡ vertex + (if is_kind kind lsa.now then 1 else 0)) }
    ensures pushed { OnOk result (edges.new.items ≡ edges.old.items ++
        (if is_kind kind lsa.now then edges_from vertices.now vertex lsa.now lsa.now.body
        else [])) }
{
    if !is_kind(kind, lsa) {
        return Ok(vertex);
    }
    push_lsa_edges(edges, vertices, vertex, lsa)?;
    Ok(vertex + 1)
}

/// Appends the edges out of the vertices of a kind, of which the first is given.
pub fn push_edges(
    edges: &mut Vec<Edge>,
    vertices: &Vertices<'_>,
    kind: Kind,
    first: u32,
) -> Result<(), OutOfMemory>
    requires { first + length vertices.now < 2 ^ 32 - 1 }
    ensures { OnOk result (edges.new.items ≡ edges.old.items ++
        edges_in_order vertices.now first (filter (is_kind kind) vertices.now)) }
{
    let mut vertex = first;
    for lsa in vertices.lsas() {
        vertex = push_edges_of_kind(edges, vertices, kind, vertex, lsa)?;
    }
    Ok(())
}
