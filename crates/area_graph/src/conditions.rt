//! The conditions on a graph and on a point.

ghost use Rattle.std.specs.Prelude.{◌≡◌, ◌↔◌, ◌≤◌, ◌*◌, ℕ, All, IsTrue, count_by, length};
ghost use Rattle.area_graph.specs.Area.{FitsEdge, FitsGraph, FitsSource, FitsTarget, is_vertex_of_router};
ghost use Rattle.area_graph.specs.Costs.{FitsPoint, IsPriced};

use crate::{Edge, Graph, Point, Price, Vertex};

/// The most routers that a graph may have: a limit of this program.
pub const MOST_ROUTERS: usize = 1000;

/// Vertices and edges are fewer than this: they are numbered by 32 bits.
const NUMBERS: usize = 1 << 32;

/// The scale of a point is less than this: a limit of this program, under which sums of costs don't overflow.
const SCALES: u128 = 1 << 100;

/// The greatest interface cost: a link's metric has 16 bits (RFC 2328, A.4.2).
const GREATEST_COST: u128 = 65_535;

/// Whether vertices and edges make a graph: the ends of each edge are vertices; the price is nothing exactly on edges
/// out of a subnet, and no fixed price is 0 (RFC 2328, A.4.3); each edge out of a subnet leads to a router; there are
/// at most 1,000 routers, and fewer than 2^32 vertices and edges. Takes no memory.
pub fn fits_graph(vertices: &[Vertex], edges: &[Edge]) -> bool
    ensures { IsTrue result ↔ FitsGraph (record { vertices = vertices.now; edges = edges.now }) }
{
    vertices.len() < NUMBERS
        && edges.len() < NUMBERS
        && count_routers(vertices) <= MOST_ROUTERS
        && edges_fit(vertices, edges)
}

fn edges_fit(vertices: &[Vertex], edges: &[Edge]) -> bool
    ensures { IsTrue result ↔ All (FitsEdge (record { vertices = vertices.now; edges = edges.now }))
        edges.now }
{
    for edge in edges {
        if !fits_edge(vertices, *edge) {
            return false;
        }
    }
    true
}

fn count_routers(vertices: &[Vertex]) -> usize
    ensures { result ≡ count_by is_vertex_of_router vertices.now }
{
    vertices
        .iter()
        .filter(|vertex| is_router_vertex(**vertex))
        .count()
}

fn is_router_vertex(vertex: Vertex) -> bool
    ensures { result ≡ is_vertex_of_router vertex }
{
    match vertex {
        Vertex::Router(_) => true,
        Vertex::Subnet(_) => false,
    }
}

fn fits_edge(vertices: &[Vertex], edge: Edge) -> bool
    ensures { (edges : _) → IsTrue result ↔
        FitsEdge (record { vertices = vertices.now; edges = edges }) edge }
{
    let from = edge.from as usize;
    let to = edge.to as usize;
    from < vertices.len()
        && to < vertices.len()
        && fits_source(vertices[from], edge.price)
        && fits_target(vertices[from], vertices[to])
}

fn fits_source(source: Vertex, price: Price) -> bool
    ensures { IsTrue result ↔ FitsSource source price }
{
    match (source, price) {
        (Vertex::Router(_), Price::Fixed(cost)) => 0 < cost,
        (Vertex::Router(_), Price::Var(_)) => true,
        (Vertex::Router(_), Price::Zero) => false,
        (Vertex::Subnet(_), Price::Zero) => true,
        (Vertex::Subnet(_), Price::Fixed(_) | Price::Var(_)) => false,
    }
}

fn fits_target(source: Vertex, target: Vertex) -> bool
    ensures { IsTrue result ↔ FitsTarget source target }
{
    match (source, target) {
        (Vertex::Subnet(_), Vertex::Subnet(_)) => false,
        _ => true,
    }
}

/// Whether a point gives each price of the graph a value: its scale is 1 to 2^100 - 1, each variable of a price has a
/// value, and each value is from the scale to 65535 times the scale, as an interface cost is 1 to 65535 (RFC 2328,
/// A.4.3). Takes no memory.
pub fn point_fits(graph: &Graph, point: &Point) -> bool
    ensures { IsTrue result ↔ FitsPoint graph.now point.now }
{
    let values = point.values.as_slice();
    0 < point.scale
        && point.scale < SCALES
        && values.iter().all(|value| point.scale <= *value)
        && values
            .iter()
            .all(|value| *value <= GREATEST_COST * point.scale)
        && graph
            .edges()
            .iter()
            .all(|edge| is_priced(values.len(), edge.price))
}

fn is_priced(values: usize, price: Price) -> bool
    ensures { IsTrue result ↔ IsPriced values price }
{
    match price {
        Price::Var(number) => (number as usize) < values,
        Price::Fixed(_) | Price::Zero => true,
    }
}
