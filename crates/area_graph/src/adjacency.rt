//! Graphs: how one is made, read and copied.

ghost use Rattle.std.specs.Prelude.{◌≡◌, ℕ, ◌<◌, ◌≤◌, ◌^◌, ◌++◌, List, [], ◌∷◌, All, IfOk, OnErr, OnOk, length, replicate, slice_index_or, vec_len};
ghost use Rattle.area_graph.specs.Area.{FitsGraph, HasMetrics, IsMetric, edges_out, edges_in, vertices_of};
ghost use Rattle.area_graph.specs.Adjacency.{edge_end_on, listed_below};

use crate::{Edge, Graph, Price, Vertex};
use cost_base::{Listed, OutOfMemory};
use std::alloc::Global;

/// So many routers and then so many transit subnets, each by its number among its kind.
///
/// # Errors
///
/// `OutOfMemory` where memory runs out, and never else.
pub fn vertices_of(alloc: Global, routers: u32, subnets: u32) -> Result<Vec<Vertex>, OutOfMemory>
    ensures { IfOk result (λ made. made.items ≡ vertices_of routers subnets) }
{
    let mut vertices = Vec::new(alloc);
    for router in 0..routers {
        vertices.push(Vertex::Router(router))?;
    }
    for subnet in 0..subnets {
        vertices.push(Vertex::Subnet(subnet))?;
    }
    Ok(vertices)
}

/// On which side of a vertex its edges are listed: those out of it, or those into it.
#[derive(Clone, Copy)]
enum Side {
    Out,
    Into,
}

fn end_of(edge: Edge, side: Side) -> u32
    ensures { result ≡ edge_end_on side edge }
{
    match side {
        Side::Out => edge.from,
        Side::Into => edge.to,
    }
}

fn empty_lists(alloc: Global, count: usize) -> Result<Vec<Listed<u32>>, OutOfMemory>
    ensures { IfOk result (λ lists. lists.items ≡ replicate count []) }
{
    let mut lists = Vec::new(alloc);
    for _ in 0..count {
        lists.push(Listed::new(alloc))?;
    }
    Ok(lists)
}

fn edges_on(
    alloc: Global,
    vertices: &[Vertex],
    edges: &[Edge],
    side: Side,
) -> Result<Vec<Listed<u32>>, OutOfMemory>
    requires ends { All (λ edge. edge_end_on side edge < length vertices.now) edges.now }
    requires few { length edges.now < 2 ^ 32 }
    ensures count { IfOk result (λ lists. length lists.items ≡ length vertices.now) }
    ensures lists { IfOk result (λ lists. (v : ℕ) → v < length vertices.now →
        slice_index_or lists.items v [] ≡ listed_below (length edges.now) side
        (record { vertices = vertices.now; edges = edges.now }) v) }
{
    let mut lists = empty_lists(alloc, vertices.len())?;
    for (number, edge) in edges.iter().enumerate() {
        lists[end_of(*edge, side) as usize].push(number as u32)?;
    }
    Ok(lists)
}

/// For the prover alone: keeps that each fixed price of the edges is within the 16 bits of an interface cost.
fn hold_metrics(edges: &[Edge])
    ensures { All (λ edge. IsMetric edge.price) edges.now }
{
    for edge in edges {
        hold_metric(edge.price);
    }
}

/// For the prover alone: keeps that the price, where it is fixed, is within the 16 bits of an interface cost.
fn hold_metric(price: Price)
    ensures { IsMetric price }
{
    match price {
        Price::Fixed(_cost) => {}
        Price::Var(_) | Price::Zero => {}
    }
}

impl Graph {
    /// A graph of vertices and edges in their order, with the edges out of and into each vertex in rising order (the
    /// links of RFC 2328, 16.1, first stage). It takes time in proportion to their number.
    ///
    /// # Errors
    ///
    /// `OutOfMemory` where the lists of edges got no memory.
    pub fn new(alloc: Global, vertices: Vec<Vertex>, edges: Vec<Edge>) -> Result<Graph, OutOfMemory>
        requires { FitsGraph (record { vertices = vertices.items; edges = edges.items }) }
        ensures { IfOk result (λ graph. graph ≡ record {
          vertices = vertices.items;
          edges = edges.items;
        }) }
    {
        let out = edges_on(alloc, vertices.as_slice(), edges.as_slice(), Side::Out)?;
        let into = edges_on(alloc, vertices.as_slice(), edges.as_slice(), Side::Into)?;
        hold_metrics(edges.as_slice());
        Ok(Graph {
            vertices: Listed::from_items(vertices),
            edges: Listed::from_items(edges),
            out,
            into,
        })
    }

    /// An equal graph.
    ///
    /// # Errors
    ///
    /// `OutOfMemory` where the copy got no memory.
    pub fn copy(&self, alloc: Global) -> Result<Graph, OutOfMemory>
        ensures { IfOk result (λ graph. graph ≡ self.now) }
    {
        let vertices = Vec::from_slice(alloc, self.vertices.as_slice())?;
        let edges = Vec::from_slice(alloc, self.edges.as_slice())?;
        Graph::new(alloc, vertices, edges)
    }

    /// For the prover alone, a law of each graph, which takes no time: it meets the conditions of `fits_graph`, and
    /// each fixed price is within the 16 bits of an interface cost (RFC 2328, A.4.3).
    pub fn keeps_conditions(&self)
        ensures fits { FitsGraph self.now }
        ensures metrics { HasMetrics self.now }
    {
        let _ = &self.edges;
    }

    /// The vertices: each router, then each transit subnet.
    pub fn vertices(&self) -> &[Vertex]
        ensures { result.now ≡ self.now.vertices }
    {
        self.vertices.as_slice()
    }

    /// The edges, whose numbers are their places.
    pub fn edges(&self) -> &[Edge]
        ensures { result.now ≡ self.now.edges }
    {
        self.edges.as_slice()
    }

    /// The numbers of the edges out of a vertex, in rising order.
    pub fn edges_out(&self, vertex: u32) -> &[u32]
        requires { vertex < length self.now.vertices }
        ensures { result.now ≡ edges_out self.now vertex }
    {
        self.out[vertex as usize].as_slice()
    }

    /// The numbers of the edges into a vertex, in rising order.
    pub fn edges_in(&self, vertex: u32) -> &[u32]
        requires { vertex < length self.now.vertices }
        ensures { result.now ≡ edges_in self.now vertex }
    {
        self.into[vertex as usize].as_slice()
    }
}
