//! Which paths are simple, and which are paths of a request.

ghost use Rattle.std.specs.Prelude.{◌≡◌, ◌↔◌, ◌<◌, ℕ, All, IsTrue, length, map};
ghost use Rattle.cost_base.specs.Lists.{Lacks, NoneTwice};
ghost use Rattle.area_graph.specs.Area.{edge_at};
ghost use Rattle.area_graph.specs.Paths.{Avoids, Ends, IsPathOf, IsSimple, Joins, visited};

use crate::{Edge, Graph, Path};

/// The edge of a number. Takes no memory.
pub fn edge_of(graph: &Graph, number: u32) -> Edge
    requires { number < length graph.now.edges }
    ensures { result ≡ edge_at graph.now number }
{
    graph.edges()[number as usize]
}

/// The vertex where an edge ends, 0 where there is no edge of that number. Takes no memory.
pub fn far_end(graph: &Graph, number: u32) -> u32
    ensures { result ≡ (edge_at graph.now number).to }
{
    match graph.edges().get(number as usize) {
        Some(edge) => edge.to,
        None => 0,
    }
}

/// Whether a path is a simple path to `end`: its start and end are vertices, its edges are edges of the graph that
/// join from start to end, and no vertex comes twice. Takes no memory: it looks back along the path at each edge.
pub fn is_simple(graph: &Graph, path: &Path, end: u32) -> bool
    ensures { IsTrue result ↔ IsSimple graph.now path.now.start path.now.edges end }
{
    let edges = path.edges.as_slice();
    joins(graph, path.start, edges, end)
        && has_none_twice(graph, path.start, edges)
        && (path.start as usize) < graph.vertices().len()
        && (end as usize) < graph.vertices().len()
}

/// Whether none of the edges is excluded. Takes no memory.
pub fn avoids(excluded: &[u32], edges: &[u32]) -> bool
    ensures { IsTrue result ↔ Avoids excluded.now edges.now }
{
    for edge in edges {
        if !lacks(excluded, *edge) {
            return false;
        }
    }
    true
}

/// Whether a path is a simple path to `end` with no excluded edge. Takes no memory.
pub fn is_path_of(graph: &Graph, path: &Path, end: u32, excluded: &[u32]) -> bool
    ensures { IsTrue result ↔
        IsPathOf graph.now (record { start = path.now.start; end = end; excluded = excluded.now })
        path.now.edges }
{
    is_simple(graph, path, end) && avoids(excluded, path.edges.as_slice())
}

fn joins(graph: &Graph, start: u32, edges: &[u32], end: u32) -> bool
    ensures { IsTrue result ↔ Joins graph.now start edges.now end }
{
    let mut at = start;
    for number in edges {
        match graph.edges().get(*number as usize) {
            Some(edge) if edge.from == at => at = edge.to,
            _ => return false,
        }
    }
    at == end
}

fn has_none_twice(graph: &Graph, start: u32, edges: &[u32]) -> bool
    requires { All (λ e. e < length graph.now.edges) edges.now }
    ensures { IsTrue result ↔ NoneTwice (visited graph.now start edges.now) }
{
    for (index, number) in edges.iter().enumerate() {
        let next = edge_of(graph, *number).to;
        if !misses(graph, start, &edges[..index], next) {
            return false;
        }
    }
    true
}

fn misses(graph: &Graph, start: u32, edges: &[u32], vertex: u32) -> bool
    requires { All (λ e. e < length graph.now.edges) edges.now }
    ensures { IsTrue result ↔ Lacks (visited graph.now start edges.now) vertex }
{
    if vertex == start {
        return false;
    }
    for number in edges {
        if vertex == edge_of(graph, *number).to {
            return false;
        }
    }
    true
}

/// Whether an edge isn't excluded.
pub(crate) fn lacks(excluded: &[u32], edge: u32) -> bool
    ensures { IsTrue result ↔ Lacks excluded.now edge }
{
    for other in excluded {
        if edge == *other {
            return false;
        }
    }
    true
}
