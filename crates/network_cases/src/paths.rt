//! Lines of a script that ask of paths.

use crate::networks::{point, said};
use area_graph::{
    BorrowedRequest, Graph, Path, Point, avoids, is_only_cheapest, is_path_of, is_simple,
    path_cost, point_fits,
};
use case_scripts::{Written, next_number, next_numbers, next_word};
use cost_base::{Listed, OutOfMemory};
use design_problem::Request;
use std::alloc::{AllocError, Global};
use std::str::SplitWhitespace;

/// `vertex NUMBER`: the edges out of a vertex and into it.
pub(crate) fn vertex_text(
    alloc: Global,
    graph: &Graph,
    words: &mut SplitWhitespace<'_>,
) -> Result<String, AllocError> {
    let vertex = next_number(words);
    if graph.vertices().len() <= vertex as usize {
        return String::from_str(alloc, ": no vertex");
    }
    let out = Written(graph.edges_out(vertex));
    let into = Written(graph.edges_in(vertex));
    format!(in alloc; ": out {out}; in {into}")
}

/// `copy`: whether a copy of the graph has its vertices and edges.
pub(crate) fn copy_text(alloc: Global, graph: &Graph) -> Result<String, OutOfMemory> {
    let copy = graph.copy(alloc)?;
    let is_same = copy.vertices() == graph.vertices() && copy.edges() == graph.edges();
    let told = if is_same { ": the same" } else { ": another" };
    said(alloc, told)
}

/// `avoids EDGES EXCLUDED`: whether none of the edges is excluded.
pub(crate) fn avoids_text(
    alloc: Global,
    words: &mut SplitWhitespace<'_>,
) -> Result<String, AllocError> {
    let edges = next_numbers(alloc, words)?;
    let excluded = next_numbers(alloc, words)?;
    let told = if avoids(excluded.as_slice(), edges.as_slice()) {
        ": yes"
    } else {
        ": no"
    };
    String::from_str(alloc, told)
}

/// The path and the end of the words `START END EDGES`.
pub(crate) fn path_and_end(
    alloc: Global,
    words: &mut SplitWhitespace<'_>,
) -> Result<(Path, u32), AllocError> {
    let start = next_number(words);
    let end = next_number(words);
    let edges = Listed::from_items(next_numbers(alloc, words)?);
    Ok((Path { start, edges }, end))
}

/// Whether a path is simple, and what it costs.
fn cost_text(
    alloc: Global,
    graph: &Graph,
    path: &Path,
    end: u32,
    point: &Point,
) -> Result<String, AllocError> {
    if !is_simple(graph, path, end) {
        return String::from_str(alloc, ": not simple");
    }
    if !point_fits(graph, point) {
        return String::from_str(alloc, ": simple");
    }
    let cost = path_cost(graph, path, point);
    format!(in alloc; ": simple, cost {cost}")
}

/// `path START END EDGES POINT`: whether a path is simple, and what it costs.
pub(crate) fn path_text(
    alloc: Global,
    graph: &Graph,
    words: &mut SplitWhitespace<'_>,
) -> Result<String, AllocError> {
    let (path, end) = path_and_end(alloc, words)?;
    let point = point(alloc, next_word(words))?;
    cost_text(alloc, graph, &path, end, &point)
}

/// The request of the words `START END EDGES EXCLUDED`.
pub(crate) fn next_request(
    alloc: Global,
    words: &mut SplitWhitespace<'_>,
) -> Result<Request, AllocError> {
    let (path, end) = path_and_end(alloc, words)?;
    let excluded = Listed::from_items(next_numbers(alloc, words)?);
    Ok(Request {
        path,
        end,
        excluded,
    })
}

/// Whether a request's path is the only cheapest.
fn only_at(
    alloc: Global,
    graph: &Graph,
    request: &Request,
    point: &Point,
) -> Result<String, OutOfMemory> {
    let wanted = BorrowedRequest {
        path: &request.path,
        end: request.end,
        excluded: request.excluded.as_slice(),
    };
    if !point_fits(graph, point) || !is_path_of(graph, wanted.path, wanted.end, wanted.excluded) {
        return said(alloc, ": unfit");
    }
    let is_only = is_only_cheapest(alloc, graph, point, &wanted)?;
    let told = if is_only { ": yes" } else { ": no" };
    said(alloc, told)
}

/// `only START END EDGES EXCLUDED POINT`: whether a path is the only cheapest where some edges are excluded.
pub(crate) fn only_text(
    alloc: Global,
    graph: &Graph,
    words: &mut SplitWhitespace<'_>,
) -> Result<String, OutOfMemory> {
    let request = next_request(alloc, words)?;
    let point = point(alloc, next_word(words))?;
    only_at(alloc, graph, &request, &point)
}
