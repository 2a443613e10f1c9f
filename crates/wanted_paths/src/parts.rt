//! Resolves what a wanted path excludes.
ghost use Rattle.std.specs.Prelude.{◌≡◌, ◌+◌, ◌^◌, ◌<◌, ◌==◌, ◌++◌, [], Some, false, filter, length, slice_get, IfOk, IfErr, OnOk};
ghost use Rattle.std.specs.List.{list_any};
ghost use Rattle.cost_base.specs.Lists.{first_of, numbers_from};
ghost use Rattle.cost_base.specs.Marks.{is_marked, numbers_marked};
ghost use Rattle.area_graph.specs.Area.{edge_at, edges_out, edges_in};
ghost use Rattle.lsdb_build.specs.Graphs.{IsFar};
ghost use Rattle.wanted_paths.specs.LineFaults.{part_faults, parts_faults, is_router_part, TellsResolution};
ghost use Rattle.wanted_paths.specs.Paths.{outline};
ghost use Rattle.wanted_paths.specs.Excluded.{excluded_from, excluded_by_link, excluded_at, excluded_by, excluded_by_all};

use crate::ResolutionFault;
use crate::names::Names;
use crate::routes::subnet_vertex;
use area_graph::{Graph, far_end};
use cost_base::{OutOfMemory, Refusal, is_marked, push_if, push_last, push_some};
use lsdb_build::{Far, Linked};
use request_reader::Excluded;
use std::alloc::Global;

/// Appends those of some edges that end at a vertex.
fn push_into(
    graph: &Graph,
    edges: &[u32],
    vertex: u32,
    excluded: &mut Vec<u32>,
) -> Result<(), OutOfMemory>
    ensures { OnOk result (excluded.new.items ≡ excluded.old.items ++
        filter (λ e. (edge_at graph.now e).to == vertex) edges.now) }
{
    for edge in edges {
        push_if(excluded, *edge, far_end(graph, *edge) == vertex)?;
    }
    Ok(())
}

/// Appends the edge from a transit subnet to a router, where a link of the router leads there.
fn push_from(
    names: &Names,
    graph: &Graph,
    router: u32,
    far: Far,
    excluded: &mut Vec<u32>,
) -> Result<(), OutOfMemory>
    requires graph { graph.now ≡ outline names.now }
    requires far { IsFar names.now far }
    ensures { OnOk result (excluded.new.items ≡ excluded.old.items ++
        excluded_from names.now graph.now router far) }
{
    match far {
        Far::Router(_) => Ok(()),
        Far::Subnet(subnet) => {
            let out = graph.edges_out(subnet_vertex(names, subnet));
            push_into(graph, out, router, excluded)
        }
    }
}

/// Appends the edges of a link in both directions.
fn push_link(
    names: &Names,
    graph: &Graph,
    number: u32,
    link: &Linked,
    excluded: &mut Vec<u32>,
) -> Result<(), OutOfMemory>
    requires graph { graph.now ≡ outline names.now }
    requires far { IsFar names.now link.now.to }
    ensures { OnOk result (excluded.new.items ≡ excluded.old.items ++
        excluded_by_link names.now graph.now number link.now) }
{
    push_last(excluded, number)?;
    push_some(excluded, link.link_back)?;
    push_from(names, graph, link.router, link.to, excluded)
}

/// Appends the edges of the link of a number in both directions.
fn push_interface(
    names: &Names,
    graph: &Graph,
    number: u32,
    excluded: &mut Vec<u32>,
) -> Result<(), OutOfMemory>
    requires { graph.now ≡ outline names.now }
    ensures { OnOk result (excluded.new.items ≡ excluded.old.items ++
        excluded_at names.now graph.now number (slice_get names.now.links number)) }
{
    match names.links().get(number as usize) {
        Some(link) => push_link(names, graph, number, link, excluded),
        None => Ok(()),
    }
}

/// Appends the edges out of a vertex and those into it.
fn push_router(graph: &Graph, vertex: u32, excluded: &mut Vec<u32>) -> Result<(), OutOfMemory>
    requires { vertex < length graph.now.vertices }
    ensures { OnOk result (excluded.new.items ≡ excluded.old.items ++
        (edges_out graph.now vertex ++ edges_in graph.now vertex)) }
{
    excluded.extend_from_slice(graph.edges_out(vertex))?;
    excluded.extend_from_slice(graph.edges_in(vertex))?;
    Ok(())
}

/// Appends the edges that a part excludes; the line's fault where a word of it is unknown.
fn push_part(
    names: &Names,
    graph: &Graph,
    line: u32,
    part: &Excluded,
    excluded: &mut Vec<u32>,
) -> Result<(), Refusal<ResolutionFault, ()>>
    requires { graph.now ≡ outline names.now }
    ensures made { OnOk result (part_faults names.now line part.now ≡ []) }
    ensures excluded { OnOk result (excluded.new.items ≡ excluded.old.items ++
        excluded_by names.now graph.now part.now) }
    ensures refused { IfErr result
        (TellsResolution (first_of (part_faults names.now line part.now))) }
{
    match part {
        Excluded::Router(name) => {
            let router = names.router(line, name.as_bytes())?;
            push_router(graph, router, excluded)?;
        }
        Excluded::Interface(router, interface) => {
            let number = names.link(line, router.as_bytes(), interface.as_bytes())?;
            push_interface(names, graph, number, excluded)?;
        }
    }
    Ok(())
}

/// The edges that parts exclude, each maybe several times; the line's fault at the first unknown word.
pub fn excluded_by(
    alloc: Global,
    names: &Names,
    graph: &Graph,
    line: u32,
    parts: &[Excluded],
) -> Result<Vec<u32>, Refusal<ResolutionFault, ()>>
    requires { graph.now ≡ outline names.now }
    ensures made { IfOk result (λ excluded. (parts_faults names.now line parts.now ≡ []) ×
        (excluded.items ≡ excluded_by_all names.now graph.now parts.now)) }
    ensures refused { IfErr result
        (TellsResolution (first_of (parts_faults names.now line parts.now))) }
{
    let mut excluded = Vec::new(alloc);
    for part in parts {
        push_part(names, graph, line, part, &mut excluded)?;
    }
    Ok(excluded)
}

/// Whether a part is the router of a name.
fn is_router_part(name: &[u8], part: &Excluded) -> bool
    ensures { result ≡ is_router_part name.now part.now }
{
    match part {
        Excluded::Router(router) => router.as_bytes() == name,
        Excluded::Interface(_, _) => false,
    }
}

/// Whether one of the parts is the router of a name.
pub fn has_router(name: &[u8], parts: &[Excluded]) -> bool
    ensures { result ≡ list_any (is_router_part name.now) parts.now }
{
    parts.iter().any(|part| is_router_part(name, part))
}

/// Whether one of some edges is marked.
pub fn has_marked(marks: &[bool], edges: &[u32]) -> bool
    ensures { result ≡ list_any (is_marked marks.now) edges.now }
{
    edges.iter().any(|edge| is_marked(marks, *edge as usize))
}

/// The numbers of the marked edges, in rising order.
pub fn marked(alloc: Global, marks: &[bool]) -> Result<Vec<u32>, OutOfMemory>
    requires { length marks.now < 2 ^ 32 }
    ensures { IfOk result (λ found. found.items ≡ numbers_marked marks.now) }
{
    let mut found = Vec::new(alloc);
    for edge in 0..marks.len() as u32 {
        push_if(&mut found, edge, is_marked(marks, edge as usize))?;
    }
    Ok(found)
}
