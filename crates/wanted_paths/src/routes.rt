//! Resolves the hops of a wanted path.
ghost use Rattle.std.specs.Prelude.{◌≡◌, ◌↔◌, ◌+◌, ◌<◌, ◌==◌, ◌++◌, [], ◌∷◌, ℕ, Some, false, Option, filter, length, option_to_list, slice_get, slice_index_or, IfOk, IfErr, OnOk};
ghost use Rattle.std.specs.Prelude.{IsTrue};
ghost use Rattle.std.specs.List.{list_any};
ghost use Rattle.cost_base.specs.Lists.{first_of};
ghost use Rattle.area_graph.specs.Area.{edge_at};
ghost use Rattle.area_graph.specs.Paths.{IsSimple};
ghost use Rattle.lsdb_build.specs.Graphs.{router_of, IsFar};
ghost use Rattle.wanted_paths.specs.Paths.{next_name, router_number, link_number, edge_between, hop_edges, route_edges};
ghost use Rattle.wanted_paths.specs.Resolution.{leads_to_router};
ghost use Rattle.wanted_paths.specs.LineFaults.{hop_faults, leads_on, broken_faults, walk_faults, TellsResolution};
ghost use Rattle.wanted_paths.specs.Paths.{outline};
ghost use Rattle.wanted_paths.specs.declared.fault.ResolutionFault.TheVariants.{BrokenPath};
ghost use Rattle.wanted_paths.specs.Walks.{IsWalk};

use crate::ResolutionFault;
use crate::names::Names;
use area_graph::{Graph, Path, far_end, is_simple};
use cost_base::{Listed, Name, OutOfMemory, Refusal, push_last, push_some};
use lsdb_build::{Far, Linked};
use request_reader::Hops;
use std::alloc::Global;

/// Whether a transit subnet has a member of that router.
fn has_member(names: &Names, subnet: u32, router: u32) -> bool
    ensures { result ≡ list_any (λ l. router_of names.now.links l == router)
        (slice_index_or names.now.subnets subnet []) }
{
    names
        .members(subnet)
        .iter()
        .any(|link| names.router_of(*link) == router)
}

/// Whether a link leads to a router, over a transit subnet where the router is a member.
fn leads_to_router(names: &Names, router: u32, link: &Linked) -> bool
    ensures { result ≡ leads_to_router names.now router (Some link.now) }
{
    match link.to {
        Far::Router(other) => other == router,
        Far::Subnet(subnet) => has_member(names, subnet, router),
    }
}

/// The name of the router that a route goes on from.
pub fn next_name<'a>(hops: &'a [(Name, Name)], last: &'a [u8]) -> &'a [u8]
    ensures { result.now ≡ next_name hops.now last.now }
{
    match hops.first() {
        Some(hop) => hop.0.as_bytes(),
        None => last,
    }
}

/// Looks up the words of a path, one by one.
fn check_words(
    names: &Names,
    line: u32,
    hops: &[(Name, Name)],
    last: &[u8],
) -> Result<(), Refusal<ResolutionFault, ()>>
    ensures made { OnOk result (hop_faults names.now line hops.now last.now ≡ []) }
    ensures refused { IfErr result
        (TellsResolution (first_of (hop_faults names.now line hops.now last.now))) }
{
    for hop in hops {
        names.link(line, hop.0.as_bytes(), hop.1.as_bytes())?;
    }
    names.router(line, last)?;
    Ok(())
}

/// Whether a hop leads to the router of a name.
fn leads_on(names: &Names, hop: &(Name, Name), next: &[u8]) -> bool
    ensures { result ≡ leads_on names.now hop.now next.now }
{
    let number = names.link_number(hop.0.as_bytes(), hop.1.as_bytes());
    match names.links().get(number as usize) {
        Some(link) => leads_to_router(names, names.router_number(next), link),
        None => false,
    }
}

/// The refusal of the hop at a place, which is counted from 1.
fn broken(line: u32, place: usize) -> Refusal<ResolutionFault, ()>
    ensures { TellsResolution (Some (BrokenPath line (place + 1))) result }
{
    if place >= u32::MAX as usize {
        return Refusal::OutOfMemory;
    }
    let hop = place as u32 + 1;
    Refusal::at((), ResolutionFault::BrokenPath { line, hop })
}

/// Whether each hop leads to the router of the next word; the number of the first one that doesn't. A hop
/// whose number passes 32 bits is answered as want of memory, since so many can't be held.
fn check_hops(
    names: &Names,
    line: u32,
    hops: &[(Name, Name)],
    last: &[u8],
) -> Result<(), Refusal<ResolutionFault, ()>>
    ensures made { OnOk result (broken_faults names.now line 1 hops.now last.now ≡ []) }
    ensures refused { IfErr result
        (TellsResolution (first_of (broken_faults names.now line 1 hops.now last.now))) }
{
    for (i, hop) in hops.iter().enumerate() {
        if !leads_on(names, hop, next_name(&hops[i + 1..], last)) {
            return Err(broken(line, i));
        }
    }
    Ok(())
}

/// The first of some edges that ends at a vertex.
fn first_into(graph: &Graph, edges: &[u32], vertex: u32) -> Option<u32>
    ensures { result ≡ first_of (filter (λ e. (edge_at graph.now e).to == vertex) edges.now) }
{
    for edge in edges {
        if far_end(graph, *edge) == vertex {
            return Some(*edge);
        }
    }
    None
}

/// The edge out of a vertex to a router, 0 where there is none.
fn edge_to(graph: &Graph, from: u32, router: u32) -> u32
    requires { from < length graph.now.vertices }
    ensures { result ≡ edge_between graph.now from router }
{
    first_into(graph, graph.edges_out(from), router).unwrap_or(0)
}

/// The vertex of a transit subnet.
pub fn subnet_vertex(names: &Names, subnet: u32) -> u32
    requires { subnet < length names.now.subnets }
    ensures value { result ≡ length names.now.routers + subnet }
    ensures within { length names.now.routers + subnet < length (outline names.now).vertices }
{
    names.routers().len() as u32 + subnet
}

/// The edge of a hop over a transit subnet that leads on from there to the next router.
fn edge_on(names: &Names, graph: &Graph, link: &Linked, next: u32) -> Option<u32>
    requires graph { graph.now ≡ outline names.now }
    requires far { IsFar names.now link.now.to }
    ensures { (number : ℕ) → hop_edges names.now graph.now number (Some link.now) next ≡
        number ∷ option_to_list result }
{
    match link.to {
        Far::Router(_) => None,
        Far::Subnet(subnet) => Some(edge_to(graph, subnet_vertex(names, subnet), next)),
    }
}

/// Appends the edge of a link, and the one that leads on behind it.
fn push_edges(edges: &mut Vec<u32>, number: u32, on: Option<u32>) -> Result<(), OutOfMemory>
    ensures { OnOk result (edges.new.items ≡ edges.old.items ++ number ∷ option_to_list on) }
{
    push_last(edges, number)?;
    push_some(edges, on)
}

/// Appends the edges of a hop to the router of a name: over a transit subnet there are two.
fn push_hop(
    names: &Names,
    graph: &Graph,
    hop: &(Name, Name),
    next: &[u8],
    edges: &mut Vec<u32>,
) -> Result<(), OutOfMemory>
    requires { graph.now ≡ outline names.now }
    ensures { OnOk result (edges.new.items ≡ edges.old.items ++
        hop_edges names.now graph.now (link_number names.now hop.now.0 hop.now.1)
        (slice_get names.now.links (link_number names.now hop.now.0 hop.now.1))
        (router_number names.now next.now)) }
{
    let number = names.link_number(hop.0.as_bytes(), hop.1.as_bytes());
    match names.links().get(number as usize) {
        Some(link) => push_edges(
            edges,
            number,
            edge_on(names, graph, link, names.router_number(next)),
        ),
        None => Ok(()),
    }
}

/// The edges of a route, in order.
fn route_edges(
    alloc: Global,
    names: &Names,
    graph: &Graph,
    hops: &[(Name, Name)],
    last: &[u8],
) -> Result<Vec<u32>, OutOfMemory>
    requires { graph.now ≡ outline names.now }
    ensures { IfOk result (λ edges. edges.items ≡ route_edges names.now graph.now hops.now
        last.now) }
{
    let mut edges = Vec::new(alloc);
    for (i, hop) in hops.iter().enumerate() {
        let next = next_name(&hops[i + 1..], last);
        push_hop(names, graph, hop, next, &mut edges)?;
    }
    Ok(edges)
}

/// A path and the vertex where it ends.
#[derive(Drop)]
pub struct Walk {
    pub path: Path,
    pub end: u32,
}

/// The walk of a route as it is written, whether it resolves or not.
fn walk_of(alloc: Global, names: &Names, graph: &Graph, route: &Hops) -> Result<Walk, OutOfMemory>
    requires { graph.now ≡ outline names.now }
    ensures { IfOk result (IsWalk names.now route.now) }
{
    let hops = route.as_slice();
    let last = route.last().as_bytes();
    let edges = route_edges(alloc, names, graph, hops, last)?;
    Ok(Walk {
        path: Path {
            start: names.router_number(next_name(hops, last)),
            edges: Listed::from_items(edges),
        },
        end: names.router_number(last),
    })
}

/// Whether a walk is a simple path.
fn is_simple_walk(graph: &Graph, walk: &Walk) -> bool
    ensures { IsTrue result ↔ IsSimple graph.now walk.now.path.start walk.now.path.edges
        walk.now.end }
{
    is_simple(graph, &walk.path, walk.end)
}

/// The walk of a route; its first fault where it doesn't resolve.
pub fn resolve_walk(
    alloc: Global,
    names: &Names,
    graph: &Graph,
    line: u32,
    route: &Hops,
) -> Result<Walk, Refusal<ResolutionFault, ()>>
    requires { graph.now ≡ outline names.now }
    ensures made { IfOk result (λ walk. (walk_faults names.now line route.now ≡ []) ×
        IsWalk names.now route.now walk) }
    ensures refused { IfErr result
        (TellsResolution (first_of (walk_faults names.now line route.now))) }
{
    // For the prover: what an area's type keeps is known once its links are read.
    let _links = names.links();
    let hops = route.as_slice();
    let last = route.last().as_bytes();
    check_words(names, line, hops, last)?;
    check_hops(names, line, hops, last)?;
    let walk = walk_of(alloc, names, graph, route)?;
    if !is_simple_walk(graph, &walk) {
        return Err(Refusal::at((), ResolutionFault::LoopPath { line }));
    }
    Ok(walk)
}
