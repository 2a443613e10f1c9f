//! Lines of a script that ask for least costs, ties and next hops.

ghost use Rattle.std.specs.Prelude.{◌<◌, length};
ghost use Rattle.area_graph.specs.Costs.{FitsPoint};
ghost use Rattle.spf_ties.specs.Distances.{IsRoomFor};

use crate::networks::point;
use area_graph::{Graph, Point, point_fits};
use case_scripts::{Written, next_numbers, next_word};
use cost_base::OutOfMemory;
use spf_ties::{Aim, Room};
use std::alloc::{AllocError, Global};
use std::str::SplitWhitespace;

/// Adds the distance of each vertex.
fn add_costs(text: &mut String, graph: &Graph, room: &Room) -> Result<(), AllocError>
    requires { IsRoomFor graph.now room.now }
{
    graph.keeps_conditions();
    for vertex in 0..graph.vertices().len() {
        match room.distance(vertex as u32) {
            Some(cost) => write!(text, " {cost}")?,
            None => text.push_str(" none")?,
        }
    }
    Ok(())
}

/// The distance of each vertex.
fn costs_text(alloc: Global, graph: &Graph, room: &Room) -> Result<String, OutOfMemory>
    requires { IsRoomFor graph.now room.now }
{
    let mut text = String::from_str(alloc, ": costs")?;
    add_costs(&mut text, graph, room)?;
    Ok(text)
}

/// `room`: the distances before any search.
pub(crate) fn new_room_text(alloc: Global, graph: &Graph) -> Result<String, OutOfMemory> {
    let room = Room::new(alloc, graph)?;
    costs_text(alloc, graph, &room)
}

/// The edges that are tight.
fn tight_edges(
    alloc: Global,
    graph: &Graph,
    point: &Point,
    room: &Room,
) -> Result<Vec<u32>, AllocError>
    requires room { IsRoomFor graph.now room.now }
    requires fits { FitsPoint graph.now point.now }
{
    graph.keeps_conditions();
    let mut tight = Vec::new(alloc);
    for number in 0..graph.edges().len() {
        if room.tight(graph, point, number as u32) {
            tight.push(number as u32)?;
        }
    }
    Ok(tight)
}

/// The next hops of a vertex.
fn hops(
    alloc: Global,
    graph: &Graph,
    point: &Point,
    room: &Room,
    vertex: u32,
) -> Result<Vec<u32>, AllocError>
    requires room { IsRoomFor graph.now room.now }
    requires fits { FitsPoint graph.now point.now }
    requires vertex { vertex < length graph.now.vertices }
{
    let mut hops = Vec::new(alloc);
    for hop in room.next_hops(graph, point, vertex) {
        hops.push(hop)?;
    }
    Ok(hops)
}

/// Adds the next hops of each vertex.
fn add_hops(
    alloc: Global,
    text: &mut String,
    graph: &Graph,
    point: &Point,
    room: &Room,
) -> Result<(), AllocError>
    requires room { IsRoomFor graph.now room.now }
    requires fits { FitsPoint graph.now point.now }
{
    graph.keeps_conditions();
    for vertex in 0..graph.vertices().len() {
        let hops = hops(alloc, graph, point, room, vertex as u32)?;
        write!(text, " {}", Written(hops.as_slice()))?;
    }
    Ok(())
}

/// What is searched for at each point: the least costs to these targets where some edges are excluded, all of them or
/// those below a limit.
#[derive(Drop)]
struct Wanted {
    targets: Vec<u32>,
    excluded: Vec<u32>,
    limit: Option<u128>,
}

/// A search at a point of a graph.
#[derive(Clone, Copy)]
struct Search<'a> {
    graph: &'a Graph,
    point: &'a Point,
    wanted: &'a Wanted,
}

/// Searches for the least costs to a vertex.
fn find(room: &mut Room, search: &Search<'_>, target: u32)
    requires room { IsRoomFor search.now.graph.now room.old }
    requires fits { FitsPoint search.now.graph.now search.now.point.now }
    requires target { target < length search.now.graph.now.vertices }
    ensures { IsRoomFor search.now.graph.now room.new }
{
    let excluded = search.wanted.excluded.as_slice();
    if let Some(limit) = search.wanted.limit {
        let aim = Aim {
            target,
            excluded,
            limit,
        };
        room.distances_within(search.graph, search.point, &aim);
    } else if excluded.is_empty() {
        room.distances_to(search.graph, search.point, target);
    } else {
        room.distances_without(search.graph, search.point, target, excluded);
    }
}

/// Adds the edges that are tight.
fn add_tight(
    alloc: Global,
    text: &mut String,
    graph: &Graph,
    point: &Point,
    room: &Room,
) -> Result<(), AllocError>
    requires room { IsRoomFor graph.now room.now }
    requires fits { FitsPoint graph.now point.now }
{
    let tight = tight_edges(alloc, graph, point, room)?;
    write!(text, "; tight {}", Written(tight.as_slice()))
}

/// Adds what is found for a vertex.
fn add_found(
    alloc: Global,
    text: &mut String,
    search: &Search<'_>,
    room: &Room,
    target: u32,
) -> Result<(), AllocError>
    requires room { IsRoomFor search.now.graph.now room.now }
    requires fits { FitsPoint search.now.graph.now search.now.point.now }
{
    write!(text, "\n  to {target}: costs")?;
    add_costs(text, search.graph, room)?;
    add_tight(alloc, text, search.graph, search.point, room)?;
    text.push_str("; hops")?;
    add_hops(alloc, text, search.graph, search.point, room)
}

/// Searches for the least costs to a vertex, and adds what is found.
fn add_search(
    alloc: Global,
    text: &mut String,
    search: &Search<'_>,
    room: &mut Room,
    target: u32,
) -> Result<(), AllocError>
    requires room { IsRoomFor search.now.graph.now room.old }
    requires fits { FitsPoint search.now.graph.now search.now.point.now }
    ensures { IsRoomFor search.now.graph.now room.new }
{
    if search.graph.vertices().len() <= target as usize {
        return text.push_str("\n  no vertex");
    }
    find(room, search, target);
    add_found(alloc, text, search, room, target)
}

/// Searches for the least costs to each target, in one room.
fn add_searches(
    alloc: Global,
    text: &mut String,
    search: &Search<'_>,
    room: &mut Room,
) -> Result<(), AllocError>
    requires room { IsRoomFor search.now.graph.now room.old }
    requires fits { FitsPoint search.now.graph.now search.now.point.now }
    ensures { IsRoomFor search.now.graph.now room.new }
{
    for target in search.wanted.targets.as_slice() {
        add_search(alloc, text, search, room, *target)?;
    }
    Ok(())
}

/// What is found at the point of a word; nothing where the point doesn't fit the graph.
fn point_text(
    alloc: Global,
    graph: &Graph,
    wanted: &Wanted,
    room: &mut Room,
    word: &str,
) -> Result<String, AllocError>
    requires { IsRoomFor graph.now room.old }
    ensures { IsRoomFor graph.now room.new }
{
    let point = point(alloc, word)?;
    let mut text = String::new(alloc);
    if point_fits(graph, &point) {
        let search = Search {
            graph,
            point: &point,
            wanted,
        };
        add_searches(alloc, &mut text, &search, room)?;
    }
    Ok(text)
}

/// What is found at the points of these words in one room.
fn searches_in(
    alloc: Global,
    graph: &Graph,
    wanted: &Wanted,
    room: &mut Room,
    words: &mut SplitWhitespace<'_>,
) -> Result<String, OutOfMemory>
    requires { IsRoomFor graph.now room.old }
{
    let mut text = String::new(alloc);
    for word in words {
        text.push_str(point_text(alloc, graph, wanted, room, word)?.as_str())?;
    }
    Ok(text)
}

/// What is found at the points of these words. One room serves at all of them.
fn searches_text(
    alloc: Global,
    graph: &Graph,
    wanted: &Wanted,
    words: &mut SplitWhitespace<'_>,
) -> Result<String, OutOfMemory> {
    let mut room = Room::new(alloc, graph)?;
    searches_in(alloc, graph, wanted, &mut room, words)
}

/// What the words `TARGETS EXCLUDED` want, within a limit.
fn next_wanted(
    alloc: Global,
    words: &mut SplitWhitespace<'_>,
    limit: Option<u128>,
) -> Result<Wanted, AllocError> {
    Ok(Wanted {
        targets: next_numbers(alloc, words)?,
        excluded: next_numbers(alloc, words)?,
        limit,
    })
}

/// `search TARGETS EXCLUDED POINT ..`: the least costs to each target where some edges are excluded, the edges that are
/// tight, and the next hops of each vertex. `within LIMIT TARGETS EXCLUDED POINT ..`: the same of the least costs that
/// are below a limit.
pub(crate) fn search_text(
    alloc: Global,
    graph: &Graph,
    first: &str,
    words: &mut SplitWhitespace<'_>,
) -> Result<String, OutOfMemory> {
    let limit = match first {
        "within" => Some(next_word(words).parse::<u128>().unwrap_or(0)),
        _ => None,
    };
    let wanted = next_wanted(alloc, words, limit)?;
    searches_text(alloc, graph, &wanted, words)
}
