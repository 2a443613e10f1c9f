//! `route`: the least cost between two routers of a file of LSAs, and the first hops.
ghost use Rattle.std.specs.Prelude.{◌≡◌, ◌==◌, ◌<◌, [], true, IfOk, codes, length};
ghost use Rattle.std.specs.List.{list_any};
ghost use Rattle.area_graph.specs.Costs.{FitsPoint, at_costs};
ghost use Rattle.spf_ties.specs.Distances.{IsRoomFor};
ghost use Rattle.input_files.specs.Readings.{Gave};
ghost use Rattle.input_files.specs.Stops.{IsReadAs};
ghost use Rattle.lsa_bytes.specs.AreaGraphs.{lsa_graph};
ghost use Rattle.lsa_bytes.specs.Databases.{is_router_of};
ghost use Rattle.database_commands.specs.Found.{EndsBy, IsFoundEnd, end_by};
ghost use Rattle.database_commands.specs.Routes.{IsRoute, MayRoute, route_read, vertex_ids, vertex_of_router};
ghost use Rattle.report_writer.specs.Reports.{bytes_in};

use crate::hops::RoutedGraph;
use crate::routers::check_router;
use crate::vertices::{vertex_ids, vertex_of};
use area_graph::{Graph, empty_point};
use cost_base::{OutOfMemory, Shelf, Status};
use input_files::Stop;
use line_builder::LineBuilder;
use live_input::read_database;
use lsa_bytes::{LsaDatabase, graph_of_lsas};
use report_writer::Report;
use spf_ties::Room;
use std::alloc::Global;

/// What is found of a route that doesn't end where it starts: `cost C first X ..`, or `unreachable`.
fn end_of_route(alloc: Global, routed: &RoutedGraph, start: u32) -> Result<LineBuilder, OutOfMemory>
    requires room { IsRoomFor routed.now.graph.now routed.now.room.now }
    requires fits { FitsPoint routed.now.graph.now routed.now.point.now }
    requires start { start < length routed.now.graph.now.vertices }
    ensures { IfOk result (λ words. words ≡ end_by routed.now.graph.now routed.now.point.now
        routed.now.room.now routed.now.ids.now start) }
{
    match routed.room.distance(start) {
        Some(cost) => {
            let mut words = LineBuilder::new(alloc, b"cost")?;
            words.number(cost)?;
            words.word(b"first")?;
            routed.push_hops(&mut words, start)?;
            Ok(words)
        }
        None => LineBuilder::new(alloc, b"unreachable"),
    }
}

/// What is found of a route between two routers of a graph, of which the vertices are named so.
fn route_end(
    alloc: Global,
    graph: &Graph,
    ids: &[u32],
    start: u32,
    end: u32,
) -> Result<LineBuilder, OutOfMemory>
    requires fits { FitsPoint graph.now (at_costs []) }
    requires start { start < length graph.now.vertices }
    requires end { end < length graph.now.vertices }
    ensures { IfOk result (λ words. EndsBy graph.now ids.now start end words) }
{
    let point = empty_point(alloc);
    let mut room = Room::new(alloc, graph)?;
    room.distances_to(graph, &point, end);
    let routed = RoutedGraph {
        graph,
        point: &point,
        room: &room,
        ids,
    };
    let words = end_of_route(alloc, &routed, start)?;
    Ok(words)
}

/// Whether a route ends where it starts.
fn is_same(from: u32, to: u32) -> bool
    ensures { result ≡ (from == to) }
{
    from == to
}

/// What is found of a route from a router to itself.
fn own_end(alloc: Global) -> Result<LineBuilder, OutOfMemory>
    ensures { IfOk result (λ words. words ≡ codes "cost 0 first none") }
{
    LineBuilder::new(alloc, b"cost 0 first none")
}

/// What is found of a route between two routers of a database by their vertices.
fn routed_end(
    alloc: Global,
    database: &LsaDatabase,
    from: u32,
    to: u32,
) -> Result<LineBuilder, OutOfMemory>
    requires from { list_any (is_router_of from) database.now ≡ true }
    requires to { list_any (is_router_of to) database.now ≡ true }
    ensures { IfOk result (λ words. EndsBy (lsa_graph database.now) (vertex_ids database.now)
        (vertex_of_router database.now from) (vertex_of_router database.now to) words) }
{
    let lsas = database.as_slice();
    let graph = graph_of_lsas(alloc, database)?;
    let ids = vertex_ids(alloc, lsas)?;
    let (start, end) = (vertex_of(lsas, from), vertex_of(lsas, to));
    route_end(alloc, &graph, &ids, start, end)
}

/// What is found of a route between two routers of a database.
fn found_end(
    alloc: Global,
    database: &LsaDatabase,
    from: u32,
    to: u32,
) -> Result<LineBuilder, OutOfMemory>
    requires from { list_any (is_router_of from) database.now ≡ true }
    requires to { list_any (is_router_of to) database.now ≡ true }
    ensures { IfOk result (λ words. IsFoundEnd database.now from to words) }
{
    let words = routed_end(alloc, database, from, to)?;
    if is_same(from, to) {
        let own = own_end(alloc)?;
        return Ok(own);
    }
    Ok(words)
}

/// The line of a route between two routers of a database.
fn route_line(
    alloc: Global,
    database: &LsaDatabase,
    from: u32,
    to: u32,
) -> Result<Vec<u8>, OutOfMemory>
    requires from { list_any (is_router_of from) database.now ≡ true }
    requires to { list_any (is_router_of to) database.now ≡ true }
    ensures { IfOk result (λ line. IsRoute from to database.now line.items) }
{
    let end = found_end(alloc, database, from, to)?;
    let mut line = LineBuilder::new(alloc, b"from")?;
    line.quad(from)?;
    line.word(b"to")?;
    line.quad(to)?;
    line.word(end.as_bytes())?;
    line.ended()
}

/// The report of the route from a router to another, named by their router IDs, in a file of LSAs.
///
/// # Errors
///
/// `Stop`: the file failed or is too long, or its LSAs have a fault, with its offset as the line; a router has no
/// router-LSA, with the line 0 for the one to start from and 1 for the one to go to; want of memory.
pub fn route_report<'a, S: Shelf>(
    alloc: Global,
    lsas: &'a str,
    from: u32,
    to: u32,
    shelf: &mut S,
) -> Result<Report, Stop<'a>>
    ensures { Gave (S.gave shelf.old shelf.new) (λ came. IsReadAs (route_read lsas.now from to) came
        (λ report said. MayRoute from to said report.status (bytes_in report.text)) result) }
{
    let database = read_database(alloc, shelf, lsas)?;
    check_router(database.as_slice(), from, lsas, 0)?;
    check_router(database.as_slice(), to, lsas, 1)?;
    let line = route_line(alloc, &database, from, to)?;
    Ok(Report::made(Status::Done, line))
}
