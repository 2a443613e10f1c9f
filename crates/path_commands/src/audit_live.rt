//! `audit --live`: how the wanted paths stand at the costs at which the area runs.
ghost use Rattle.std.specs.Prelude.{◌≡◌, ◌<◌, ◌↔◌, [], IfOk, IsTrue, length};
ghost use Rattle.std.specs.List.{AllZip};
ghost use Rattle.area_graph.specs.Costs.{FitsPoint, at_costs};
ghost use Rattle.area_graph.specs.Paths.{Avoids, IsPathOf};
ghost use Rattle.spf_ties.specs.Distances.{IsLeastCost, IsRoomFor};
ghost use Rattle.design_problem.specs.Problems.{request_ends};
ghost use Rattle.input_files.specs.Layouts.{IsLayoutOf, LaidOut};
ghost use Rattle.input_files.specs.Outcomes.{problem_read};
ghost use Rattle.input_files.specs.Readings.{Gave};
ghost use Rattle.input_files.specs.Stops.{IsReadAs, files_named};
ghost use Rattle.path_commands.specs.LiveAudits.{IsFoundLive, MayAuditLive, ReportsLive, edges_of_links, left_without, live_audit_read, live_line, live_lines, running_read};
ghost use Rattle.report_writer.specs.Reports.{bytes_in};

use crate::audit::{AuditedPath, audited, line_of};
use crate::link_edges::edges_of_links;
use area_graph::{Exclusion, Graph, Path, Point, empty_point, mark_excluded};
use cost_base::{Listed, OutOfMemory, Shelf, Status, no_marks};
use design_problem::{Problem, Request};
use input_files::{FileWords, Layout, Stop, View, read_layout, resolution_at_present};
use line_builder::LineBuilder;
use live_area::{RunningArea, running_area};
use live_input::read_live_file;
use lsa_bytes::LsaDatabase;
use report_writer::Report;
use request_reader::RequestFile;
use spf_ties::Room;
use std::alloc::Global;
use text_lines::push_bytes;

/// What is found of a wanted path in an area of which edges are excluded.
#[derive(Clone, Copy, Debug, PartialEq, Eq)]
pub(crate) enum LivePath {
    /// No edge of it is excluded: how it stands in what is left.
    Stands(AuditedPath),
    /// An edge of it is excluded: the least cost of its request in what is left, if it has a path there.
    Gone(Option<u128>),
}

/// Whether none of the edges is excluded.
fn is_left(exclusion: &Exclusion<'_>, edges: &[u32]) -> bool
    ensures { IsTrue result ↔ Avoids exclusion.now edges.now }
{
    for edge in edges {
        if !exclusion.leaves(*edge) {
            return false;
        }
    }
    true
}

/// A request that excludes these edges too.
fn left_without(
    alloc: Global,
    exclusion: &Exclusion<'_>,
    request: &Request,
) -> Result<Request, OutOfMemory>
    ensures { IfOk result (λ left. left ≡ left_without exclusion.now request.now) }
{
    let mut excluded = Vec::from_slice(alloc, request.excluded.as_slice())?;
    excluded.extend_from_slice(exclusion.excluded)?;
    Ok(Request {
        path: Path {
            start: request.path.start,
            edges: request.path.edges.copy(alloc)?,
        },
        end: request.end,
        excluded: Listed::from_items(excluded),
    })
}

/// The least cost of the simple paths of a request, None where it has none.
fn least_left(graph: &Graph, request: &Request, point: &Point, room: &mut Room) -> Option<u128>
    // The point and the room are ones for the graph.
    requires room { IsRoomFor graph.now room.old }
    requires fits { FitsPoint graph.now point.now }

    // Both ends of the request are vertices of the graph, maybe without a path between them.
    requires start { request.now.path.start < length graph.now.vertices }
    requires end { request.now.end < length graph.now.vertices }

    // None tells that the request has no path left, and the room may be used again.
    ensures room { IsRoomFor graph.now room.new }
    ensures least { IsLeastCost graph.now point.now (request_ends request.now) result }
{
    room.distances_without(graph, point, request.end, request.excluded.as_slice());
    room.distance(request.path.start)
}

/// What is found of a wanted path where edges are excluded.
fn found_live(
    alloc: Global,
    graph: &Graph,
    exclusion: &Exclusion<'_>,
    request: &Request,
    room: &mut Room,
) -> Result<LivePath, OutOfMemory>
    requires room { IsRoomFor graph.now room.old }
    requires fits { FitsPoint graph.now (at_costs []) }
    requires path { IsPathOf graph.now (request_ends request.now) request.now.path.edges }
    ensures room { IsRoomFor graph.now room.new }
    ensures found { IfOk result (IsFoundLive graph.now exclusion.now request.now) }
{
    let point = empty_point(alloc);
    let left = left_without(alloc, exclusion, request)?;
    if is_left(exclusion, request.path.edges.as_slice()) {
        Ok(LivePath::Stands(audited(graph, &left, &point, room)))
    } else {
        Ok(LivePath::Gone(least_left(graph, &left, &point, room)))
    }
}

/// What is found of the wanted paths of a problem without variables where edges are excluded, in a room for its graph.
fn audit_left_in(
    alloc: Global,
    problem: &Problem,
    exclusion: &Exclusion<'_>,
    room: &mut Room,
) -> Result<Vec<LivePath>, OutOfMemory>
    requires low { problem.now.low ≡ [] }
    requires room { IsRoomFor problem.now.graph room.old }
    ensures { IfOk result (λ found. AllZip (IsFoundLive problem.now.graph exclusion.now)
        problem.now.requests found.items) }
{
    let mut found = Vec::new(alloc);
    for request in problem.requests.as_slice() {
        found.push(found_live(alloc, &problem.graph, exclusion, request, room)?)?;
    }
    Ok(found)
}

/// What is found of the wanted paths of a problem without variables where edges are excluded.
fn audit_left(
    alloc: Global,
    problem: &Problem,
    exclusion: &Exclusion<'_>,
) -> Result<Vec<LivePath>, OutOfMemory>
    requires { problem.now.low ≡ [] }
    ensures { IfOk result (λ found. AllZip (IsFoundLive problem.now.graph exclusion.now)
        problem.now.requests found.items) }
{
    let mut room = Room::new(alloc, &problem.graph)?;
    let found = audit_left_in(alloc, problem, exclusion, &mut room);
    // For the prover alone: a call drops the room, so that its parts' drops aren't written out at each exit.
    drop(room);
    found
}

/// What is found of the wanted paths of a problem at the costs at which an area runs.
fn audit_running(
    alloc: Global,
    problem: &Problem,
    running: &RunningArea,
) -> Result<Vec<LivePath>, OutOfMemory>
    requires { problem.now.low ≡ [] }
    ensures { IfOk result
        (λ found.
        AllZip
        (IsFoundLive problem.now.graph (edges_of_links running.now.lsdb problem.now.graph
        running.now.missing.items)) problem.now.requests found.items) }
{
    let edges = edges_of_links(alloc, &running.lsdb, &problem.graph, &running.missing)?;
    let mut marks = no_marks(alloc, problem.graph.edges().len())?;
    mark_excluded(&mut marks, &edges);
    let exclusion = Exclusion {
        excluded: &edges,
        marks: &marks,
    };
    audit_left(alloc, problem, &exclusion)
}

/// The line of a path, by its number, of which an edge is excluded.
fn gone_line(alloc: Global, number: usize, least: Option<u128>) -> Result<Vec<u8>, OutOfMemory>
    ensures { IfOk result (λ line. line.items ≡ live_line number (LivePath.Gone least)) }
{
    let mut line = LineBuilder::new(alloc, b"path")?;
    line.number(number as u128)?;
    line.word(b"gone")?;
    match least {
        Some(least) => {
            line.word(b"least")?;
            line.number(least)?;
        }
        None => line.word(b"unreachable")?,
    }
    line.ended()
}

/// The line of a path by its number, with its LF.
fn live_line(alloc: Global, number: usize, path: LivePath) -> Result<Vec<u8>, OutOfMemory>
    ensures { IfOk result (λ line. line.items ≡ live_line number path) }
{
    match path {
        LivePath::Stands(path) => line_of(alloc, number, path),
        LivePath::Gone(least) => gone_line(alloc, number, least),
    }
}

/// The text of an audit of a running area: a line for each path.
fn live_text(alloc: Global, paths: &[LivePath]) -> Result<Vec<u8>, OutOfMemory>
    ensures { IfOk result (λ text. text.items ≡ live_lines 0 paths.now) }
{
    let mut text = Vec::new(alloc);
    for (number, path) in paths.iter().enumerate() {
        let line = live_line(alloc, number, *path)?;
        push_bytes(&mut text, &line)?;
    }
    Ok(text)
}

/// The area that a request file is for. For the prover: a call, so that the caller's goals have this part alone.
fn area_of(request_file: &RequestFile) -> u32
    ensures { result ≡ request_file.now.area }
{
    request_file.area
}

/// The report of what is found of the wanted paths of a problem at the costs at which an area runs.
fn report_of_left(
    alloc: Global,
    problem: &Problem,
    running: &RunningArea,
) -> Result<Report, OutOfMemory>
    requires { problem.now.low ≡ [] }
    ensures { IfOk result (λ report. ReportsLive running.now.lsdb running.now.missing.items report
        problem.now) }
{
    let found = audit_running(alloc, problem, running)?;
    let text = live_text(alloc, &found)?;
    Ok(Report::made(Status::Done, text))
}

/// The report of an audit of requests at the costs at which an area runs.
fn report_at<'a>(
    alloc: Global,
    request_file: &RequestFile,
    running: &RunningArea,
    words: FileWords<'a>,
) -> Result<Report, Stop<'a>>
    ensures { IsReadAs (problem_read View.AtPresent (files_named words.entry) request_file.now
        running.now.lsdb) [] (ReportsLive running.now.lsdb running.now.missing.items) result }
{
    let problem = resolution_at_present(alloc, request_file, &running.lsdb, words)?;
    let report = report_of_left(alloc, &problem, running);
    // For the prover alone: a call drops the problem, so that its parts' drops aren't written out at each exit.
    drop(problem);
    Ok(report?)
}

/// The report of an audit of the area of a layout at the costs of a running area.
fn report_of_running<'a>(
    alloc: Global,
    layout: Layout,
    live: &LsaDatabase,
    words: FileWords<'a>,
) -> Result<Report, Stop<'a>>
    ensures { (laid : LaidOut) → IsLayoutOf layout laid → IsReadAs
        (running_read (files_named words.entry) laid live.now) []
        (λ report said. MayAuditLive said report.status (bytes_in report.text)) result }
{
    let Layout {
        request_file,
        configs,
        lsdb,
    } = layout;
    let running = running_area(alloc, &configs, lsdb, live)?;
    let report = report_at(alloc, &request_file, &running, words);
    // For the prover alone: a call drops the area, so that its parts' drops aren't written out at each exit.
    drop(running);
    report
}

/// The report of an audit of an area as it runs: of the files of words, and then of the live file, which says the
/// metrics of the links that stand in place of present costs. The edges of a linked interface without a link are
/// excluded, in both directions. There is a line for each wanted path.
///
/// # Errors
///
/// `Stop`: a file failed or is too long, or the input has a fault; a linked interface has neither a link nor a cost;
/// want of memory.
pub fn audit_live_report<'a, S: Shelf>(
    alloc: Global,
    words: FileWords<'a>,
    live: &'a str,
    shelf: &mut S,
) -> Result<Report, Stop<'a>>
    ensures { Gave (S.gave shelf.old shelf.new) (λ came. IsReadAs
        (live_audit_read (files_named words.entry) live.now) came
        (λ report said. MayAuditLive said report.status (bytes_in report.text)) result) }
{
    let layout = read_layout(alloc, words, shelf)?;
    match read_live_file(alloc, shelf, live, area_of(&layout.request_file)) {
        Ok(lsas) => report_of_running(alloc, layout, &lsas, words),
        Err(stop) => {
            // For the prover alone: a call drops the layout, so that its parts' drops aren't written out at each exit.
            drop(layout);
            Err(stop)
        }
    }
}
