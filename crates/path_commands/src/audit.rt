//! `audit`: how the wanted paths stand at present costs.
ghost use Rattle.std.specs.Prelude.{◌≡◌, ◌<◌, ◌↔◌, ℕ, List, [], IfOk, IsTrue};
ghost use Rattle.std.specs.List.{AllZip};
ghost use Rattle.area_graph.specs.Costs.{FitsPoint, IsOnlyCheapest, at_costs, cost};
ghost use Rattle.area_graph.specs.Paths.{IsPathOf};
ghost use Rattle.spf_ties.specs.Distances.{IsRoomFor, IsLeastOfPaths};
ghost use Rattle.design_problem.specs.Problems.{request_ends};
ghost use Rattle.input_files.specs.Readings.{Gave};
ghost use Rattle.input_files.specs.Outcomes.{outcome};
ghost use Rattle.input_files.specs.Stops.{IsReadAs, files_named};
ghost use Rattle.path_commands.specs.Audits.{IsAudited, MayAudit, ReportsAudit, audit_line, audit_lines, standing_by, standing_word};
ghost use Rattle.report_writer.specs.Reports.{bytes_in};

use area_graph::{Graph, Point, empty_point, path_cost};
use cost_base::{OutOfMemory, Shelf, Status};
use design_problem::{Problem, Request};
use input_files::{FileWords, Stop, View, read_problem};
use line_builder::LineBuilder;
use report_writer::Report;
use rival_separation::find_rival;
use spf_ties::Room;
use std::alloc::Global;
use text_lines::push_bytes;

/// How a wanted path stands among the simple paths of its request.
#[derive(Clone, Copy, Debug, PartialEq, Eq)]
pub(crate) enum Standing {
    /// Every other costs more.
    Only,
    /// None costs less, and another costs as much.
    Tied,
    /// Another costs less.
    Beaten,
}

/// What is found of a wanted path: its cost, the least cost of all simple paths of its request, and how it stands.
#[derive(Clone, Copy, Debug, PartialEq, Eq)]
pub(crate) struct AuditedPath {
    pub cost: u128,
    pub least: u128,
    pub standing: Standing,
}

/// How a path stands by its cost, the least cost and whether it is the only cheapest.
fn standing_of(cost: u128, least: u128, only: bool) -> Standing
    ensures { result ≡ standing_by cost least only }
{
    if only {
        Standing::Only
    } else if cost == least {
        Standing::Tied
    } else {
        Standing::Beaten
    }
}

/// The least cost of all simple paths of a request, of which there is one.
fn least_of(graph: &Graph, request: &Request, point: &Point, room: &mut Room) -> u128
    requires room { IsRoomFor graph.now room.old }
    requires fits { FitsPoint graph.now point.now }
    requires path { IsPathOf graph.now (request_ends request.now) request.now.path.edges }
    ensures room { IsRoomFor graph.now room.new }
    ensures least { IsLeastOfPaths graph.now point.now (request_ends request.now) result }
{
    room.distances_without(graph, point, request.end, request.excluded.as_slice());
    match room.distance(request.path.start) {
        Some(least) => least,
        None => path_cost(graph, &request.path, point),
    }
}

/// Whether at whole costs every other simple path of the request costs more than the wanted one.
fn is_only(graph: &Graph, request: &Request, point: &Point, room: &mut Room) -> bool
    // The costs are whole, and the point and the room are ones for the graph.
    requires whole { point.now.scale ≡ 1 }
    requires room { IsRoomFor graph.now room.old }
    requires fits { FitsPoint graph.now point.now }

    // The wanted path is a simple path of its request.
    requires path { IsPathOf graph.now (request_ends request.now) request.now.path.edges }

    // On true no other path of the request is as cheap, and the room may be used again.
    ensures room { IsRoomFor graph.now room.new }
    ensures only { IsTrue result ↔ IsOnlyCheapest graph.now point.now (request_ends request.now)
        request.now.path.edges }
{
    !find_rival(graph, request, point, room)
}

/// What is found of a wanted path.
pub(crate) fn audited(
    graph: &Graph,
    request: &Request,
    point: &Point,
    room: &mut Room,
) -> AuditedPath
    // No cost of the graph is a variable's, and the room is one for the graph.
    requires room { IsRoomFor graph.now room.old }
    requires point { point.now ≡ at_costs [] }
    requires fits { FitsPoint graph.now point.now }

    // The wanted path is a simple path of its request.
    requires path { IsPathOf graph.now (request_ends request.now) request.now.path.edges }

    // Its cost, the least cost and how it stands are told, and the room may be used again.
    ensures room { IsRoomFor graph.now room.new }
    ensures found { IsAudited graph.now request.now result }
{
    let cost = path_cost(graph, &request.path, point);
    let least = least_of(graph, request, point, room);
    let only = is_only(graph, request, point, room);
    AuditedPath {
        cost,
        least,
        standing: standing_of(cost, least, only),
    }
}

/// What is found of the wanted paths of a problem without variables, in a room for its graph.
fn audit_in(
    alloc: Global,
    problem: &Problem,
    room: &mut Room,
) -> Result<Vec<AuditedPath>, OutOfMemory>
    requires low { problem.now.low ≡ [] }
    requires room { IsRoomFor problem.now.graph room.old }
    ensures { IfOk result (λ found. AllZip (IsAudited problem.now.graph) problem.now.requests
        found.items) }
{
    let point = empty_point(alloc);
    let mut found = Vec::new(alloc);
    for request in problem.requests.as_slice() {
        let path = audited(&problem.graph, request, &point, room);
        found.push(path)?;
    }
    Ok(found)
}

/// What is found of the wanted paths of a problem without variables.
fn audit(alloc: Global, problem: &Problem) -> Result<Vec<AuditedPath>, OutOfMemory>
    requires { problem.now.low ≡ [] }
    ensures { IfOk result (λ found. AllZip (IsAudited problem.now.graph) problem.now.requests
        found.items) }
{
    let mut room = Room::new(alloc, &problem.graph)?;
    let found = audit_in(alloc, problem, &mut room);
    // For the prover alone: a call drops the room, so that its parts' drops aren't written out at each exit.
    drop(room);
    found
}

/// The word of a standing.
fn word_of(standing: Standing) -> &'static [u8]
    ensures { result.now ≡ standing_word standing }
{
    match standing {
        Standing::Only => b"only",
        Standing::Tied => b"tied",
        Standing::Beaten => b"beaten",
    }
}

/// The line of a path by its number, with its LF.
pub(crate) fn line_of(
    alloc: Global,
    number: usize,
    path: AuditedPath,
) -> Result<Vec<u8>, OutOfMemory>
    ensures { IfOk result (λ line. line.items ≡ audit_line number path) }
{
    let mut line = LineBuilder::new(alloc, b"path")?;
    line.number(number as u128)?;
    line.word(b"cost")?;
    line.number(path.cost)?;
    line.word(b"least")?;
    line.number(path.least)?;
    line.word(word_of(path.standing))?;
    line.ended()
}

/// The text of an audit: a line for each path.
fn audit_text(alloc: Global, paths: &[AuditedPath]) -> Result<Vec<u8>, OutOfMemory>
    ensures { IfOk result (λ text. text.items ≡ audit_lines 0 paths.now) }
{
    let mut text = Vec::new(alloc);
    for (number, path) in paths.iter().enumerate() {
        let line = line_of(alloc, number, *path)?;
        push_bytes(&mut text, &line)?;
    }
    Ok(text)
}

/// The report of an audit of a problem without variables.
fn report_of_audit(alloc: Global, problem: &Problem) -> Result<Report, OutOfMemory>
    requires { problem.now.low ≡ [] }
    ensures { IfOk result (λ report. ReportsAudit report problem.now) }
{
    let found = audit(alloc, problem)?;
    let text = audit_text(alloc, &found)?;
    Ok(Report::made(Status::Done, text))
}

/// The report of an audit of the files of words: a line for each wanted path.
///
/// # Errors
///
/// `Stop`: a file failed or is too long, or the input has a fault; want of memory.
pub fn audit_report<'a, S: Shelf>(
    alloc: Global,
    words: FileWords<'a>,
    shelf: &mut S,
) -> Result<Report, Stop<'a>>
    ensures { Gave (S.gave shelf.old shelf.new) (λ came. IsReadAs
        (outcome View.AtPresent (files_named words.entry)) came
        (λ report d. MayAudit d report.status (bytes_in report.text)) result) }
{
    let problem = read_problem(alloc, View::AtPresent, words, shelf)?;
    let report = report_of_audit(alloc, &problem);
    // For the prover alone: a call drops the problem, so that its parts' drops aren't written out at each exit.
    drop(problem);
    Ok(report?)
}
