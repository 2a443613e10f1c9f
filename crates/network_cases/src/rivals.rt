//! Lines of a script that ask for the cheapest rival of a path.
ghost use Rattle.area_graph.specs.Costs.{FitsPoint};
ghost use Rattle.area_graph.specs.Paths.{IsPathOf};
ghost use Rattle.design_problem.specs.Problems.{request_ends};
ghost use Rattle.spf_ties.specs.Distances.{IsRoomFor};

use crate::networks::{point, said};
use crate::paths::next_request;
use area_graph::{Graph, Point, is_path_of, point_fits};
use case_scripts::{Written, next_word};
use cost_base::OutOfMemory;
use design_problem::Request;
use rival_separation::{Rival, cheapest_rival};
use spf_ties::Room;
use std::alloc::Global;
use std::str::SplitWhitespace;

/// The cheapest rival of a request's path, found in a room.
fn rival_in(
    alloc: Global,
    graph: &Graph,
    point: &Point,
    request: &Request,
    room: &mut Room,
) -> Result<String, OutOfMemory>
    requires room { IsRoomFor graph.now room.old }
    requires fits { FitsPoint graph.now point.now }
    requires path { IsPathOf graph.now (request_ends request.now) request.now.path.edges }
{
    match cheapest_rival(graph, request, point, room) {
        Rival::Free => said(alloc, ": free"),
        Rival::Cheaper(edges) => Ok(format!(in alloc; ": cheaper {}", Written(edges))?),
    }
}

/// The cheapest rival of a request's path, where it is one.
fn rival_of(
    alloc: Global,
    graph: &Graph,
    point: &Point,
    request: &Request,
) -> Result<String, OutOfMemory> {
    let excluded = request.excluded.as_slice();
    if !point_fits(graph, point) || !is_path_of(graph, &request.path, request.end, excluded) {
        return said(alloc, ": unfit");
    }
    let mut room = Room::new(alloc, graph)?;
    rival_in(alloc, graph, point, request, &mut room)
}

/// `rival START END EDGES EXCLUDED POINT`: the cheapest rival of a path where some edges are excluded.
pub(crate) fn rival_text(
    alloc: Global,
    graph: &Graph,
    words: &mut SplitWhitespace<'_>,
) -> Result<String, OutOfMemory> {
    let request = next_request(alloc, words)?;
    let point = point(alloc, next_word(words))?;
    rival_of(alloc, graph, &point, &request)
}
