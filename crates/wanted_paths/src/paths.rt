//! Resolves wanted paths.
ghost use Rattle.std.specs.Prelude.{◌≡◌, ◌||◌, [], Some, IfOk, IfErr};
ghost use Rattle.std.specs.List.{list_any};
ghost use Rattle.cost_base.specs.Lists.{first_of};
ghost use Rattle.cost_base.specs.Marks.{is_marked};
ghost use Rattle.request_reader.specs.declared.Directive.TheVariants.{Path as PathDirective};
ghost use Rattle.wanted_paths.specs.Paths.{next_name, excluded_edges, request_of};
ghost use Rattle.wanted_paths.specs.LineFaults.{is_router_part, walk_faults, without_faults, path_faults, TellsResolution};
ghost use Rattle.wanted_paths.specs.Paths.{outline};
ghost use Rattle.wanted_paths.specs.Walks.{IsWalk};

use crate::ResolutionFault;
use crate::names::Names;
use crate::parts::{excluded_by, has_marked, has_router, marked};
use crate::routes::{Walk, next_name, resolve_walk};
use area_graph::{Graph, mark_excluded};
use cost_base::{Listed, OutOfMemory, Refusal, no_marks};
use design_problem::Request;
use request_reader::{Excluded, Hops};
use std::alloc::Global;
use std::marker::Model;

/// Whether the start of a walk is excluded, or one of its edges is marked.
fn is_excluded(route: &Hops, walk: &Walk, parts: &[Excluded], marks: &[bool]) -> bool
    ensures { result ≡ (list_any (is_router_part (next_name route.now.hops route.now.last))
        parts.now || list_any (is_marked marks.now) walk.now.path.edges) }
{
    let start = next_name(route.as_slice(), route.last().as_bytes());
    has_router(start, parts) || has_marked(marks, walk.path.edges.as_slice())
}

/// Resolves wanted paths, by an area's names and its graph with cost 1 at each link. `marks` is room for a mark of each
/// edge, which each path writes over. Contracts see the database.
#[derive(Drop)]
pub struct Resolver<'a> {
    alloc: Global,
    names: &'a Names<'a>,
    graph: &'a Graph,
    marks: Vec<bool>,
}

impl<'a> Model for Resolver<'a> {
    ghost use Rattle.std.specs.Prelude.{◌≡◌, length};
    ghost use Rattle.lsdb_build.specs.Graphs.{Database};
    ghost use Rattle.wanted_paths.specs.Paths.{outline};

    ghost Value = { Database };

    ghost view = { λ r. r.names.now };

    ghost invariant = { λ r. record {
      graph : r.graph.now ≡ outline r.names.now;
      marks : length r.marks.items ≡ length r.graph.now.edges;
    } };
}

impl<'a> Resolver<'a> {
    /// What resolves the paths of an area of these names, by its graph with cost 1 at each link.
    pub fn new(
        alloc: Global,
        names: &'a Names<'a>,
        graph: &'a Graph,
    ) -> Result<Resolver<'a>, OutOfMemory>
        requires { graph.now ≡ outline names.now }
        ensures { IfOk result (λ resolver. resolver ≡ names.now) }
    {
        let marks = no_marks(alloc, graph.edges().len())?;
        Ok(Resolver {
            alloc,
            names,
            graph,
            marks,
        })
    }

    /// The area's names.
    pub fn names(&self) -> &Names<'a>
        ensures { result.now ≡ self.now }
    {
        self.names
    }

    /// The walk of a route; its first fault where it doesn't resolve.
    fn walk(&self, line: u32, route: &Hops) -> Result<Walk, Refusal<ResolutionFault, ()>>
        ensures made { IfOk result (λ walk. (walk_faults self.now line route.now ≡ []) ×
            IsWalk self.now route.now walk) }
        ensures refused { IfErr result
            (TellsResolution (first_of (walk_faults self.now line route.now))) }
    {
        resolve_walk(self.alloc, self.names, self.graph, line, route)
    }

    /// The edges that a path excludes, in rising order; its first fault where it doesn't resolve.
    fn without(
        &mut self,
        line: u32,
        route: &Hops,
        walk: &Walk,
        parts: &[Excluded],
    ) -> Result<Vec<u32>, Refusal<ResolutionFault, ()>>
        requires walk { IsWalk self.old route.now walk.now }
        requires walks { walk_faults self.old line route.now ≡ [] }
        ensures made { IfOk result
            (λ excluded. (without_faults self.old line route.now parts.now ≡ []) ×
            (excluded.items ≡ excluded_edges self.old (outline self.old) parts.now)) }
        ensures refused { IfErr result
            (TellsResolution (first_of (without_faults self.old line route.now parts.now))) }
        ensures same { self.new ≡ self.old }
    {
        // For the prover: what an area's type keeps is known once its links are read.
        let _links = self.names.links();
        self.graph.keeps_conditions();
        let excluded = excluded_by(self.alloc, self.names, self.graph, line, parts)?;
        mark_excluded(&mut self.marks, &excluded);
        if is_excluded(route, walk, parts, &self.marks) {
            return Err(Refusal::at((), ResolutionFault::PathExcluded { line }));
        }
        Ok(marked(self.alloc, &self.marks)?)
    }

    /// The request of a wanted path; its first fault where it doesn't resolve.
    pub fn path(
        &mut self,
        line: u32,
        route: &Hops,
        parts: &[Excluded],
    ) -> Result<Request, Refusal<ResolutionFault, ()>>
        ensures made { IfOk result
            (λ request. (path_faults self.old line route.now parts.now ≡ []) ×
            (request_of self.old (outline self.old) (PathDirective route.now parts.now) ≡
            Some request)) }
        ensures refused { IfErr result
            (TellsResolution (first_of (path_faults self.old line route.now parts.now))) }
        ensures same { self.new ≡ self.old }
    {
        let walk = self.walk(line, route)?;
        let excluded = self.without(line, route, &walk, parts)?;
        Ok(Request {
            path: walk.path,
            end: walk.end,
            excluded: Listed::from_items(excluded),
        })
    }
}
