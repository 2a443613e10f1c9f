//! What the lines of a script say of a problem, before it is known to be one.

use crate::conditions::is_problem;
use area_graph::{Edge, Graph, Vertex, fits_graph, vertices_of};
use cost_base::{Listed, Name, OutOfMemory};
use design_problem::{Problem, Request, VarName};
use std::alloc::Global;

/// The vertices, edges, free interfaces, bounds and wanted paths that lines say.
#[derive(Drop)]
pub struct Draft {
    vertices: Vec<Vertex>,
    edges: Vec<Edge>,
    lists: Lists,
}

/// The free interfaces, bounds and wanted paths that lines say.
#[derive(Drop)]
struct Lists {
    vars: Listed<VarName>,
    low: Listed<u16>,
    high: Listed<u16>,
    requests: Listed<Request>,
}

impl Lists {
    /// Nothing is said.
    fn new(alloc: Global) -> Lists {
        Lists {
            vars: Listed::new(alloc),
            low: Listed::new(alloc),
            high: Listed::new(alloc),
            requests: Listed::new(alloc),
        }
    }
}

impl Draft {
    /// Nothing is said.
    pub(crate) fn new(alloc: Global) -> Draft {
        Draft {
            vertices: Vec::new(alloc),
            edges: Vec::new(alloc),
            lists: Lists::new(alloc),
        }
    }

    /// So many routers and subnets are said.
    pub(crate) fn of_network(
        alloc: Global,
        routers: u32,
        subnets: u32,
    ) -> Result<Draft, OutOfMemory> {
        Ok(Draft {
            vertices: vertices_of(alloc, routers, subnets)?,
            edges: Vec::new(alloc),
            lists: Lists::new(alloc),
        })
    }

    /// One more edge.
    pub(crate) fn add_edge(&mut self, edge: Edge) -> Result<(), OutOfMemory> {
        Ok(self.edges.push(edge)?)
    }

    /// One more free interface, whose variable is the next one.
    pub(crate) fn add_variable(
        &mut self,
        router: Name,
        interface: Name,
        low: u16,
        high: u16,
    ) -> Result<(), OutOfMemory> {
        let var = u32::try_from(self.lists.low.as_slice().len()).unwrap_or(0);
        self.lists.vars.push(VarName {
            router,
            interface,
            var,
        })?;
        self.lists.low.push(low)?;
        self.lists.high.push(high)
    }

    /// One more wanted path.
    pub(crate) fn add_path(&mut self, request: Request) -> Result<(), OutOfMemory> {
        self.lists.requests.push(request)
    }

    /// The problem that is said, where it is one.
    pub(crate) fn into_problem(self, alloc: Global) -> Result<Option<Problem>, OutOfMemory> {
        let Draft {
            vertices,
            edges,
            lists,
        } = self;
        match graph_of(alloc, vertices, edges) {
            Ok(Some(graph)) => Ok(problem_of(graph, lists)),
            Ok(None) => Ok(None),
            Err(OutOfMemory) => Err(OutOfMemory),
        }
    }
}

/// The graph of these vertices and edges, where they fit one.
fn graph_of(
    alloc: Global,
    vertices: Vec<Vertex>,
    edges: Vec<Edge>,
) -> Result<Option<Graph>, OutOfMemory> {
    if !fits_graph(vertices.as_slice(), edges.as_slice()) {
        return Ok(None);
    }
    match Graph::new(alloc, vertices, edges) {
        Ok(graph) => Ok(Some(graph)),
        Err(OutOfMemory) => Err(OutOfMemory),
    }
}

/// The problem of these parts, where they are those of one.
fn problem_of(graph: Graph, lists: Lists) -> Option<Problem> {
    if !is_problem(
        &graph,
        &lists.vars,
        &lists.low,
        &lists.high,
        &lists.requests,
    ) {
        return None;
    }
    let Lists {
        vars,
        low,
        high,
        requests,
    } = lists;
    Some(Problem {
        graph,
        vars,
        low,
        high,
        requests,
    })
}
