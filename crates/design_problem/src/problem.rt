//! Problems of design.
ghost use Rattle.design_problem.specs.Problems.{IsProblem, IsProblemOnGraph};

use area_graph::{Graph, Path};
use cost_base::{Listed, Name};
use std::marker::Model;

/// A free interface: its router, its name, and the number of the variable that is its cost. The two ends of a
/// symmetric link that are both free have one variable together.
#[derive(Drop)]
pub struct VarName {
    pub router: Name,
    pub interface: Name,
    pub var: u32,
}

/// A request: a wanted path by its start and edges, the vertex at its end, and the edges that it excludes, by
/// their numbers in rising order.
#[derive(Drop)]
pub struct Request {
    pub path: Path,
    pub end: u32,
    pub excluded: Listed<u32>,
}

/// What is to be designed: a graph, its free interfaces in the order of the linked interfaces, a lower and an upper
/// bound for each variable, and the requests.
///
/// The type keeps that each wanted path is a simple path of its request, that the numbers of a request's excluded edges
/// rise strictly and are of edges of the graph, that there are at most 1,000 variables with 1 <= low <= high and at
/// most 10,000 requests, that each variable of the graph and of `vars` has bounds, that each variable stands in `vars`,
/// and that each name is one word of at most 4,096 bytes. The fields are public: whoever writes a `Problem` proves
/// this.
#[derive(Drop)]
pub struct Problem {
    pub graph: Graph,
    pub vars: Listed<VarName>,
    pub low: Listed<u16>,
    pub high: Listed<u16>,
    pub requests: Listed<Request>,
}

impl Model for Problem {
    ghost use Rattle.design_problem.specs.Problems.{DesignProblem, IsProblem};

    ghost Value = { DesignProblem };

    ghost view = { λ p. record {
      graph = p.graph;
      vars = p.vars;
      low = p.low;
      high = p.high;
      requests = p.requests;
    } };

    ghost invariant = { λ p. IsProblem (record {
      graph = p.graph;
      vars = p.vars;
      low = p.low;
      high = p.high;
      requests = p.requests;
    }) };
}

impl Problem {
    /// For the prover alone: keeps that a problem meets the conditions of its type; takes no time and changes nothing.
    pub fn keeps_conditions(&self)
        ensures { IsProblem self.now }
    {
        let _ = &self.graph;
    }
}

/// For the prover alone: keeps that a problem meets the conditions of its type, and its graph those of a graph; takes
/// no time and changes nothing.
pub fn keeps_problem_on_graph(problem: &Problem)
    ensures { IsProblemOnGraph problem.now }
{
    problem.graph.keeps_conditions();
}
