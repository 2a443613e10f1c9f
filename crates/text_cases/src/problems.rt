//! The problem that requests make of a network, as it is written.

use area_graph::{Edge, Price};
use case_scripts::Written;
use cost_base::Refusal;
use design_problem::{Problem, Request};
use std::alloc::{AllocError, Global};
use std::fmt;
use wanted_paths::ResolutionFault;

/// An edge as it is written: `FROM-TO:PRICE`, a variable being `xN`.
#[derive(Drop)]
struct Shown<'a>(&'a Edge);

impl<'a> fmt::Display for Shown<'a> {
    fn fmt<W: fmt::Write>(&self, f: &mut fmt::Formatter<W>) -> fmt::Result {
        let Edge { from, to, price } = self.0;
        match price {
            Price::Fixed(cost) => write!(f, " {from}-{to}:{cost}"),
            Price::Var(number) => write!(f, " {from}-{to}:x{number}"),
            Price::Zero => write!(f, " {from}-{to}:0"),
        }
    }
}

/// The variable of each free interface.
fn variables(alloc: Global, problem: &Problem) -> Result<Vec<u32>, AllocError> {
    let mut variables = Vec::new(alloc);
    for name in problem.vars.as_slice() {
        variables.push(name.var)?;
    }
    Ok(variables)
}

/// The edges of a graph, as they are written.
#[derive(Drop)]
struct Edges<'a>(&'a [Edge]);

impl<'a> fmt::Display for Edges<'a> {
    fn fmt<W: fmt::Write>(&self, f: &mut fmt::Formatter<W>) -> fmt::Result {
        for edge in self.0 {
            write!(f, "{}", Shown(edge))?;
        }
        Ok(())
    }
}

/// Wanted paths, each on a line of its own: its edges, its end, and the edges that it excludes.
#[derive(Drop)]
struct Paths<'a>(&'a [Request]);

impl<'a> fmt::Display for Paths<'a> {
    fn fmt<W: fmt::Write>(&self, f: &mut fmt::Formatter<W>) -> fmt::Result {
        for wanted in self.0 {
            let edges = Written(wanted.path.edges.as_slice());
            let excluded = Written(wanted.excluded.as_slice());
            write!(
                f,
                "\n  path {} to {} over {edges} without {excluded}",
                wanted.path.start, wanted.end
            )?;
        }
        Ok(())
    }
}

/// A problem: the variables of its free interfaces, their bounds, the edges of its graph, and its paths.
fn problem_shown(alloc: Global, problem: &Problem) -> Result<String, AllocError> {
    let variables = variables(alloc, problem)?;
    let variables = Written(variables.as_slice());
    let low = Written(problem.low.as_slice());
    let high = Written(problem.high.as_slice());
    let edges = Edges(problem.graph.edges());
    let requests = Paths(problem.requests.as_slice());
    format!(in alloc; ": low {low}; high {high}; variables {variables}\n {edges}{requests}")
}

/// What is told of a problem, or of the first fault of its requests.
pub(crate) fn problem_text(
    alloc: Global,
    problem: Result<Problem, Refusal<ResolutionFault, ()>>,
) -> Result<String, AllocError> {
    match problem {
        Ok(problem) => problem_shown(alloc, &problem),
        Err(stop) => format!(in alloc; ": {stop:?}"),
    }
}
