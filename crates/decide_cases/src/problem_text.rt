//! A problem and a box as they are written: the lines of a script that say them.

use area_graph::{Graph, Price, Vertex};
use case_scripts::Spaced;
use cost_base::{Name, OutOfMemory};
use design_problem::{CostBox, Problem, Request, VarName};
use std::alloc::Global;
use std::fmt;

/// A price, as it is written.
#[derive(Drop)]
struct PriceWords(Price);

impl fmt::Display for PriceWords {
    fn fmt<W: fmt::Write>(&self, f: &mut fmt::Formatter<W>) -> fmt::Result {
        match self.0 {
            Price::Fixed(cost) => write!(f, "fixed {cost}"),
            Price::Var(number) => write!(f, "variable {number}"),
            Price::Zero => write!(f, "zero"),
        }
    }
}

/// How many of the vertices are routers.
fn routers_of(graph: &Graph) -> usize {
    graph
        .vertices()
        .iter()
        .filter(|vertex| matches!(vertex, Vertex::Router(_)))
        .count()
}

/// The lines of the vertices and edges.
#[derive(Drop)]
struct GraphLines<'a>(&'a Graph);

impl<'a> fmt::Display for GraphLines<'a> {
    fn fmt<W: fmt::Write>(&self, f: &mut fmt::Formatter<W>) -> fmt::Result {
        let vertices = self.0.vertices().len();
        let routers = routers_of(self.0);
        write!(f, "\n  vertices {vertices}, routers {routers}")?;
        for edge in self.0.edges() {
            write!(
                f,
                "\n  edge {} {} {}",
                edge.from,
                edge.to,
                PriceWords(edge.price)
            )?;
        }
        Ok(())
    }
}

/// The letters of a name.
fn letters(name: &Name) -> &str {
    str::from_utf8(name.as_bytes()).unwrap_or("?")
}

/// The lines of the free interfaces.
#[derive(Drop)]
struct FreeLines<'a>(&'a [VarName]);

impl<'a> fmt::Display for FreeLines<'a> {
    fn fmt<W: fmt::Write>(&self, f: &mut fmt::Formatter<W>) -> fmt::Result {
        for name in self.0 {
            let router = letters(&name.router);
            let interface = letters(&name.interface);
            write!(f, "\n  free {router} {interface}, variable {}", name.var)?;
        }
        Ok(())
    }
}

/// The line of a wanted path.
fn write_path<W: fmt::Write>(request: &Request, f: &mut fmt::Formatter<W>) -> fmt::Result {
    let edges = Spaced(request.path.edges.as_slice());
    write!(f, "\n  path {} {}{edges}", request.path.start, request.end)?;
    let excluded = request.excluded.as_slice();
    if excluded.is_empty() {
        return Ok(());
    }
    write!(f, " without{}", Spaced(excluded))
}

/// The lines of the wanted paths.
#[derive(Drop)]
struct PathLines<'a>(&'a [Request]);

impl<'a> fmt::Display for PathLines<'a> {
    fn fmt<W: fmt::Write>(&self, f: &mut fmt::Formatter<W>) -> fmt::Result {
        for request in self.0 {
            write_path(request, f)?;
        }
        Ok(())
    }
}

/// Ranges, by their lower and their upper bounds.
#[derive(Drop)]
struct Ranges<'a>(&'a [u16], &'a [u16]);

impl<'a> fmt::Display for Ranges<'a> {
    fn fmt<W: fmt::Write>(&self, f: &mut fmt::Formatter<W>) -> fmt::Result {
        for (least, most) in self.0.iter().zip(self.1) {
            write!(f, " {least}-{most}")?;
        }
        Ok(())
    }
}

/// The ranges of a box.
pub(crate) fn box_text(alloc: Global, costs: &CostBox) -> Result<String, OutOfMemory> {
    let ranges = Ranges(costs.low.as_slice(), costs.high.as_slice());
    Ok(format!(in alloc; ":{ranges}")?)
}

/// The lines of a problem.
pub(crate) fn problem_text(alloc: Global, problem: &Problem) -> Result<String, OutOfMemory> {
    let graph = GraphLines(&problem.graph);
    let free = FreeLines(problem.vars.as_slice());
    let ranges = Ranges(problem.low.as_slice(), problem.high.as_slice());
    let requests = PathLines(problem.requests.as_slice());
    Ok(format!(in alloc; ":{graph}{free}\n  ranges{ranges}{requests}")?)
}
