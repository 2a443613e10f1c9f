//! An outlook: a request of a graph, at a point.

use area_graph::{Graph, Point};
use design_problem::Request;

/// A request with the graph that it is asked of, and the point at which costs are taken.
#[derive(Clone, Copy)]
pub struct Outlook<'a> {
    /// The graph.
    pub graph: &'a Graph,
    /// The request.
    pub request: &'a Request,
    /// The point.
    pub point: &'a Point,
}
