//! A graph at a point without the excluded edges of a request.

use crate::{Exclusion, Graph, Point};

/// What is left of a graph without the excluded edges of a request, with the costs of a point.
#[derive(Clone, Copy)]
pub struct Subgraph<'a> {
    /// The whole graph.
    pub graph: &'a Graph,
    /// The point that its prices are taken at.
    pub point: &'a Point,
    /// The excluded edges.
    pub exclusion: &'a Exclusion<'a>,
}
