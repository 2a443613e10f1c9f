//! The room in which distances are found and kept.

ghost use Rattle.std.specs.Prelude.{◌≡◌, ◌↔◌, ◌++◌, ◌∷◌, List, Some, ℕ, ◌<◌, [], replicate, length, reverse, IfOk, IsTrue, None, false, slice_index_or, true};
ghost use Rattle.area_graph.specs.Distances.{AreEdgeMarks};
ghost use Rattle.area_graph.specs.Costs.{FitsPoint, cost};
ghost use Rattle.area_graph.specs.Paths.{IsPathOf};
ghost use Rattle.spf_ties.specs.Distances.{AreTight, IsLeastBelow, IsLeastCost, IsRoomFor, distance_at, ends_to, is_tight, tight_out};

use crate::heap::Heap;
use crate::search::{Front, Width, find_in_either};
use crate::{Aim, NextHops};
use area_graph::{Exclusion, FAR, Graph, Point, Subgraph, edge_of, mark_excluded, price_of};
use cost_base::{OutOfMemory, no_marks};
use std::alloc::Global;
use std::marker::Model;

/// Room for the distances of a graph's vertices to a target, and for the edges of one path. Contracts see the distances
/// of the last call, none of them known before it, a mark for each edge that it excluded, and the edges of the path.
#[derive(Drop)]
pub struct Room {
    far: u128,
    front: Front,
    wide: Vec<u128>,
    width: Width,
    marks: Vec<bool>,
    path: Vec<u32>,
}

impl Model for Room {
    ghost use Rattle.std.specs.Prelude.{◌≡◌, ◌<◌, ◌≤◌, length, map, vec_capacity};
    ghost use Rattle.spf_ties.specs.Distances.{Findings, cost_below};
    ghost use Rattle.spf_ties.specs.Searches.{numbers_in_use};

    ghost Value = { Findings };

    ghost view = { λ r. record {
      costs = map (cost_below r.far) (numbers_in_use r.width r.front.numbers.items r.wide.items);
      marks = r.marks.items;
      path = r.path.items;
    } };

    ghost invariant = { λ r. record {
      settled : length r.front.settled.items ≡ length r.front.numbers.items;
      wide : length r.wide.items ≡ length r.front.numbers.items;
      places : length r.marks.items < r.front.waiting.places;
      path : length r.front.numbers.items ≤ vec_capacity r.path;
    } };
}

impl Room {
    /// Room for a graph, with no distance known. No later call takes memory.
    ///
    /// # Errors
    ///
    /// `OutOfMemory` where the room got no memory.
    pub fn new(alloc: Global, graph: &Graph) -> Result<Room, OutOfMemory>
        ensures { IfOk result (λ room. room ≡
            record {
              costs = replicate (length graph.now.vertices) None;
              marks = replicate (length graph.now.edges) false;
              path = [];
            }) }
    {
        graph.keeps_conditions();
        let waiting = Heap::with_places(alloc, graph.edges().len() + 1)?;
        let numbers = vec![in alloc; 0; graph.vertices().len()]?;
        let settled = no_marks(alloc, graph.vertices().len())?;
        let wide = vec![in alloc; 0; graph.vertices().len()]?;
        let marks = no_marks(alloc, graph.edges().len())?;
        let path = Vec::with_capacity(alloc, graph.vertices().len())?;
        Ok(Room {
            far: 0,
            front: Front {
                numbers,
                settled,
                waiting,
            },
            wide,
            width: Width::Narrow,
            marks,
            path,
        })
    }

    /// Finds each vertex's least cost of a simple path to the target. A simple path has least cost exactly where each
    /// of its edges is tight.
    pub fn distances_to(&mut self, graph: &Graph, point: &Point, target: u32)
        // The room is one for the graph, the point is one for it, and the target is a vertex of it.
        requires room { IsRoomFor graph.now self.old }
        requires fits { FitsPoint graph.now point.now }
        requires target { target < length graph.now.vertices }

        // The room is still one for the graph, and no edge is marked as excluded.
        ensures room { IsRoomFor graph.now self.new }
        ensures marks { AreEdgeMarks [] self.new.marks }

        // Each distance is a least cost, and paths of least cost are those of tight edges alone.
        ensures least { (v : ℕ) → v < length graph.now.vertices → IsLeastCost graph.now point.now
            (record { start = v; end = target; excluded = [] }) (distance_at self.new v) }
        ensures tight { (v : ℕ) (path : List ℕ) → IsPathOf graph.now
            (record { start = v; end = target; excluded = [] }) path →
            (distance_at self.new v ≡ Some (cost graph.now point.now path)) ↔
            AreTight graph.now point.now self.new path }
    {
        self.distances_without(graph, point, target, &[]);
    }

    /// Finds each vertex's least cost of a simple path to the target that has none of the edges of `excluded`.
    /// Among these paths one has least cost exactly where each of its edges is tight.
    pub fn distances_without(&mut self, graph: &Graph, point: &Point, target: u32, excluded: &[u32])
        // The room is one for the graph, the point is one for it, and the target is a vertex of it.
        requires room { IsRoomFor graph.now self.old }
        requires fits { FitsPoint graph.now point.now }
        requires target { target < length graph.now.vertices }

        // The room is still one for the graph, and the excluded edges are marked.
        ensures room { IsRoomFor graph.now self.new }
        ensures marks { AreEdgeMarks excluded.now self.new.marks }

        // Each distance is the least cost without them, which the paths of tight edges alone have.
        ensures least { (v : ℕ) → v < length graph.now.vertices → IsLeastCost graph.now point.now
            (record { start = v; end = target; excluded = excluded.now }) (distance_at self.new v) }
        ensures tight { (v : ℕ) (path : List ℕ) → IsPathOf graph.now
            (record { start = v; end = target; excluded = excluded.now }) path →
            (distance_at self.new v ≡ Some (cost graph.now point.now path)) ↔
            AreTight graph.now point.now self.new path }
    {
        graph.keeps_conditions();
        let aim = Aim {
            target,
            excluded,
            limit: FAR * point.scale,
        };
        self.distances_within(graph, point, &aim);
    }

    /// Finds each vertex's least cost of a simple path to the target that has none of the excluded edges, where
    /// that is below the limit. Among the paths that cost less than it one has least cost exactly where each of its
    /// edges is tight. It takes time in proportion to the edges near the target, times the logarithm of their number;
    /// at scales from 2^37 on it goes over all edges, again and again until no number falls.
    pub fn distances_within(&mut self, graph: &Graph, point: &Point, aim: &Aim<'_>)
        // The room is one for the graph, the point is one for it, and the target is a vertex of it.
        requires room { IsRoomFor graph.now self.old }
        requires fits { FitsPoint graph.now point.now }
        requires target { aim.now.target < length graph.now.vertices }

        // The room is still one for the graph, and the excluded edges are marked.
        ensures room { IsRoomFor graph.now self.new }
        ensures marks { AreEdgeMarks aim.now.excluded.now self.new.marks }

        // Below the limit each distance is a least cost, which the paths of tight edges alone have.
        ensures least { (v : ℕ) → v < length graph.now.vertices → IsLeastBelow graph.now point.now
            (ends_to aim.now v) aim.now.limit (distance_at self.new v) }
        ensures tight { (v : ℕ) (path : List ℕ) → IsPathOf graph.now (ends_to aim.now v) path →
            cost graph.now point.now path < aim.now.limit →
            (distance_at self.new v ≡ Some (cost graph.now point.now path)) ↔
            AreTight graph.now point.now self.new path }
    {
        graph.keeps_conditions();
        mark_excluded(&mut self.marks, aim.excluded);
        let exclusion = Exclusion {
            excluded: aim.excluded,
            marks: self.marks.as_slice(),
        };
        let subgraph = Subgraph {
            graph,
            point,
            exclusion: &exclusion,
        };
        self.far = aim.limit.min(FAR * point.scale);
        self.width = find_in_either(
            &subgraph,
            aim.target,
            self.far,
            &mut self.front,
            &mut self.wide,
        );
    }

    /// The least cost of a simple path from the vertex to the target of the last call; None where none leads there, or
    /// before any call.
    pub fn distance(&self, vertex: u32) -> Option<u128>
        requires { vertex < length self.now.costs }
        ensures { result ≡ distance_at self.now vertex }
    {
        let number = match self.width {
            Width::Narrow => self.front.numbers[vertex as usize] as u128,
            Width::Wide => self.wide[vertex as usize],
        };
        if number < self.far {
            Some(number)
        } else {
            None
        }
    }

    /// Whether an edge is tight: both its ends have distances, and the first is the edge's price plus the second. It
    /// asks only for price and distances, also of an excluded edge.
    pub fn tight(&self, graph: &Graph, point: &Point, edge: u32) -> bool
        requires room { IsRoomFor graph.now self.now }
        requires fits { FitsPoint graph.now point.now }
        requires edge { edge < length graph.now.edges }
        ensures { result ≡ is_tight graph.now point.now self.now edge }
    {
        graph.keeps_conditions();
        let edge = edge_of(graph, edge);
        match (self.distance(edge.from), self.distance(edge.to)) {
            (Some(from), Some(to)) => {
                let price = price_of(edge.price, point);
                price <= from && from - price == to
            }
            _ => false,
        }
    }

    /// Whether the last call of `distances_without` left an edge, and `distances_to` leaves each.
    pub fn leaves(&self, edge: u32) -> bool
        requires { edge < length self.now.marks }
        ensures { IsTrue result ↔ (slice_index_or self.now.marks edge true ≡ false) }
    {
        !self.marks[edge as usize]
    }

    /// Takes every edge out of the path that the room keeps.
    pub fn clear_path(&mut self)
        ensures { self.new ≡ record self.old { path = [] } }
    {
        self.path.clear();
    }

    /// Puts an edge behind those of the path that the room keeps, of which there are as many places as vertices.
    pub fn add_to_path(&mut self, edge: u32)
        requires { length self.old.path < length self.old.costs }
        ensures { self.new ≡ record self.old { path = self.old.path ++ edge ∷ [] } }
    {
        self.path.push_reserved(edge);
    }

    /// Turns the path that the room keeps around, so that its last edge comes first.
    pub fn reverse_path(&mut self)
        ensures { self.new ≡ record self.old { path = reverse self.old.path } }
    {
        self.path.reverse();
    }

    /// The edges of the path that the room keeps.
    pub fn path(&self) -> &[u32]
        ensures { result.now ≡ self.now.path }
    {
        self.path.as_slice()
    }

    /// The tight edges out of a vertex, in rising order: where the last call took no edge away, the next hops of its
    /// least-cost paths to the target.
    pub fn next_hops<'a>(&'a self, graph: &'a Graph, point: &'a Point, vertex: u32) -> NextHops<'a>
        requires room { IsRoomFor graph.now self.now }
        requires fits { FitsPoint graph.now point.now }
        requires vertex { vertex < length graph.now.vertices }
        ensures { result ≡ tight_out graph.now point.now self.now vertex }
    {
        NextHops {
            room: self,
            graph,
            point,
            left: graph.edges_out(vertex),
        }
    }
}
