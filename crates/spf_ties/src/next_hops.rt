//! The edges of next hops.

ghost use Rattle.std.specs.Prelude.{◌≡◌, ℕ, ◌<◌, [], ◌∷◌, All, MatchOption, filter, length};
ghost use Rattle.std.specs.Iterator.{YieldsFirst, item_count};
ghost use Rattle.area_graph.specs.Costs.{FitsPoint};
ghost use Rattle.spf_ties.specs.Distances.{IsRoomFor, is_tight};

use crate::Room;
use area_graph::{Graph, Point};
use std::marker::Model;

/// The tight edges out of a vertex, one after another in rising order (RFC 2328, 16.8: all of equal cost are used).
/// Contracts see the list of their numbers that are left.
#[derive(Drop)]
pub struct NextHops<'a> {
    pub(crate) room: &'a Room,
    pub(crate) graph: &'a Graph,
    pub(crate) point: &'a Point,
    pub(crate) left: &'a [u32],
}

impl<'a> Model for NextHops<'a> {
    ghost use Rattle.std.specs.Prelude.{ℕ, ◌<◌, List, All, filter, length};
    ghost use Rattle.area_graph.specs.Costs.{FitsPoint};
    ghost use Rattle.spf_ties.specs.Distances.{IsRoomFor, is_tight};

    ghost Value = { List ℕ };

    ghost view = { λ h. filter (is_tight h.graph.now h.point.now h.room.now) h.left.now };

    ghost invariant = { λ h. record {
      room : IsRoomFor h.graph.now h.room.now;
      fits : FitsPoint h.graph.now h.point.now;
      known : All (λ e. e < length h.graph.now.edges) h.left.now;
    } };
}

impl<'a> Iterator for NextHops<'a> {
    type Item = u32;

    ghost next_gives = { YieldsFirst (λ s. s) };

    ghost remaining = { item_count (λ s. s) };

    fn next(&mut self) -> Option<u32> {
        match first_tight(self.room, self.graph, self.point, self.left) {
            Some((edge, left)) => {
                self.left = left;
                Some(edge)
            }
            None => {
                self.left = &[];
                None
            }
        }
    }
}

/// The first tight edge of some, and those behind it; None where none is tight.
fn first_tight<'a>(
    room: &Room,
    graph: &Graph,
    point: &Point,
    edges: &'a [u32],
) -> Option<(u32, &'a [u32])>
    requires room { IsRoomFor graph.now room.now }
    requires fits { FitsPoint graph.now point.now }
    requires known { All (λ e. e < length graph.now.edges) edges.now }
    ensures tight { MatchOption result (filter (is_tight graph.now point.now room.now) edges.now ≡
        []) (λ p. filter (is_tight graph.now point.now room.now) edges.now ≡
        p.0 ∷ filter (is_tight graph.now point.now room.now) p.1.now) }
    ensures known { MatchOption result (Unit {0}) (λ p. All (λ e. e < length graph.now.edges)
        p.1.now) }
{
    let mut left = edges;
    while let [first, rest @ ..] = left {
        if room.tight(graph, point, *first) {
            return Some((*first, rest));
        }
        left = rest;
    }
    None
}
