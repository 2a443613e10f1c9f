//! The first hops of a route.
ghost use Rattle.std.specs.Prelude.{◌≡◌, ◌<◌, ◌++◌, OnOk, length, map, slice_index_or};
ghost use Rattle.area_graph.specs.Area.{edge_at};
ghost use Rattle.area_graph.specs.Costs.{FitsPoint};
ghost use Rattle.spf_ties.specs.Distances.{IsRoomFor, tight_out};
ghost use Rattle.database_commands.specs.Routes.{spaced_quads};

use area_graph::{Graph, Point, far_end};
use cost_base::OutOfMemory;
use line_builder::LineBuilder;
use spf_ties::Room;

/// What names a vertex.
fn id_at(ids: &[u32], vertex: u32) -> u32
    ensures { result ≡ slice_index_or ids.now vertex 0 }
{
    ids.get(vertex as usize).copied().unwrap_or(0)
}

/// A graph at costs, the room with the least costs there to one end, and what names the vertices.
#[derive(Clone, Copy)]
pub struct RoutedGraph<'a> {
    pub graph: &'a Graph,
    pub point: &'a Point,
    pub room: &'a Room,
    pub ids: &'a [u32],
}

impl<'a> RoutedGraph<'a> {
    /// Adds the IDs at the ends of the tight edges out of a vertex, in edge order, each behind a space.
    pub fn push_hops(&self, line: &mut LineBuilder, vertex: u32) -> Result<(), OutOfMemory>
        requires room { IsRoomFor self.now.graph.now self.now.room.now }
        requires fits { FitsPoint self.now.graph.now self.now.point.now }
        requires vertex { vertex < length self.now.graph.now.vertices }
        ensures { OnOk result (line.new ≡ line.old ++
            spaced_quads
            (map (λ e. slice_index_or self.now.ids.now (edge_at self.now.graph.now e).to 0)
            (tight_out self.now.graph.now self.now.point.now self.now.room.now vertex))) }
    {
        for edge in self.room.next_hops(self.graph, self.point, vertex) {
            line.quad(id_at(self.ids, far_end(self.graph, edge)))?;
        }
        Ok(())
    }
}
