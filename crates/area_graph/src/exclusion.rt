//! The excluded edges of a request.

ghost use Rattle.std.specs.Prelude.{◌≡◌, ◌↔◌, IsTrue, length};
ghost use Rattle.cost_base.specs.Lists.{Lacks};
ghost use Rattle.area_graph.specs.Distances.{AreEdgeMarks};

use crate::paths::lacks;
use cost_base::mark_within;
use std::marker::Model;

/// The excluded edges of a request, with a mark for each edge of the graph that tells at once whether it is one of
/// them (`mark_excluded` sets the marks). Contracts see the list of their numbers.
#[derive(Drop)]
pub struct Exclusion<'a> {
    /// The numbers of the excluded edges.
    pub excluded: &'a [u32],
    /// For each edge of the graph, whether it is one of them.
    pub marks: &'a [bool],
}

impl<'a> Model for Exclusion<'a> {
    ghost use Rattle.std.specs.Prelude.{ℕ, List};

    ghost Value = { List ℕ };

    ghost use Rattle.area_graph.specs.Distances.{AreEdgeMarks};

    ghost view = { λ r. r.excluded.now };

    ghost invariant = { λ r. AreEdgeMarks r.excluded.now r.marks.now };
}

impl<'a> Exclusion<'a> {
    /// Whether an edge isn't excluded. Takes no memory.
    pub fn leaves(&self, edge: u32) -> bool
        ensures { IsTrue result ↔ Lacks self.now edge }
    {
        if (edge as usize) < self.marks.len() {
            !self.marks[edge as usize]
        } else {
            lacks(self.excluded, edge)
        }
    }
}

/// Marks the excluded edges, and no other. Takes no memory.
pub fn mark_excluded(marks: &mut Vec<bool>, excluded: &[u32])
    ensures marks { AreEdgeMarks excluded.now marks.new.items }
    ensures count { length marks.new.items ≡ length marks.old.items }
{
    marks.fill(false);
    for edge in excluded {
        mark_within(marks, *edge as usize);
    }
}
