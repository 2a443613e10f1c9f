//! A heap of vertices that wait to be settled, the nearest first.

ghost use Rattle.std.specs.Prelude.{◌≡◌, ◌∷◌, [], ◌+◌, ◌<◌, ◌≤◌, All, IfOk, IsPermutation, MatchOption, length};

use cost_base::OutOfMemory;
use std::alloc::Global;
use std::cmp::Reverse;
use std::collections::BinaryHeap;
use std::marker::Model;

/// A vertex that waits, with the distance under which it was put in. Two are compared by distance, then by vertex.
#[derive(Clone, Copy, PartialEq, Eq, PartialOrd, Ord)]
pub(crate) struct WaitingVertex {
    pub(crate) distance: u64,
    pub(crate) vertex: u32,
}

/// A binary heap of entries that is made with its places. Contracts see its entries in some order, and the number of
/// places that it has at least.
#[derive(Drop)]
pub(crate) struct Heap {
    entries: BinaryHeap<Reverse<WaitingVertex>>,
}

impl Model for Heap {
    ghost use Rattle.std.specs.Prelude.{map};
    ghost use Rattle.std.specs.Ordering.{nat_cmp, ordering_then};
    ghost use Rattle.std.specs.BinaryHeap.{IsHeap, heap_capacity, heap_items};
    ghost use Rattle.spf_ties.specs.Waiting.{Waiting};

    ghost Value = { Waiting };

    ghost view = { λ h. record {
      entries = map (λ r. r.0) (heap_items h.entries);
      places = heap_capacity h.entries;
    } };

    ghost invariant = { λ h. IsHeap (λ x y.
        ordering_then (nat_cmp y.0.distance x.0.distance) (nat_cmp y.0.vertex x.0.vertex))
        (heap_items h.entries) };
}

impl Heap {
    /// An empty heap of so many places.
    ///
    /// # Errors
    ///
    /// `OutOfMemory` where the places got no memory.
    pub(crate) fn with_places(alloc: Global, places: usize) -> Result<Heap, OutOfMemory>
        ensures { IfOk result (λ heap. heap ≡ record { entries = []; places = places }) }
    {
        let entries = BinaryHeap::with_capacity(alloc, places)?;
        Ok(Heap { entries })
    }

    /// Takes every entry out.
    pub(crate) fn clear(&mut self)
        ensures { self.new ≡ record self.old { entries = [] } }
    {
        self.entries.clear();
    }

    /// Puts an entry into a free place. Takes no memory.
    pub(crate) fn push(&mut self, entry: WaitingVertex)
        requires { length self.old.entries < self.old.places }
        ensures entries { IsPermutation (entry ∷ self.old.entries) self.new.entries }
        ensures places { self.old.places ≤ self.new.places }
    {
        // It can't fail: with a free place it takes no memory.
        let _ = self.entries.push(Reverse(entry));
    }

    /// Takes out an entry of least distance; None where there is none.
    pub(crate) fn pop(&mut self) -> Option<WaitingVertex>
        ensures entry { MatchOption result (self.new.entries ≡ [])
            (λ entry. IsPermutation self.old.entries (entry ∷ self.new.entries)) }
        ensures none { MatchOption result (self.old.entries ≡ []) (λ entry.
            All (λ other. entry.distance ≤ other.distance) self.old.entries) }
        ensures places { self.new.places ≡ self.old.places }
    {
        match self.entries.pop() {
            Some(Reverse(entry)) => Some(entry),
            None => None,
        }
    }
}
