//! Lists of marks.
ghost use Rattle.std.specs.Prelude.{◌≡◌, ℕ, ◌<◌, ◌==◌, All, IfOk, false, length, slice_index_or, slice_set, true};
ghost use Rattle.cost_base.specs.Marks.{AreMarked, is_marked, is_one_of};

use crate::OutOfMemory;
use std::alloc::Global;

/// So many marks, none of which is set.
///
/// # Errors
///
/// `OutOfMemory`.
pub fn no_marks(alloc: Global, count: usize) -> Result<Vec<bool>, OutOfMemory>
    ensures counted { IfOk result (λ marks. length marks.items ≡ count) }
    ensures none { IfOk result (λ marks. (k : ℕ) → slice_index_or marks.items k false ≡ false) }
{
    Ok(vec![in alloc; false; count]?)
}

/// Whether the mark of a place is set. None is behind the last place.
pub fn is_marked(marks: &[bool], place: usize) -> bool
    ensures { result ≡ is_marked marks.now place }
{
    match marks.get(place) {
        Some(mark) => *mark,
        None => false,
    }
}

/// Sets the mark of a place. Takes no memory.
pub fn mark(marks: &mut Vec<bool>, place: usize)
    requires { place < length marks.old.items }
    ensures { AreMarked (λ k. place == k) marks.old.items marks.new.items }
{
    marks[place] = true;
}

/// Sets the mark of a place, if there is one. Takes no memory.
pub fn mark_within(marks: &mut Vec<bool>, place: usize)
    ensures { marks.new.items ≡ slice_set marks.old.items place true }
{
    if place < marks.len() {
        marks[place] = true;
    }
}

/// Sets the marks of these places. Takes no memory.
pub fn mark_all(marks: &mut Vec<bool>, places: &[u32])
    requires { All (λ place. place < length marks.old.items) places.now }
    ensures { AreMarked (is_one_of places.now) marks.old.items marks.new.items }
{
    for place in places {
        mark(marks, *place as usize);
    }
}
