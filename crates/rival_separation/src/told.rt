//! The rivals that are told, each at the number of what was asked.

ghost use Rattle.std.specs.Prelude.{◌≡◌, ◌<◌, IfOk, length, slice_set};

use cost_base::{Listed, OutOfMemory, filled_by};
use std::alloc::Global;

/// So many places, and nothing told at any of them.
///
/// # Errors
///
/// `OutOfMemory`.
pub fn nothing_told(alloc: Global, count: usize) -> Result<Vec<Option<Listed<u32>>>, OutOfMemory>
    ensures { IfOk result (λ rivals. length rivals.items ≡ count) }
{
    filled_by(alloc, count, || None)
}

/// Puts what is told of the request or the set of that number to its place.
pub fn tell(rivals: &mut Vec<Option<Listed<u32>>>, number: usize, rival: Option<Listed<u32>>)
    requires { number < length rivals.old.items }
    ensures { rivals.new.items ≡ slice_set rivals.old.items number rival }
{
    rivals[number] = rival;
}
