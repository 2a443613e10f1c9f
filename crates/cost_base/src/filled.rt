//! Lists of things of one make.
ghost use Rattle.std.specs.Prelude.{◌≡◌, All, IfOk, length};

use crate::OutOfMemory;
use std::alloc::Global;

/// So many things, each made anew.
///
/// # Errors
///
/// `OutOfMemory`.
pub fn filled_by<T: Drop, F: FnMut() -> T>(
    alloc: Global,
    count: usize,
    make: F,
) -> Result<Vec<T>, OutOfMemory>
    requires { F.IsAlwaysCallable make }
    ensures counted { IfOk result (λ things. length things.items ≡ count) }
    ensures made { IfOk result (λ things. All (λ thing. (before : F) × (after : F) ×
        F.step before thing after) things.items) }
{
    let mut things = Vec::new(alloc);
    things.resize_with(count, make)?;
    Ok(things)
}
