//! How many variables costs change, and which are to be kept.
ghost use Rattle.std.specs.Prelude.{◌≡◌, ◌≤◌, ◌&&◌, length, is_some, not, IfOk};
ghost use Rattle.least_change.specs.Present.{change_count, is_present, unkept_count};
ghost use Rattle.least_change.specs.Marks.{unmarked_from};

use cost_base::{OutOfMemory, push_if};
use std::alloc::Global;

/// Whether a cost is the present one.
fn is_present(present: Option<u16>, cost: u16) -> bool
    ensures { result ≡ is_present present cost }
{
    present == Some(cost)
}

/// How many variables the costs change: all that they don't keep. Takes no memory.
pub fn change_count(present: &[Option<u16>], costs: &[u16]) -> u32
    requires counted { length costs.now ≡ length present.now }
    requires few { length present.now ≤ 1000 }
    ensures { result ≡ change_count present.now costs.now }
{
    let mut count = 0;
    for (var, cost) in costs.iter().enumerate() {
        if !is_present(present[var], *cost) {
            count += 1;
        }
    }
    count
}

/// How many variables have no present cost.
pub(crate) fn unkept_count(present: &[Option<u16>]) -> u32
    requires { length present.now ≤ 1000 }
    ensures { result ≡ unkept_count present.now }
{
    let mut count = 0;
    for cost in present {
        if cost.is_none() {
            count += 1;
        }
    }
    count
}

/// Whether a variable has a present cost and no mark.
fn is_unmarked(present: Option<u16>, is_marked: bool) -> bool
    ensures { result ≡ (is_some present && not is_marked) }
{
    present.is_some() && !is_marked
}

/// The variables with a present cost that have no mark, in rising order.
pub(crate) fn unmarked(
    alloc: Global,
    present: &[Option<u16>],
    marks: &[bool],
) -> Result<Vec<u32>, OutOfMemory>
    requires counted { length marks.now ≡ length present.now }
    requires few { length present.now ≤ 1000 }
    ensures { IfOk result (λ vars. vars.items ≡ unmarked_from 0 present.now marks.now) }
{
    let mut vars = Vec::new(alloc);
    for (var, cost) in present.iter().enumerate() {
        push_if(&mut vars, var as u32, is_unmarked(*cost, marks[var]))?;
    }
    Ok(vars)
}
