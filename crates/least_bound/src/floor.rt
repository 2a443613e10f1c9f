//! A variable whose lower bound is the greatest.
ghost use Rattle.std.specs.Prelude.{◌≤◌, length};
ghost use Rattle.least_bound.specs.Printing.{ShowsFloor};

use design_problem::{Floor, greatest_of};

/// The first variable whose lower bound is the greatest of them, or Empty where there is no variable.
pub(crate) fn floor_of(low: &[u16]) -> Floor
    requires { length low.now ≤ 1000 }
    ensures { ShowsFloor low.now result }
{
    let greatest = greatest_of(low);
    for (var, bound) in low.iter().enumerate() {
        if *bound == greatest {
            return Floor::Var(var as u32);
        }
    }
    Floor::Empty
}
