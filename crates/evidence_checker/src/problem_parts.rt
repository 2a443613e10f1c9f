//! The parts of a problem, as slices.
ghost use Rattle.std.specs.Prelude.{◌≡◌};

use design_problem::{Problem, VarName};

/// The free interfaces.
pub(crate) fn names_of(problem: &Problem) -> &[VarName]
    ensures { result.now ≡ problem.now.vars }
{
    problem.vars.as_slice()
}

/// The lower bounds.
pub(crate) fn low_of(problem: &Problem) -> &[u16]
    ensures { result.now ≡ problem.now.low }
{
    problem.low.as_slice()
}

/// The upper bounds.
pub(crate) fn high_of(problem: &Problem) -> &[u16]
    ensures { result.now ≡ problem.now.high }
{
    problem.high.as_slice()
}
