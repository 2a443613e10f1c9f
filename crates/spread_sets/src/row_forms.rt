//! The forms of the rows of sets.
ghost use Rattle.std.specs.Prelude.{◌≡◌, ◌^◌, ◌<◌, pos, ◌+ℤ◌, nat_abs, length, slice_get, IfOk};
ghost use Rattle.design_problem.specs.Rows.{IsRouteOf};
ghost use Rattle.spread_sets.specs.Spreads.{edges_of, form_of_tie};

use crate::member_sets::request_of;
use cost_base::OutOfMemory;
use cost_branching::row_of;
use design_problem::{Form, Problem, form_of};
use std::alloc::Global;

/// The form with 1 more.
fn with_one_more(alloc: Global, form: &Form) -> Result<Form, OutOfMemory>
    requires { nat_abs form.now.constant < 2 ^ 27 }
    ensures { IfOk result
        (λ more. more ≡ record form.now { constant = form.now.constant +ℤ pos 1 }) }
{
    let terms = Vec::from_slice(alloc, form.terms())?;
    Ok(Form::from_terms(form.variables(), form.constant() + 1, terms))
}

/// The form cost(second) - cost(first) of two paths that lead between the same ends.
pub(crate) fn form_of_tie(
    alloc: Global,
    problem: &Problem,
    first: u32,
    second: u32,
) -> Result<Form, OutOfMemory>
    requires second { second < length problem.now.requests }
    requires same_ends { IsRouteOf problem.now.graph (slice_get problem.now.requests first)
        (edges_of problem.now second) }
    ensures { IfOk result (λ form. form ≡ form_of_tie problem.now.graph (length problem.now.low)
        (edges_of problem.now first) (edges_of problem.now second)) }
{
    let other = request_of(problem, second);
    let row = row_of(alloc, first, other.path.edges.as_slice())?;
    let form = form_of(alloc, problem, &row)?;
    with_one_more(alloc, &form)
}
