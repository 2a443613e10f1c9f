//! Totals of costs, and the form that bounds a total.
ghost use Rattle.std.specs.Prelude.{◌≡◌, ◌^◌, ◌<◌, ◌≤◌, ◌*◌, length, IfOk, MatchBool, pos, ◌<ℤ◌, ◌≤ℤ◌, All};
ghost use Rattle.design_problem.specs.Forms.{value_at};
ghost use Rattle.form_search.specs.Sources.{IsCostPoint};
ghost use Rattle.least_total.specs.Totals.{total, total_form};

use area_graph::Point;
use cost_base::OutOfMemory;
use design_problem::{Form, sum_of_costs};
use std::alloc::Global;

/// The total of costs of at most 1,000 variables: their sum.
pub(crate) fn total_of(costs: &[u16]) -> u32
    requires { length costs.now ≤ 1000 }
    ensures total { result ≡ total costs.now }
    ensures small { result < 2 ^ 26 }
{
    sum_of_costs(costs) as u32
}

/// The form of the total in so many variables: `most` minus the sum of all variables.
///
/// # Errors
///
/// `OutOfMemory`.
pub(crate) fn total_form(alloc: Global, variables: usize, most: u32) -> Result<Form, OutOfMemory>
    requires { variables ≤ 1000 }
    ensures { IfOk result (λ form. form ≡ total_form variables most) }
{
    let coefficients = vec![in alloc; -1i64; variables]?;
    Form::from_coefficients(alloc, i64::from(most), &coefficients)
}

/// The sum of the values of a point of costs.
fn sum_of(point: &Point) -> u128
    requires point { IsCostPoint (length point.now.values) point.now }
    requires few { length point.now.values ≤ 1000 }
    ensures { result ≡ total point.now.values }
{
    let mut sum = 0u128;
    for value in point.values.as_slice() {
        sum += *value;
    }
    sum
}

/// Whether the sum of a point's values is greater than `most` times its scale.
pub(crate) fn is_over(point: &Point, most: u32) -> bool
    requires point { IsCostPoint (length point.now.values) point.now }
    requires few { length point.now.values ≤ 1000 }
    requires small { most < 2 ^ 26 }
    ensures { MatchBool result (value_at (total_form (length point.now.values) most) point.now <ℤ
        pos 0) (pos 0 ≤ℤ value_at (total_form (length point.now.values) most) point.now) }
{
    sum_of(point) > u128::from(most) * point.scale
}
