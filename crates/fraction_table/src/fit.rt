//! Whether ranges are a box, and whether rows fit it.
ghost use Rattle.std.specs.Prelude.{◌↔◌, ◌^◌, ◌<◌, ◌≤◌, length, nat_abs, All, IsTrue};
ghost use Rattle.design_problem.specs.Boxes.{IsBox};
ghost use Rattle.fraction_table.specs.Tableaus.{FitsBox};

use crate::add_row::corner_sum;
use design_problem::{CostBox, Form};

/// Whether the ranges are a box of fewer than 2^32 variables: as many ends as starts, and none of them empty.
pub fn is_box(costs: &CostBox) -> bool
    ensures { IsTrue result ↔ (IsBox (length costs.now.low) costs.now ×
        (length costs.now.low < 2 ^ 32)) }
{
    let low = costs.low.as_slice();
    let high = costs.high.as_slice();
    if high.len() != low.len() || low.len() >= 1 << 32 {
        return false;
    }
    for var in 0..low.len() {
        if high[var] < low[var] {
            return false;
        }
    }
    true
}

/// Whether each coefficient is at most 2^26 in size.
fn are_small(form: &Form) -> bool
    ensures { IsTrue result ↔ All (λ c. nat_abs c ≤ 2 ^ 26) form.now.coefficients }
{
    let terms = form.terms();
    for term in terms {
        if term.coefficient.unsigned_abs() > 1 << 26 {
            return false;
        }
    }
    true
}

/// Whether a tableau over the box takes the row's form.
pub fn fits_box(costs: &CostBox, form: &Form) -> bool
    ensures { IsTrue result ↔ FitsBox costs.now form.now }
{
    if form.variables() != costs.low.as_slice().len() {
        return false;
    }
    if !are_small(form) {
        return false;
    }
    corner_sum(form, costs).unsigned_abs() < 1 << 27
}

/// Whether a tableau over the box takes the form of each row.
pub fn fit_box(costs: &CostBox, rows: &[Form]) -> bool
    ensures { IsTrue result ↔ All (FitsBox costs.now) rows.now }
{
    for index in 0..rows.len() {
        if !fits_box(costs, &rows[index]) {
            return false;
        }
    }
    true
}
