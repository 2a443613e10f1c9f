//! The greatest value of a form over a box.
ghost use Rattle.std.specs.Prelude.{◌≡◌, ℕ, ◌^◌, ◌<◌, ◌≤◌, length, nat_abs, slice_index, slice_set, All};
ghost use Rattle.design_problem.specs.Boxes.{greatest, upper_term};
ghost use Rattle.design_problem.specs.Trees.{IsSmaller, removed};

use crate::{CostBox, Form, Side};

/// A coefficient times the end of a range at which that is greatest.
pub(crate) fn greatest_term(coefficient: i64, low: u16, high: u16) -> i64
    requires { nat_abs coefficient ≤ 2 ^ 26 }
    ensures value { result ≡ upper_term coefficient low high }
    ensures size { nat_abs result ≤ 2 ^ 42 }
{
    if coefficient >= 0 {
        coefficient * i64::from(high)
    } else {
        coefficient * i64::from(low)
    }
}

/// The greatest value of the form over the box: the upper end of a variable with a positive coefficient, and the lower
/// end of one with a negative coefficient. There is a coefficient for each variable, each of size at most 2^26.
pub fn greatest_over(form: &Form, costs: &CostBox) -> i128
    requires low { length form.now.coefficients ≡ length costs.now.low }
    requires high { length form.now.coefficients ≡ length costs.now.high }
    requires sizes { All (λ c. nat_abs c ≤ 2 ^ 26) form.now.coefficients }
    ensures { result ≡ greatest form.now costs.now }
{
    let low = costs.low.as_slice();
    let high = costs.high.as_slice();
    let terms = form.terms();
    let mut sum = i128::from(form.constant());
    for term in terms {
        let var = term.var as usize;
        sum += i128::from(greatest_term(term.coefficient, low[var], high[var]));
    }
    sum
}

/// An end of a range at a place, where one variable has another end.
fn end_at(ends: &[u16], var: usize, other: u16, place: usize) -> u16
    requires { place < length ends.now }
    ensures { result ≡ slice_index (slice_set ends.now var other) place }
{
    if place == var { other } else { ends[place] }
}

/// The greatest value of the form over the box where one variable has another range.
fn greatest_with(form: &Form, costs: &CostBox, var: usize, low_end: u16, high_end: u16) -> i128
    requires low { length form.now.coefficients ≡ length costs.now.low }
    requires high { length form.now.coefficients ≡ length costs.now.high }
    requires sizes { All (λ c. nat_abs c ≤ 2 ^ 26) form.now.coefficients }
    ensures { result ≡
        greatest form.now (record {
          low = slice_set costs.now.low var low_end;
          high = slice_set costs.now.high var high_end;
        }) }
{
    let low = costs.low.as_slice();
    let high = costs.high.as_slice();
    let terms = form.terms();
    let mut sum = i128::from(form.constant());
    for term in terms {
        let place = term.var as usize;
        let least = end_at(low, var, low_end, place);
        let most = end_at(high, var, high_end, place);
        sum += i128::from(greatest_term(term.coefficient, least, most));
    }
    sum
}

/// The greatest value of the form over the part of the box that a new bound of a variable's range removes: below
/// `value` at the low side, above it at the high side. The conditions on the form are those of `greatest_over`, and the
/// new bound makes the range smaller.
pub fn greatest_removed(form: &Form, costs: &CostBox, side: Side, var: u32, value: u16) -> i128
    // The form has a small coefficient for each variable of the box.
    requires low { length form.now.coefficients ≡ length costs.now.low }
    requires high { length form.now.coefficients ≡ length costs.now.high }
    requires sizes { All (λ c. nat_abs c ≤ 2 ^ 26) form.now.coefficients }

    // The new bound makes the variable's range smaller.
    requires known { var < length costs.now.low }
    requires smaller { IsSmaller costs.now side var value }
    ensures { result ≡ greatest form.now (removed costs.now side var value) }
{
    let place = var as usize;
    match side {
        Side::Low => {
            let low = costs.low.as_slice()[place];
            greatest_with(form, costs, place, low, value - 1)
        }
        Side::High => {
            let high = costs.high.as_slice()[place];
            greatest_with(form, costs, place, value + 1, high)
        }
    }
}
