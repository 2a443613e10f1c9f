//! The first variable whose range a form alone makes smaller.
ghost use Rattle.std.specs.Prelude.{◌≡◌, ℕ, ◌^◌, ◌≤◌, ◌≤ℤ◌, pos, length, nat_abs, All, IfSome};
ghost use Rattle.design_problem.specs.Boxes.{greatest};
ghost use Rattle.bound_propagation.specs.Tightening.{IsExactTightening, NoneBefore};

use crate::range::exact_bound;
use design_problem::{CostBox, Form, NewBound, greatest_over};

/// The first variable whose range the form alone makes smaller, with its exact new bound: the form is negative over the
/// part of the box that is removed, and not over the part at the new bound itself. None exactly where the form makes no
/// range smaller. With a positive coefficient it is the lower bound that rises, with a negative one the upper bound
/// that falls.
///
/// There is a coefficient for each variable, each of size at most 2^26, and the form's greatest value over the box
/// isn't negative.
pub fn tighten(form: &Form, costs: &CostBox) -> Option<NewBound>
    // The form has a coefficient for each variable of the box, of size at most 2^26.
    requires low { length form.now.coefficients ≡ length costs.now.low }
    requires high { length form.now.coefficients ≡ length costs.now.high }
    requires sizes { All (λ c. nat_abs c ≤ 2 ^ 26) form.now.coefficients }

    // The form doesn't refute the box.
    requires unrefuted { pos 0 ≤ℤ greatest form.now costs.now }

    // The new bound is exact and its variable the first; None tells that no range gets smaller.
    ensures exact { IfSome result (λ s. IsExactTightening form.now costs.now s.side s.var s.value) }
    ensures first { IfSome result (λ s. NoneBefore form.now costs.now s.var) }
    ensures none { result ≡ None → NoneBefore form.now costs.now (length costs.now.low) }
{
    tighten_within(form, costs, greatest_over(form, costs))
}

/// As `tighten`, where the form's greatest value over the box is known: `most`. It is what the form can lose, so a
/// range gets smaller only where the form's term loses more between its ends.
pub fn tighten_within(form: &Form, costs: &CostBox, most: i128) -> Option<NewBound>
    // The form has a coefficient for each variable of the box.
    requires low { length form.now.coefficients ≡ length costs.now.low }
    requires high { length form.now.coefficients ≡ length costs.now.high }

    // The form's greatest value over the box is known, and the form doesn't refute the box.
    requires known { most ≡ greatest form.now costs.now }
    requires unrefuted { pos 0 ≤ℤ most }

    // The new bound is exact and its variable the first; None tells that no range gets smaller.
    ensures exact { IfSome result (λ s. IsExactTightening form.now costs.now s.side s.var s.value) }
    ensures first { IfSome result (λ s. NoneBefore form.now costs.now s.var) }
    ensures none { result ≡ None → NoneBefore form.now costs.now (length costs.now.low) }
{
    let slack = most.unsigned_abs();
    let low = costs.low.as_slice();
    let high = costs.high.as_slice();
    let terms = form.terms();
    for term in terms {
        let var = term.var as usize;
        if let Some(bound) = exact_bound(term.coefficient, slack, low[var], high[var]) {
            return Some(NewBound {
                var: term.var,
                side: bound.side,
                value: bound.value,
            });
        }
    }
    None
}
