//! Whether weighted sums of forms are negative over a whole box.
ghost use Rattle.std.specs.Prelude.{◌≡◌, ◌↔◌, ◌+◌, ◌*◌, ◌^◌, ◌<◌, ◌≤◌, ℤ, pos, ◌+ℤ◌, ◌<ℤ◌, nat_abs, length, All, Any, IsTrue};
ghost use Rattle.std.specs.Prelude.{MatchBool, sum_by};
ghost use Rattle.design_problem.specs.Boxes.{upper_sum, greatest};
ghost use Rattle.design_problem.specs.Forms.{weighted, IsSmallForm};

use crate::products::greatest_term;
use design_problem::{CostBox, Form, add_parts};

/// The sum of a Refute's multipliers is below this.
const MOST: u128 = 1 << 100;

/// Whether the sum of the multipliers is below 2^100.
pub(crate) fn sum_is_small(parts: &[(u64, u128)]) -> bool
    ensures { IsTrue result ↔ (sum_by (λ part. part.1) parts.now < 2 ^ 100) }
{
    let mut room = MOST;
    for part in parts {
        if room <= part.1 {
            return false;
        }
        room -= part.1;
    }
    true
}

/// Whether each row is one of so many.
pub(crate) fn rows_are_known(parts: &[(u64, u128)], count: usize) -> bool
    ensures { MatchBool result (All (λ part. part.0 < count) parts.now)
        (Any (λ part. count ≤ part.0) parts.now) }
{
    for part in parts {
        if count <= part.0 as usize {
            return false;
        }
    }
    true
}

/// The greatest value of a sum over a box, by its constant and coefficients.
fn greatest_sum(constant: i128, coefficients: &[i128], low: &[u16], high: &[u16]) -> i128
    requires low { length coefficients.now ≡ length low.now }
    requires high { length coefficients.now ≡ length high.now }
    requires size { nat_abs constant + 65535 * sum_by nat_abs coefficients.now < 2 ^ 127 }
    ensures { result ≡ (constant +ℤ upper_sum coefficients.now low.now high.now) }
{
    let mut sum = constant;
    for i in 0..coefficients.len() {
        sum += greatest_term(coefficients[i], low[i], high[i]);
    }
    sum
}

/// Whether the weighted sum of the forms is negative at its greatest over the box. The sums are room for a number for
/// each variable.
pub(crate) fn refutes(
    forms: &[Form],
    parts: &[(u64, u128)],
    costs: &CostBox,
    sums: &mut [i128],
) -> bool
    // There is a sum for each variable of the box.
    requires low { length sums.old ≡ length costs.now.low }
    requires high { length sums.old ≡ length costs.now.high }

    // The parts name forms of these variables, and no sum of theirs overflows.
    requires forms { All (IsSmallForm (length sums.old)) forms.now }
    requires rows { All (λ part. part.0 < length forms.now) parts.now }
    requires sum { sum_by (λ part. part.1) parts.now < 2 ^ 100 }
    ensures { IsTrue result ↔
        (greatest (weighted forms.now parts.now) costs.now <ℤ pos 0) }
{
    sums.fill(0);
    let constant = add_parts(forms, parts, sums);
    greatest_sum(constant, sums, costs.low.as_slice(), costs.high.as_slice()) < 0
}
