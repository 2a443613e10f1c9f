//! Weighted sums of forms.
ghost use Rattle.std.specs.Prelude.{◌≡◌, ℕ, ◌+◌, ◌*◌, ◌^◌, ◌<◌, pos, ◌+ℤ◌, ◌*ℤ◌, nat_abs, length, slice_index_or, sum_by, All};
ghost use Rattle.design_problem.specs.Forms.{weighted, IsSmallForm};

use crate::Form;
use crate::products::plus_product;

/// Adds a form's coefficients, each times the multiplier, to the sums of their variables.
fn add_form(sums: &mut [i128], multiplier: u128, form: &Form)
    requires count { length form.now.coefficients ≡ length sums.old }
    requires multiplier { multiplier < 2 ^ 100 }
    requires room { (i : ℕ) → i < length sums.old → nat_abs (slice_index_or sums.old i (pos 0)) +
        multiplier * sum_by nat_abs form.now.coefficients < 2 ^ 127 }
    ensures { (i : ℕ) → i < length sums.old → slice_index_or sums.new i (pos 0) ≡
        (slice_index_or sums.old i (pos 0) +ℤ
        (pos multiplier *ℤ slice_index_or form.now.coefficients i (pos 0))) }
{
    let terms = form.terms();
    for term in terms {
        let var = term.var as usize;
        sums[var] = plus_product(sums[var], multiplier, term.coefficient);
    }
}

/// Adds up the forms of some rows, each times its multiplier: their coefficients into `sums`, which are 0 before, and
/// the constant as the answer.
pub fn add_parts(forms: &[Form], parts: &[(u64, u128)], sums: &mut [i128]) -> i128
    // The parts name forms of the variables of the sums, and no sum of theirs overflows.
    requires forms { All (IsSmallForm (length sums.old)) forms.now }
    requires rows { All (λ part. part.0 < length forms.now) parts.now }
    requires sum { sum_by (λ part. part.1) parts.now < 2 ^ 100 }

    // The sums begin with 0 and end as the coefficients of the weighted sum.
    requires empty { (i : ℕ) → slice_index_or sums.old i (pos 0) ≡ pos 0 }
    ensures constant { result ≡ (weighted forms.now parts.now).constant }
    ensures coefficients { (i : ℕ) → i < length sums.old → slice_index_or sums.new i (pos 0) ≡
        slice_index_or (weighted forms.now parts.now).coefficients i (pos 0) }
{
    let mut constant = 0i128;
    for part in parts {
        let form = &forms[part.0 as usize];
        constant = plus_product(constant, part.1, form.constant());
        add_form(sums, part.1, form);
    }
    constant
}
