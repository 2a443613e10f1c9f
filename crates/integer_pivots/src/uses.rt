//! Which rows have a coefficient of a variable.
ghost use Rattle.std.specs.Prelude.{◌≡◌, ℕ, ◌^◌, ◌+◌, ◌*◌, ◌<◌, ◌≤◌, ◌++◌, [], nat_abs, ◌+ℤ◌, ◌*ℤ◌, length, map, slice_index_or, All, IfOk, OnOk};
ghost use Rattle.cost_base.specs.Lists.{numbers_from};
ghost use Rattle.whole_numbers.specs.Lists.{number_at};
ghost use Rattle.integer_pivots.specs.Uses.{HaveRoom, coefficient_in, uses_in, size_in, use_of};

use cost_base::OutOfMemory;
use design_problem::Form;
use std::alloc::Global;

/// A row that has a coefficient other than 0 of a variable.
#[derive(Clone, Copy)]
pub struct Use {
    /// The row's number, from 0.
    pub row: usize,
    /// The row's coefficient of the variable.
    pub coefficient: i64,
}

/// A list without uses for each of so many variables.
///
/// # Errors
///
/// `OutOfMemory`.
pub fn empty_uses(alloc: Global, count: usize) -> Result<Vec<Vec<Use>>, OutOfMemory>
    ensures { IfOk result (λ uses. uses_in uses.items ≡ map (λ var. []) (numbers_from 0 count)) }
{
    let mut uses = Vec::new(alloc);
    for _ in 0..count {
        uses.push(Vec::new(alloc))?;
    }
    Ok(uses)
}

/// Makes room for one use more of each variable.
///
/// # Errors
///
/// `OutOfMemory` where a list got no memory. Then the lists hold what they held.
pub fn reserve_uses(uses: &mut [Vec<Use>]) -> Result<(), OutOfMemory>
    ensures same { uses_in uses.new ≡ uses_in uses.old }
    ensures room { OnOk result (HaveRoom uses.new) }
{
    for var in 0..uses.len() {
        if uses[var].reserve(1).is_err() {
            return Err(OutOfMemory);
        }
    }
    Ok(())
}

/// Puts a row's uses at the end of the lists of its variables. The lists have room for one use more each.
pub fn push_uses(uses: &mut [Vec<Use>], form: &Form, row: usize)
    requires count { length form.now.coefficients ≤ length uses.old }
    requires sizes { All (λ c. nat_abs c ≤ 2 ^ 26) form.now.coefficients }
    requires room { HaveRoom uses.old }
    ensures { (v : ℕ) → v < length uses.old → slice_index_or (uses_in uses.new) v [] ≡
        slice_index_or (uses_in uses.old) v [] ++ use_of row (number_at form.now.coefficients v) }
{
    for term in form.terms() {
        uses[term.var as usize].push_reserved(Use {
            row,
            coefficient: term.coefficient,
        });
    }
}

/// Puts to the sum of each row that uses a variable its coefficient times the variable's number. The sums of the rows
/// stand in their order from a first place on.
pub fn put_uses(sums: &mut [i64], uses: &Vec<Use>, number: i64, first: usize)
    requires known { All (λ u. first + u.row < length sums.old) uses.now.items }
    requires number { nat_abs number ≤ 2 ^ 45 }
    requires small { All (λ u. nat_abs (number_at sums.old (first + u.row)) +
        size_in uses.now.items u.row * 2 ^ 45 ≤ 2 ^ 62) uses.now.items }
    ensures before { (v : ℕ) → v < first → number_at sums.new v ≡ number_at sums.old v }
    ensures rows { (row : ℕ) → number_at sums.new (first + row) ≡
        (number_at sums.old (first + row) +ℤ (number *ℤ coefficient_in uses.now.items row)) }
{
    if number == 0 {
        return;
    }
    for index in 0..uses.len() {
        let row_use = uses[index];
        sums[first + row_use.row] += row_use.coefficient * number;
    }
}
