//! Whole multipliers of rows that refute a box.
ghost use Rattle.std.specs.Prelude.{◌≡◌, ℕ, suc, ◌^◌, ◌<◌, ◌≤◌, ◌++◌, ◌∷◌, [], length, nat_abs, pos, sum_by, All, IfErr, IfOk, OnOk};
ghost use Rattle.std.specs.List.Sorted.{IsPermutation};
ghost use Rattle.whole_numbers.specs.Fractions.{sum_of};
ghost use Rattle.wide_fraction.specs.Widths.{IsWithin};
ghost use Rattle.design_problem.specs.Boxes.{Refutes};
ghost use Rattle.design_problem.specs.Steps.{IsRefutingForm, unless_zero};
ghost use Rattle.fraction_lines.specs.Entries.{AllNumbers, IsPassing};
ghost use Rattle.fraction_table.specs.Multipliers.{AreParts, IsMultiplierStep, IsTallyStep, IsWideAtBasis, IsWideMultiplier, common_of};
ghost use Rattle.fraction_table.specs.Multipliers.{fractions, fractions_of, numbered, whole_multipliers, wholes};
ghost use Rattle.fraction_table.specs.Pivots.{line_at, member_at};
ghost use Rattle.fraction_table.specs.ValidTables.{HasRoom, IsTableau};

use crate::SimplexStop;
use crate::table::Table;
use cost_base::OutOfMemory;
use design_problem::{Member, Multipliers};
use std::alloc::Global;
use wide_fraction::{Frac, Top, Wide, add, lcm, mul, scale};

/// Puts the fraction of a member, where that is a row.
///
/// # Errors
///
/// `OutOfMemory` where the list got no memory.
pub fn put_fraction(
    parts: &mut Vec<(u64, Frac)>,
    member: Member,
    fraction: Frac,
) -> Result<(), OutOfMemory>
    ensures { OnOk result (parts.new.items ≡ parts.old.items ++ numbered member (fraction ∷ [])) }
{
    match member {
        Member::Low(_, _) => Ok(()),
        Member::High(_, _) => Ok(()),
        Member::Row(row) => Ok(parts.push((row, fraction))?),
    }
}

/// Puts the negated entry of a member's column, where the member is a row and the entry isn't 0.
///
/// # Errors
///
/// `OutOfMemory` where the list got no memory.
pub fn put_negated(
    parts: &mut Vec<(u64, Frac)>,
    member: Member,
    entry: Frac,
) -> Result<(), OutOfMemory>
    ensures { OnOk result (parts.new.items ≡ parts.old.items ++
        numbered member (unless_zero entry.numerator entry)) }
{
    if entry.is_zero() {
        Ok(())
    } else {
        put_fraction(parts, member, entry.negated())
    }
}

/// The least common multiple of the denominators, made one by one.
///
/// # Errors
///
/// `Wide` where one of these passes `top`.
fn common_multiple(parts: &[(u64, Frac)], top: Top) -> Result<i128, Wide>
    requires numbers { AllNumbers top parts.now }
    ensures exact { IfOk result (λ multiple. multiple ≡ pos (common_of parts.now)) }
    ensures within { IfOk result (λ multiple. nat_abs multiple ≤ top) }
    ensures step { IfErr result (IsMultiplierStep (fractions parts.now)) }
    ensures passes { IfErr result (λ wide. IsPassing top wide) }
{
    // For the prover: that `top` has from 28 to 127 bits is known once it is read.
    let _ = top.value();
    let mut multiple = 1;
    for index in 0..parts.len() {
        let (_, fraction) = parts[index];
        multiple = lcm(multiple, fraction.denominator(), top)?;
    }
    Ok(multiple)
}

/// Each fraction, times the common multiple of the denominators.
///
/// # Errors
///
/// `TooWide` where a product makes a whole number that passes `top`; `OutOfMemory`.
fn made_parts(
    alloc: Global,
    parts: &[(u64, Frac)],
    multiple: i128,
    top: Top,
) -> Result<Vec<(u64, u128)>, SimplexStop>
    // The multiple is the least common one of the denominators, and within the top.
    requires numbers { AllNumbers top parts.now }
    requires multiple { multiple ≡ pos (common_of parts.now) }
    requires within { nat_abs multiple ≤ top }

    // On Ok the multipliers are whole numbers, and each is within the top.
    ensures exact { IfOk result (λ made. made.items ≡ whole_multipliers parts.now) }
    ensures within { IfOk result (λ made. All (λ part. part.1 ≤ top) made.items) }

    // On Err a step that makes whole numbers of them is too wide, unless it was want of memory.
    ensures wide { IfErr result (IsWideMultiplier top (fractions parts.now)) }
{
    // For the prover: that `top` has at most 127 bits is known once it is read.
    let _ = top.value();
    let mut made = Vec::new(alloc);
    for index in 0..parts.len() {
        let (row, fraction) = parts[index];
        let product = mul(fraction, Frac::whole_wide(multiple), top)?;
        made.push((row, product.numerator().unsigned_abs()))?;
    }
    Ok(made)
}

/// The sum of the multipliers, made one by one.
///
/// # Errors
///
/// `Wide` where one of these steps makes a whole number that passes `top`.
fn sum_of_parts(parts: &[(u64, u128)], top: Top) -> Result<Frac, Wide>
    requires within { All (λ part. part.1 ≤ top) parts.now }
    ensures exact { IfOk result (λ sum. sum ≡ sum_of (wholes parts.now)) }
    ensures within { IfOk result (λ sum. IsWithin top sum) }
    ensures step { IfErr result (IsTallyStep (wholes parts.now)) }
    ensures passes { IfErr result (λ wide. IsPassing top wide) }
{
    // For the prover: that `top` has from 28 to 127 bits is known once it is read.
    let _ = top.value();
    let mut sum = Frac::whole(0);
    for index in 0..parts.len() {
        let (_, multiplier) = parts[index];
        sum = add(sum, Frac::whole_wide(multiplier as i128), top)?;
    }
    Ok(sum)
}

/// Tries that the sum of the multipliers is below 2^100: that its multiple by 2^27 doesn't pass `top`.
///
/// # Errors
///
/// `Wide` where that or a step of the sum does.
fn check_sum(parts: &[(u64, u128)], top: Top) -> Result<(), Wide>
    requires within { All (λ part. part.1 ≤ top) parts.now }
    requires positive { 0 < sum_by (λ part. part.1) parts.now }
    ensures small { OnOk result (sum_by (λ part. part.1) parts.now < 2 ^ 100) }
    ensures step { IfErr result (IsTallyStep (wholes parts.now)) }
    ensures passes { IfErr result (λ wide. IsPassing top wide) }
{
    // For the prover: that `top` has at most 127 bits is known once it is read.
    let _ = top.value();
    let sum = sum_of_parts(parts, top)?;
    scale(sum.numerator(), top)?;
    Ok(())
}

/// Whole multipliers in order of their rows: the fractions, times the common multiple of their denominators.
///
/// # Errors
///
/// `TooWide` where a step makes a whole number that passes `top`; `OutOfMemory`.
pub fn whole_multipliers(
    alloc: Global,
    parts: &[(u64, Frac)],
    top: Top,
) -> Result<Multipliers, SimplexStop>
    requires parts { AreParts top parts.now }
    ensures made { IfOk result (IsPermutation (whole_multipliers parts.now)) }
    ensures small { IfOk result (λ made. sum_by (λ part. part.1) made < 2 ^ 100) }
    ensures wide { IfErr result (IsWideMultiplier top (fractions parts.now)) }
{
    let multiple = common_multiple(parts, top)?;
    let mut made = made_parts(alloc, parts, multiple, top)?;
    check_sum(made.as_slice(), top)?;
    made.sort_unstable_by_key(|part| part.0);
    Ok(Multipliers::from_items(made))
}

impl Table {
    /// The multipliers of a line's form and of the basis, of which rows alone have one: 1 for the form itself, and then
    /// the negated entries of the line at the columns, in order, where they aren't 0.
    ///
    /// # Errors
    ///
    /// `OutOfMemory` where the list got no memory.
    fn fractions(&self, alloc: Global, line: usize) -> Result<Vec<(u64, Frac)>, OutOfMemory>
        requires tableau { IsTableau self.now }
        requires room { HasRoom self.now }
        requires line { line < length self.now.lines.items }
        ensures { IfOk result (λ parts. parts.items ≡ fractions_of self.now.basis.items
            (member_at self.now line) (line_at self.now line)) }
    {
        let mut parts = Vec::new(alloc);
        put_fraction(&mut parts, self.member_at(line), Frac::whole(1))?;
        for column in 0..self.basis.len() {
            let entry = self.lines[line].entry(column as u32);
            put_negated(&mut parts, self.basis[column], entry)?;
        }
        Ok(parts)
    }

    /// Whole multipliers of rows that refute the box, by a refuting form.
    ///
    /// # Errors
    ///
    /// `TooWide` where a step makes a whole number that passes `top`; `OutOfMemory`.
    pub fn multipliers(&self, alloc: Global, line: usize) -> Result<Multipliers, SimplexStop>
        // The line is one of the table, and its form can't be made non-negative.
        requires tableau { IsTableau self.now }
        requires room { HasRoom self.now }
        requires line { line < length self.now.lines.items }
        requires refuting { IsRefutingForm self.now.basis.items (line_at self.now line) }

        // On Ok the multipliers refute the box, with at most one row more than there are variables.
        ensures refutes { IfOk result (λ parts. Refutes self.now.rows.items parts self.now.costs) }
        ensures few { IfOk result (λ parts. length parts ≤ suc (length self.now.costs.low)) }

        // On Err a step at the basis is too wide, unless it was want of memory.
        ensures told { IfErr result (IsWideAtBasis self.now) }
    {
        let fractions = self.fractions(alloc, line)?;
        whole_multipliers(alloc, fractions.as_slice(), self.top)
    }
}
