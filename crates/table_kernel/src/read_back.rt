//! The lines of x - low, read back from the table in fractions.
ghost use Rattle.std.specs.Prelude.{◌≡◌, ℕ, suc, ◌*◌, ◌^◌, ◌<◌, ◌≤◌, ◌↔◌, pos, ◌<ℤ◌, ◌≤ℤ◌, nat_abs, length, All, IsTrue, MatchOption, OnErr, OnOk};
ghost use Prim.Native.Nat.{◌∣◌};
ghost use Rattle.whole_numbers.specs.Fractions.{lcm};
ghost use Rattle.whole_numbers.specs.Lists.{number_at};
ghost use Rattle.design_problem.specs.Basis.{entry};
ghost use Rattle.fraction_table.specs.Tableaus.{FitsBox};
ghost use Rattle.fraction_table.specs.ValidTables.{IsTableau};
ghost use Rattle.integer_pivots.specs.Lines.{IsLine};
ghost use Rattle.integer_pivots.specs.Numbers.{AllWithin};
ghost use Rattle.table_kernel.specs.Kernels.{IsKernel, IsShaped, kernel_lines, width_of};
ghost use Rattle.table_kernel.specs.Numbers.{share_of};
ghost use Rattle.table_kernel.specs.ReadBack.{AllGoInto, FitsOver, IsLeastCommon, IsLeastDenominator, IsParked, IsReadFrom, MayReadBack, low_line, over_denominator};
ghost use Rattle.table_kernel.specs.Rows.{IsCovered};
ghost use Rattle.table_kernel.specs.Turns.{KeepsAllButLows, line_of};

use crate::Kernel;
use crate::kernel::OutOfRange;
use fraction_lines::TableLine;
use integer_pivots::{
    CONSTANT_LIMIT, ENTRY_LIMIT, Line, MarkedNumbers, common_multiple, greatest, put_leads,
    share_in, stays_within,
};
use wide_fraction::Frac;

/// The least common multiple of a denominator and of a fraction's, where it is at most 2^30.
fn with_denominator(common: i64, value: Frac) -> Option<i64>
    requires common { (pos 0 <ℤ common) × (common ≤ℤ pos (2 ^ 30)) }
    ensures { MatchOption result (2 ^ 30 < lcm (nat_abs common) value.denominator)
        (λ new. (pos 0 <ℤ new) × (nat_abs new ≡ lcm (nat_abs common) value.denominator) ×
        (new ≤ℤ pos (2 ^ 30))) }
{
    let denominator = value.denominator();
    if denominator > i128::from(ENTRY_LIMIT) {
        return None;
    }
    common_multiple(common, denominator as i64)
}

/// The least common denominator of a line's fractions, where it is at most 2^30.
fn denominator_of(fractions: &TableLine, width: u32) -> Option<i64>
    requires width { length fractions.now ≡ suc width }
    ensures { MatchOption result ((D : ℕ) → 0 < D → D ≤ 2 ^ 30 → AllGoInto fractions.now D → ⊥)
        (IsLeastDenominator fractions.now) }
{
    let mut common = with_denominator(1, fractions.constant())?;
    for column in 0..width {
        common = with_denominator(common, fractions.entry(column))?;
    }
    Some(common)
}

/// A fraction's number over a multiple of its denominator, where it is at most a limit in size.
fn number_over(value: Frac, denominator: i64, limit: i64) -> Option<i64>
    requires denominator { (pos 0 <ℤ denominator) × (denominator ≤ℤ pos (2 ^ 30)) }
    requires whole { value.denominator ∣ nat_abs denominator }
    requires limit { (pos 0 ≤ℤ limit) × (limit ≤ℤ pos (2 ^ 44)) }
    ensures { MatchOption result
        (nat_abs limit < nat_abs (over_denominator (nat_abs denominator) value))
        (λ number. (number ≡ over_denominator (nat_abs denominator) value) ×
        (nat_abs number ≤ nat_abs limit)) }
{
    let numerator = value.numerator();
    if numerator.unsigned_abs() > limit as u128 {
        return None;
    }
    let number = numerator * (i128::from(denominator) / value.denominator());
    if number.unsigned_abs() > limit as u128 {
        return None;
    }
    Some(number as i64)
}

/// Puts the numbers of a line of fractions at the columns over a denominator.
///
/// # Errors
///
/// `OutOfRange` where one of them passes 2^30 in size.
fn read_numbers(
    numbers: &mut MarkedNumbers,
    fractions: &TableLine,
    denominator: i64,
) -> Result<(), OutOfRange>
    // There is a fraction for each number, behind the constant; each denominator goes into this one.
    requires fractions { length fractions.now ≡ suc (length numbers.old) }
    requires few { length numbers.old < 2 ^ 32 }
    requires denominator { (pos 0 <ℤ denominator) × (denominator ≤ℤ pos (2 ^ 30)) }
    requires whole { AllGoInto fractions.now (nat_abs denominator) }

    // On Ok each number is its column's over the denominator, and within 2^30.
    ensures count { length numbers.new ≡ length numbers.old }
    ensures read { OnOk result ((c : ℕ) → c < length numbers.old →
        number_at numbers.new c ≡ over_denominator (nat_abs denominator) (entry fractions.now (suc c))) }
    ensures small { OnOk result (AllWithin (2 ^ 30) numbers.new) }

    // On Err the number of some column passes 2^30.
    ensures refused { OnErr result ((c : ℕ) × (c < length numbers.old) ×
        (2 ^ 30 < nat_abs (over_denominator (nat_abs denominator) (entry fractions.now (suc c))))) }
{
    for column in 0..numbers.as_slice().len() {
        let Some(number) = number_over(fractions.entry(column as u32), denominator, ENTRY_LIMIT)
        else {
            return Err(OutOfRange);
        };
        numbers.set(column, number);
    }
    Ok(())
}

/// Reads a line from a line of fractions.
///
/// # Errors
///
/// `OutOfRange` where the fractions are within the bounds of a line over no denominator.
fn read_line(line: &mut Line, fractions: &TableLine) -> Result<(), OutOfRange>
    // There is a constant, and a fraction for each number of the line.
    requires fractions { length fractions.now ≡ suc (length line.old.numbers) }
    requires few { length line.old.numbers < 2 ^ 32 }

    // On Ok the line has the fractions' numbers, over their least common denominator.
    ensures count { length line.new.numbers ≡ length line.old.numbers }
    ensures line { OnOk result (IsLine line.new) }
    ensures read { OnOk result (IsReadFrom fractions.now line.new) }

    // On Err the fractions are within the bounds of a line over no denominator.
    ensures refused { OnErr result ((D : ℕ) → FitsOver D fractions.now → ⊥) }
{
    let width = line.numbers.as_slice().len() as u32;
    let Some(denominator) = denominator_of(fractions, width) else {
        return Err(OutOfRange);
    };
    let Some(constant) = number_over(fractions.constant(), denominator, CONSTANT_LIMIT) else {
        return Err(OutOfRange);
    };
    read_numbers(&mut line.numbers, fractions, denominator)?;
    line.denominator = denominator;
    line.constant = constant;
    line.reach = greatest(line.numbers.as_slice());
    Ok(())
}

impl Kernel {
    /// Whether the kernel's bounds cover all rows: the coefficients of each together.
    fn covers_rows(&self) -> bool
        requires few { width_of self.now < 2 ^ 32 }
        requires fit { All (FitsBox self.now.table.costs) self.now.table.rows.items }
        ensures { IsTrue result ↔ All IsCovered self.now.table.rows.items }
    {
        for row in 0..self.table.rows.len() {
            if !self.covers(&self.table.rows[row]) {
                return false;
            }
        }
        true
    }

    /// Reads the lines of all variables from the table in fractions.
    ///
    /// # Errors
    ///
    /// `OutOfRange` where a line of fractions is within the bounds of a line over no denominator.
    fn read_lines(&mut self) -> Result<(), OutOfRange>
        // Each variable has a line, before and after, with a number for each column.
        requires shaped { IsShaped self.old }
        ensures count { length self.new.lows.items ≡ width_of self.old }
        ensures each { All (λ line. length line.numbers ≡ width_of self.old) self.new.lows.items }

        // On Ok each has the numbers of its line of fractions, over their least common denominator.
        ensures lines { OnOk result (All IsLine self.new.lows.items) }
        ensures read { OnOk result ((var : ℕ) → var < width_of self.old →
            IsReadFrom (low_line self.old.table var) (line_of self.new var)) }

        // Nothing else changes, and on Err some line of fractions fits a line over no denominator.
        ensures keeps { KeepsAllButLows self.old self.new }
        ensures refused { OnErr result ((var : ℕ) × (var < width_of self.old) ×
            ((D : ℕ) → FitsOver D (low_line self.old.table var) → ⊥)) }
    {
        for var in 0..self.lows.len() {
            read_line(&mut self.lows[var], &self.table.lines[var])?;
        }
        Ok(())
    }

    /// The least common denominator of all lines, where it is at most 2^30.
    pub(crate) fn common_of_lines(&self) -> Option<i64>
        requires lines { All IsLine self.now.lows.items }
        ensures { MatchOption result ((D : ℕ) → 0 < D → D ≤ 2 ^ 30 →
            All (λ line. nat_abs line.denominator ∣ D) self.now.lows.items → ⊥)
            (IsLeastCommon self.now.lows.items) }
    {
        let mut common = 1;
        for var in 0..self.lows.len() {
            common = common_multiple(common, self.lows[var].denominator)?;
        }
        Some(common)
    }

    /// Whether the constants of all lines are at most 2^44 in size over a common denominator.
    fn constants_fit(&self, common: i64) -> bool
        requires lines { All IsLine self.now.lows.items }
        requires common { IsLeastCommon self.now.lows.items common }
        ensures { IsTrue result ↔
            All (λ line. nat_abs line.constant * share_of (nat_abs common) line ≤ 2 ^ 44)
            self.now.lows.items }
    {
        for var in 0..self.lows.len() {
            let line = &self.lows[var];
            if !stays_within(
                i128::from(line.constant),
                share_in(common, line.denominator),
            ) {
                return false;
            }
        }
        true
    }

    /// Reads the lines back from the table in fractions, and puts the constants.
    ///
    /// # Errors
    ///
    /// `OutOfRange` where the kernel's bounds don't cover the table.
    pub fn read_back(&mut self) -> Result<(), OutOfRange>
        // The kernel is parked; its table's lines are those at the basis, with a top that suffices for a kernel.
        requires parked { IsParked self.old }
        requires tableau { IsTableau self.old.table }
        requires top { 2 ^ 126 ≤ self.old.table.top }

        // The table stays as it is, and the kernel is fit to be parked in any case.
        ensures table { self.new.table ≡ self.old.table }
        ensures parked { IsParked self.new }

        // On Ok it's a kernel again, and stands for the lines of the table.
        ensures kernel { OnOk result (IsKernel self.new) }
        ensures lines { OnOk result (kernel_lines self.new ≡ self.old.table.lines.items) }

        // On Err the kernel's bounds don't cover the table.
        ensures refused { OnErr result (MayReadBack self.old.table → ⊥) }
    {
        if !self.covers_rows() {
            return Err(OutOfRange);
        }
        let read = self.read_lines();
        // Where the columns lead follows the lines, whether all were read or not.
        put_leads(self.leads.as_mut_slice(), self.lows.as_slice());
        read?;
        let Some(common) = self.common_of_lines() else {
            return Err(OutOfRange);
        };
        if !self.constants_fit(common) {
            return Err(OutOfRange);
        }
        self.common = common;
        self.put_constants();
        Ok(())
    }
}
