//! The choice of a pivot's column.
ghost use Rattle.std.specs.Prelude.{◌≡◌, ◌≢◌, ℕ, suc, ◌+◌, ◌<◌, length, pos, ◌<ℤ◌, Some, IfErr, IfOk};
ghost use Rattle.cost_base.specs.declared.StepName.TheVariants.{Div, Mul};
ghost use Rattle.whole_numbers.specs.Fractions.{IsLowest, divided};
ghost use Rattle.wide_fraction.specs.Widths.{IsWithin};
ghost use Rattle.design_problem.specs.Basis.{entry};
ghost use Rattle.design_problem.specs.Steps.{IsPivot, IsStepTooWide};
ghost use Rattle.fraction_lines.specs.TableLines.{AreTableNumbers};
ghost use Rattle.fraction_lines.specs.Entries.{IsPassing};
ghost use Rattle.fraction_table.specs.Pivots.{IsBestBelow, IsOrdered, entries_order, line_at};
ghost use Rattle.fraction_table.specs.Tableaus.{wide_at};
ghost use Rattle.fraction_table.specs.ValidTables.{HasRoom, IsTableau};

use crate::table::Table;
use fraction_lines::TableLine;
use std::cmp::Ordering;
use wide_fraction::{Frac, Top, Wide, cmp, div, mul};

/// The quotient of the entries in the other column and in the column.
fn entry_quotient(line: &TableLine, column: u32, other: u32, top: Top) -> Result<Frac, Wide>
    // The line has both columns, and the divisor, its entry in the first, isn't 0.
    requires column { suc column < length line.now }
    requires other { suc other < length line.now }
    requires numbers { AreTableNumbers top line.now }
    requires not_zero { (entry line.now (suc column)).numerator ≢ pos 0 }

    // On Ok the quotient is exact, and within the top.
    ensures exact { IfOk result (λ q. q ≡ divided (entry line.now (suc other))
        (entry line.now (suc column))) }
    ensures within { IfOk result (λ q. IsWithin top q) }

    // On Err the step is the division, and makes a number that passes the top.
    ensures named { IfErr result (λ wide. wide ≡ record {
      step = Div;
      left = entry line.now (suc other);
      right = entry line.now (suc column);
    }) }
    ensures passes { IfErr result (λ wide. IsPassing top wide) }
{
    div(line.entry(other), line.entry(column), top)
}

/// How the entry in the other column stands to the one in the column, times the quotient. No step is taken where both
/// are 0.
fn entry_order(
    line: &TableLine,
    column: u32,
    other: u32,
    quotient: Frac,
    top: Top,
) -> Result<Ordering, Wide>
    // The line has both columns, and its numbers are those of the table.
    requires column { suc column < length line.now }
    requires other { suc other < length line.now }
    requires numbers { AreTableNumbers top line.now }

    // The quotient is in lowest terms, and within the top.
    requires quotient { IsWithin top quotient }
    requires lowest { IsLowest quotient }

    // On Ok the entry in the other column is compared with the multiple of that in the column.
    ensures order { IfOk result (λ found. found ≡ entries_order line.now column other quotient) }

    // On Err the step is that multiple, and makes a number that passes the top.
    ensures named { IfErr result (λ wide. wide ≡ record {
      step = Mul;
      left = entry line.now (suc column);
      right = quotient;
    }) }
    ensures passes { IfErr result (λ wide. IsPassing top wide) }
{
    if line.lacks(column) {
        if line.lacks(other) {
            return Ok(Ordering::Equal);
        }
    }
    let own = line.entry(column);
    let others = line.entry(other);
    if own.is_zero() && others.is_zero() {
        return Ok(Ordering::Equal);
    }
    let multiple = mul(own, quotient, top)?;
    Ok(cmp(others, multiple))
}

impl Table {
    /// Whether, by a line's form, the other column comes before the column, each over the form's entry in it: they are
    /// compared at the forms x - low, in order.
    ///
    /// # Errors
    ///
    /// `Wide` where a step of this makes a whole number that passes `top`.
    fn precedes(&self, line: usize, column: u32, other: u32) -> Result<bool, Wide>
        // A pivot may be made on the line at either column.
        requires tableau { IsTableau self.now }
        requires line { line < length self.now.lines.items }
        requires column { IsPivot self.now.basis.items (line_at self.now line) (suc column) }
        requires other { IsPivot self.now.basis.items (line_at self.now line) (suc other) }

        // On Ok the column that is told to come first doesn't come after the other.
        ensures order { IfOk result (λ before. IsOrdered before self.now line column other) }

        // On Err a step at the basis is too wide.
        ensures wide { IfErr result (λ wide. IsStepTooWide self.now.top self.now.costs
            self.now.rows.items (wide_at wide self.now.basis.items)) }
    {
        let quotient = entry_quotient(&self.lines[line], column, other, self.top)?;
        for place in 0..self.costs.low.as_slice().len() {
            let order = entry_order(&self.lines[place], column, other, quotient, self.top)?;
            match order {
                Ordering::Less => return Ok(true),
                Ordering::Greater => return Ok(false),
                Ordering::Equal => {}
            }
        }
        Ok(false)
    }

    /// The better of the best column so far and one more in which the line has a positive entry.
    fn better(&self, line: usize, best: Option<u32>, column: u32) -> Result<u32, Wide>
        // A pivot may be made on the line at the column, and `best` is the best one before it.
        requires tableau { IsTableau self.now }
        requires line { line < length self.now.lines.items }
        requires column { IsPivot self.now.basis.items (line_at self.now line) (suc column) }
        requires best { IsBestBelow self.now line column best }

        // On Ok it is the best up to that column; on Err a step at the basis is too wide.
        ensures best { IfOk result (λ better. IsBestBelow self.now line (column + 1)
            (Some better)) }
        ensures wide { IfErr result (λ wide. IsStepTooWide self.now.top self.now.costs
            self.now.rows.items (wide_at wide self.now.basis.items)) }
    {
        match best {
            None => Ok(column),
            Some(best) => {
                let changes = self.precedes(line, best, column)?;
                if changes { Ok(column) } else { Ok(best) }
            }
        }
    }

    /// The best column so far, once one more was looked at.
    fn look_at(&self, line: usize, best: Option<u32>, column: u32) -> Result<Option<u32>, Wide>
        // The line is one of the table, with a negative constant.
        requires tableau { IsTableau self.now }
        requires line { line < length self.now.lines.items }
        requires below { (entry (line_at self.now line) 0).numerator <ℤ pos 0 }

        // `best` is the best before this column, and on Ok the result is the best up to it.
        requires column { column < length self.now.costs.low }
        requires best { IsBestBelow self.now line column best }
        ensures best { IfOk result (λ found. IsBestBelow self.now line (column + 1) found) }

        // On Err a step at the basis is too wide.
        ensures wide { IfErr result (λ wide. IsStepTooWide self.now.top self.now.costs
            self.now.rows.items (wide_at wide self.now.basis.items)) }
    {
        let entry = self.lines[line].entry(column);
        if entry.is_positive() {
            let better = self.better(line, best, column)?;
            Ok(Some(better))
        } else {
            Ok(best)
        }
    }

    /// The column of a pivot on a line whose constant is negative: of the columns in which it has a positive entry the
    /// least one, each over that entry. None exactly where it has no positive entry.
    ///
    /// # Errors
    ///
    /// `Wide` where a step of a comparison makes a whole number that passes `top`.
    pub fn choose(&self, line: usize) -> Result<Option<u32>, Wide>
        // The line is one of the table, with a negative constant.
        requires tableau { IsTableau self.now }
        requires room { HasRoom self.now }
        requires line { line < length self.now.lines.items }
        requires below { (entry (line_at self.now line) 0).numerator <ℤ pos 0 }

        // On Ok it is the best of all columns; None says that no entry there is positive.
        ensures best { IfOk result (λ best. IsBestBelow self.now line (length self.now.costs.low)
            best) }

        // On Err a step at the basis is too wide.
        ensures wide { IfErr result (λ wide. IsStepTooWide self.now.top self.now.costs
            self.now.rows.items (wide_at wide self.now.basis.items)) }
    {
        let width = self.costs.low.as_slice().len() as u32;
        let mut best = None;
        for column in 0..width {
            best = self.look_at(line, best, column)?;
        }
        Ok(best)
    }
}
