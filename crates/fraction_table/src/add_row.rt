//! One more row: its form, and its line at the present basis.
ghost use Rattle.std.specs.Prelude.{◌≡◌, suc, ◌^◌, ◌<◌, ◌≤◌, [], ◌∷◌, ◌++◌, ◌*ℤ◌, ◌+ℤ◌, ◌≤ℤ◌, length, nat_abs, pos, All, IfErr, IfOk, OnOk};
ghost use Rattle.design_problem.specs.Forms.{value_for_costs};
ghost use Rattle.design_problem.specs.Steps.{IsStepTooWide, start_of_sum};
ghost use Rattle.fraction_table.specs.RowLines.{HasPlace, HoldsRow, HoldsSame, IsAddedLine, IsBlankLine, IsRowStep, sum_at_place};
ghost use Rattle.fraction_lines.specs.Sums.{AreVariableLines};
ghost use Rattle.fraction_lines.specs.TableLines.{IsTableNumber, blank_line};
ghost use Rattle.fraction_table.specs.Tableaus.{FitsBox, wide_at};
ghost use Rattle.fraction_lines.specs.Turns.{AreTableLines};
ghost use Rattle.fraction_table.specs.ValidTables.{HasRoom, IsTableau};

use crate::table::Table;
use cost_base::OutOfMemory;
use design_problem::{CostBox, Form};
use fraction_lines::{TableLine, sum_at, sum_lines};
use std::alloc::Global;
use wide_fraction::{Frac, Top, Wide};

/// A form, and a line of zeros that is to become its line.
#[derive(Drop)]
pub struct BlankLine {
    /// The form of the row that is to be added.
    pub form: Form,
    /// The line of zeros.
    pub line: TableLine,
}

/// A coefficient times a lower bound.
fn corner_term(coefficient: i64, low: u16) -> i128
    requires { nat_abs coefficient ≤ 2 ^ 26 }
    ensures value { result ≡ (coefficient *ℤ pos low) }
    ensures most { result ≤ℤ pos (2 ^ 42) }
    ensures least { pos 0 ≤ℤ (result +ℤ pos (2 ^ 42)) }
{
    i128::from(coefficient) * i128::from(low)
}

/// The form's value at the low corner of the box.
pub fn corner_sum(form: &Form, costs: &CostBox) -> i128
    requires count { length form.now.coefficients ≡ length costs.now.low }
    requires sizes { All (λ c. nat_abs c ≤ 2 ^ 26) form.now.coefficients }
    ensures { result ≡ value_for_costs form.now costs.now.low }
{
    let low = costs.low.as_slice();
    let terms = form.terms();
    let mut sum = i128::from(form.constant());
    for term in terms {
        let var = term.var as usize;
        sum += corner_term(term.coefficient, low[var]);
    }
    sum
}

/// That value of a form that fits.
pub fn corner_value(form: &Form, costs: &CostBox) -> i64
    requires { FitsBox costs.now form.now }
    ensures { result ≡ value_for_costs form.now costs.now.low }
{
    corner_sum(form, costs) as i64
}

/// What the form's sum at a place starts with: its value at the low corner for the constant, and 0 for a column.
fn start_at(form: &Form, costs: &CostBox, place: u32, top: Top) -> Frac
    requires fits { FitsBox costs.now form.now }
    ensures start { result ≡ start_of_sum costs.now form.now place }
    ensures number { IsTableNumber top result }
{
    // For the prover: that `top` has at least 28 bits, so that the value is within it, is known once it is read.
    let _ = top.value();
    if place == 0 {
        Frac::whole(corner_value(form, costs))
    } else {
        Frac::whole(0)
    }
}

/// What the form's line has at a place, by the lines of x - low for each variable.
fn sum_of_form(
    form: &Form,
    costs: &CostBox,
    lines: &[TableLine],
    place: u32,
    top: Top,
) -> Result<Frac, Wide>
    // The form fits the box, each variable has a line, and the place is one of a line.
    requires fits { FitsBox costs.now form.now }
    requires lines { AreTableLines top (suc (length costs.now.low)) lines.now }
    requires many { length costs.now.low ≤ length lines.now }
    requires place { place < suc (length costs.now.low) }

    // On Ok the sum is exact, and a number of the table.
    ensures exact { IfOk result (λ q. q ≡ sum_at_place costs.now form.now lines.now place) }
    ensures number { IfOk result (λ q. IsTableNumber top q) }

    // On Err a step of the form's sum at some place is too wide.
    ensures wide { IfErr result (IsRowStep top costs.now form.now lines.now) }
{
    let start = start_at(form, costs, place, top);
    sum_at(start, form, lines, place, top)
}

/// Puts the form's line in place of a line of zeros: first its constant, and then its columns in order.
///
/// # Errors
///
/// `Wide` where a step of one of these sums makes a whole number that passes `top`.
fn fill_in_order(
    line: &mut TableLine,
    form: &Form,
    costs: &CostBox,
    lines: &[TableLine],
    top: Top,
) -> Result<(), Wide>
    // The form fits the box, which has fewer than 2^32 variables.
    requires fits { FitsBox costs.now form.now }
    requires few { length costs.now.low < 2 ^ 32 }

    // Each variable has a line, and the form's line is one of zeros.
    requires lines { AreTableLines top (suc (length costs.now.low)) lines.now }
    requires many { length costs.now.low ≤ length lines.now }
    requires blank { line.old ≡ blank_line (length costs.now.low) }

    // On Ok the line has the form's sum at each place; else a step of such a sum is too wide.
    ensures line { OnOk result (IsAddedLine top costs.now form.now lines.now line.new) }
    ensures wide { IfErr result (IsRowStep top costs.now form.now lines.now) }
{
    line.set_constant(sum_of_form(form, costs, lines, 0, top)?);
    let width = costs.low.as_slice().len() as u32;
    for column in 0..width {
        let entry = sum_of_form(form, costs, lines, column + 1, top)?;
        line.push(column, entry);
    }
    Ok(())
}

/// Puts the line of the row's form in place of its line of zeros, variable by variable. `scratch` is a line of
/// the same width.
///
/// # Errors
///
/// `Wide` where a step of one of the sums makes a whole number that passes `top`; which one is found first depends on
/// the order.
fn gather_line(
    row: &mut BlankLine,
    costs: &CostBox,
    lines: &[TableLine],
    scratch: &mut TableLine,
    top: Top,
) -> Result<(), Wide>
    // The row's form fits the box, its line is one of zeros, and each variable has a line.
    requires row { IsBlankLine costs.now row.old.form row.old.line }
    requires lines { AreVariableLines top (suc (length costs.now.low)) (length costs.now.low)
        lines.now }
    requires scratch { length scratch.old ≡ suc (length costs.now.low) }

    // The form stays, and on Ok its line has the form's sum at each place.
    ensures form { row.new.form ≡ row.old.form }
    ensures line { OnOk result (IsAddedLine top costs.now row.old.form lines.now row.new.line) }

    // In any case both lines keep their width.
    ensures width { length row.new.line ≡ length row.old.line }
    ensures scratch_width { length scratch.new ≡ length scratch.old }
{
    row.line.set_constant(start_at(&row.form, costs, 0, top));
    sum_lines(&mut row.line, &row.form, lines, scratch, top)
}

/// Puts the line of the row's form in place of its line of zeros. Where a step is too wide, the line is made in order,
/// so that the step that is named is the first one in that order. `scratch` is a line of the same width.
///
/// # Errors
///
/// `Wide` where a step of one of the sums makes a whole number that passes `top`.
fn fill_line(
    row: &mut BlankLine,
    costs: &CostBox,
    lines: &[TableLine],
    scratch: &mut TableLine,
    top: Top,
) -> Result<(), Wide>
    // The row's form fits the box, its line is one of zeros, and each variable has a line.
    requires row { IsBlankLine costs.now row.old.form row.old.line }
    requires few { length costs.now.low < 2 ^ 32 }
    requires lines { AreVariableLines top (suc (length costs.now.low)) (length costs.now.low)
        lines.now }
    requires scratch { length scratch.old ≡ suc (length costs.now.low) }

    // The form stays, and on Ok its line has the form's sum at each place.
    ensures form { row.new.form ≡ row.old.form }
    ensures line { OnOk result (IsAddedLine top costs.now row.old.form lines.now row.new.line) }

    // On Err a step of such a sum is too wide; `scratch` keeps its width in any case.
    ensures wide { IfErr result (IsRowStep top costs.now row.old.form lines.now) }
    ensures scratch_width { length scratch.new ≡ length scratch.old }
{
    match gather_line(row, costs, lines, scratch, top) {
        Ok(()) => Ok(()),
        Err(_) => {
            row.line.clear();
            fill_in_order(&mut row.line, &row.form, costs, lines, top)
        }
    }
}

impl Table {
    /// Makes room for one more row, and the row's parts: a copy of the form, and a line of zeros.
    ///
    /// # Errors
    ///
    /// `OutOfMemory` where something got no memory. Then the table holds what it held.
    pub fn make_room(&mut self, alloc: Global, form: &Form) -> Result<BlankLine, OutOfMemory>
        requires few { length self.old.costs.low < 2 ^ 32 }
        ensures same { HoldsSame self.old self.new }
        ensures place { OnOk result (HasPlace self.new) }
        ensures form { IfOk result (λ row. row.form ≡ form.now) }
        ensures blank { IfOk result (λ row. row.line ≡ blank_line (length self.old.costs.low)) }
    {
        let copy = form.copy(alloc)?;
        let line = TableLine::zero(alloc, self.costs.low.as_slice().len() as u32)?;
        self.rows.reserve(1)?;
        self.lines.reserve(1)?;
        Ok(BlankLine { form: copy, line })
    }

    /// Adds a row for which there is room, with its line at the present basis.
    ///
    /// # Errors
    ///
    /// `Wide` where a step of the line makes a whole number that passes `top`. The row was added nevertheless.
    pub fn put_row(&mut self, row: BlankLine) -> Result<(), Wide>
        // The lines are the table at the basis, and there is a place for one more row.
        requires tableau { IsTableau self.old }
        requires room { HasRoom self.old }
        requires place { HasPlace self.old }

        // The row's form fits the box, and its line is one of zeros.
        requires fits { FitsBox self.old.costs row.form }
        requires blank { row.line ≡ blank_line (length self.old.costs.low) }

        // The row is added in any case, and on Ok the lines are the table at the basis again.
        ensures holds { HoldsRow self.old row.form self.new }
        ensures tableau { OnOk result (IsTableau self.new) }

        // On Err a step at the basis is too wide.
        ensures wide { IfErr result (λ wide. IsStepTooWide self.new.top self.new.costs
            self.new.rows.items (wide_at wide self.new.basis.items)) }
    {
        let mut row = row;
        let lines = self.lines.as_slice();
        let scratch = &mut self.scratch;
        let filled = fill_line(&mut row, &self.costs, lines, scratch, self.top);
        let BlankLine { form, line } = row;
        self.rows.push_reserved(form);
        self.lines.push_reserved(line);
        filled
    }

    /// Adds a row for which there is room, with its line of zeros.
    pub fn put_blank(&mut self, row: BlankLine)
        requires place { HasPlace self.old }
        ensures holds { HoldsRow self.old row.form self.new }
        ensures lines { self.new.lines.items ≡ self.old.lines.items ++ row.line ∷ [] }
    {
        let BlankLine { form, line } = row;
        self.rows.push_reserved(form);
        self.lines.push_reserved(line);
    }
}
