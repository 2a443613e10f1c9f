//! The work towards an answer, a pivot at a time, until the lines show one.
ghost use Rattle.std.specs.Prelude.{◌+◌, ◌<◌, ◌↔◌, ◌<ℤ◌, length, pos, IsTrue, IfErr, IfOk, OnOk};
ghost use Rattle.design_problem.specs.Steps.{IsStepTooWide};
ghost use Rattle.fraction_table.specs.PivotForms.{IsFirstFound, IsPivotFormFound, IsPivotLine, IsShortestFound, row_constant, sign_at};
ghost use Rattle.fraction_table.specs.Pivots.{IsAhead, KeepsBoxAndRows};
ghost use Rattle.fraction_table.specs.Tableaus.{wide_at};
ghost use Rattle.fraction_table.specs.ValidTables.{HasRoom, IsTableau};

use crate::Solved;
use crate::shortest::shorter_row;
use crate::table::Table;
use wide_fraction::Wide;

impl Table {
    /// Whether the constant of a line is negative.
    fn is_below(&self, line: usize) -> bool
        requires { line < length self.now.lines.items }
        ensures { IsTrue result ↔ (sign_at self.now line <ℤ pos 0) }
    {
        self.lines[line].constant().is_negative()
    }

    /// The first form of the box with a negative constant: one x - low, or, where there is none, one high - x.
    fn first_negative_bound(&self) -> Option<usize>
        requires tableau { IsTableau self.now }
        requires room { HasRoom self.now }
        ensures { IsFirstFound (length self.now.costs.low + length self.now.costs.low)
            (sign_at self.now) result }
    {
        let width = self.costs.low.as_slice().len();
        for line in 0..width + width {
            if self.is_below(line) {
                return Some(line);
            }
        }
        None
    }

    /// The shortest row so far with a negative constant, once one more was looked at.
    fn look_at_row(&self, shortest: Option<usize>, row: usize) -> Option<usize>
        requires tableau { IsTableau self.now }
        requires room { HasRoom self.now }
        requires row { row < length self.now.rows.items }
        requires shortest { IsShortestFound row self.now.rows.items
            (row_constant (length self.now.costs.low) (sign_at self.now)) shortest }
        ensures { IsShortestFound (row + 1) self.now.rows.items
            (row_constant (length self.now.costs.low) (sign_at self.now)) result }
    {
        let width = self.costs.low.as_slice().len();
        let line = width + width + row;
        if !self.is_below(line) {
            return shortest;
        }
        match shortest {
            None => Some(row),
            Some(earlier) => Some(shorter_row(self.rows.as_slice(), earlier, row)),
        }
    }

    /// Of the rows with a negative constant the one with the fewest terms, of equals the first.
    fn shortest_negative_row(&self) -> Option<usize>
        requires tableau { IsTableau self.now }
        requires room { HasRoom self.now }
        ensures { IsShortestFound (length self.now.rows.items) self.now.rows.items
            (row_constant (length self.now.costs.low) (sign_at self.now)) result }
    {
        let mut shortest = None;
        for row in 0..self.rows.len() {
            shortest = self.look_at_row(shortest, row);
        }
        shortest
    }

    /// The pivot form, by its line: the first form x - low with a negative constant, else the first form high - x with
    /// one, else of the rows with one the row with the fewest terms, of equals the first.
    pub fn pivot_form(&self) -> Option<usize>
        requires tableau { IsTableau self.now }
        requires room { HasRoom self.now }
        ensures { IsPivotFormFound (length self.now.costs.low) self.now.rows.items
            (sign_at self.now) result }
    {
        if let Some(line) = self.first_negative_bound() {
            return Some(line);
        }
        let width = self.costs.low.as_slice().len();
        match self.shortest_negative_row() {
            None => None,
            Some(row) => Some(width + width + row),
        }
    }

    /// Turns the table at the pivot form's line; or tells that the line refutes the box, where no column has a positive
    /// entry in it.
    fn raise(&mut self, line: usize) -> Result<Option<Solved>, Wide>
        // The lines are the table at the basis, and the line is that of its pivot form.
        requires tableau { IsTableau self.old }
        requires room { HasRoom self.old }
        requires due { IsPivotLine self.old line }

        // On Ok the lines are the table at the basis again; it shows the answer, or its rank rose.
        ensures tableau { OnOk result (IsTableau self.new) }
        ensures ahead { IfOk result (λ solved. IsAhead self.old self.new solved) }

        // In any case it has the same box and rows, and room for pivots.
        ensures keeps { KeepsBoxAndRows self.old self.new }
        ensures room { HasRoom self.new }

        // On Err a step at the basis that is left is too wide.
        ensures wide { IfErr result (λ wide. IsStepTooWide self.new.top self.new.costs
            self.new.rows.items (wide_at wide self.new.basis.items)) }
    {
        match self.choose(line)? {
            None => Ok(Some(Solved::Refuted(line as u64))),
            Some(column) => {
                self.pivot(line, column)?;
                Ok(None)
            }
        }
    }

    /// One step towards the answer: the answer, where the lines show it, and else a pivot at the pivot form's line.
    ///
    /// # Errors
    ///
    /// `Wide` where the step makes a whole number that passes the top; it is one at the basis that is left.
    pub fn advance(&mut self) -> Result<Option<Solved>, Wide>
        // The lines are the table at the basis, with room for pivots.
        requires tableau { IsTableau self.old }
        requires room { HasRoom self.old }

        // On Ok the lines are the table at the basis again; it shows the answer, or its rank rose.
        ensures tableau { OnOk result (IsTableau self.new) }
        ensures ahead { IfOk result (λ solved. IsAhead self.old self.new solved) }

        // In any case it has the same box and rows, and room for pivots.
        ensures keeps { KeepsBoxAndRows self.old self.new }
        ensures room { HasRoom self.new }

        // On Err a step at the basis that is left is too wide.
        ensures wide { IfErr result (λ wide. IsStepTooWide self.new.top self.new.costs
            self.new.rows.items (wide_at wide self.new.basis.items)) }
    {
        match self.pivot_form() {
            None => Ok(Some(Solved::Feasible)),
            Some(line) => self.raise(line),
        }
    }
}
