//! The work towards an answer: pivots, until the constants show one.
ghost use Rattle.std.specs.Prelude.{◌+◌, ◌<◌, ◌≤◌, ◌↔◌, ◌⊎◌, length, pos, ◌<ℤ◌, IsTrue, IfOk, OnErr};
ghost use Rattle.whole_numbers.specs.Lists.{number_at};
ghost use Rattle.fraction_table.specs.declared.stage.Stage.TheVariants.{Ended};
ghost use Rattle.fraction_table.specs.PivotForms.{IsFirstFound, IsPivotFormFound, IsShortestFound, row_constant};
ghost use Rattle.fraction_table.specs.Pivots.{IsAhead, KeepsBoxAndRows};
ghost use Rattle.fraction_table.specs.Ranks.{rank};
ghost use Rattle.fraction_table.specs.ValidTables.{IsShown};
ghost use Rattle.table_kernel.specs.Kernels.{IsKernel, kernel_lines, stated, width_of};
ghost use Rattle.table_kernel.specs.Lines.{IsLineTooLarge, IsPivotPlace, KeepsNumbers};
ghost use Rattle.table_kernel.specs.Turns.{IsHeldUp, IsRefusedAt};

use crate::Kernel;
use crate::kernel::OutOfRange;
use fraction_table::{Solved, shorter_row};

impl Kernel {
    /// Whether the constant of a place's form is negative.
    fn is_below(&self, place: usize) -> bool
        requires { place < length self.now.constants.items }
        ensures { IsTrue result ↔ (number_at self.now.constants.items place <ℤ pos 0) }
    {
        self.constants[place] < 0
    }

    /// The first form of the box with a negative constant: one x - low, or, where there is none, one high - x.
    fn first_negative_bound(&self) -> Option<usize>
        requires kernel { IsKernel self.now }
        ensures { IsFirstFound (width_of self.now + width_of self.now)
            (number_at self.now.constants.items) result }
    {
        let width = self.width();
        for place in 0..width + width {
            if self.is_below(place) {
                return Some(place);
            }
        }
        None
    }

    /// The shortest row so far with a negative constant, once one more was looked at.
    fn look_at_row(&self, shortest: Option<usize>, row: usize) -> Option<usize>
        requires kernel { IsKernel self.now }
        requires row { row < length self.now.table.rows.items }
        requires shortest { IsShortestFound row self.now.table.rows.items
            (row_constant (width_of self.now) (number_at self.now.constants.items)) shortest }
        ensures { IsShortestFound (row + 1) self.now.table.rows.items
            (row_constant (width_of self.now) (number_at self.now.constants.items)) result }
    {
        let width = self.width();
        if !self.is_below(width + width + row) {
            return shortest;
        }
        match shortest {
            None => Some(row),
            Some(earlier) => Some(shorter_row(self.table.rows.as_slice(), earlier, row)),
        }
    }

    /// Of the rows with a negative constant the one with the fewest terms, of equals the first.
    fn shortest_negative_row(&self) -> Option<usize>
        requires kernel { IsKernel self.now }
        ensures { IsShortestFound (length self.now.table.rows.items) self.now.table.rows.items
            (row_constant (width_of self.now) (number_at self.now.constants.items)) result }
    {
        let mut shortest = None;
        for row in 0..self.table.rows.len() {
            shortest = self.look_at_row(shortest, row);
        }
        shortest
    }

    /// The pivot form, by its place: the first form x - low with a negative constant, else the first form high - x with
    /// one, else of the rows with one the row with the fewest terms, of equals the first.
    pub fn pivot_form(&self) -> Option<usize>
        requires kernel { IsKernel self.now }
        ensures { IsPivotFormFound (width_of self.now) self.now.table.rows.items
            (number_at self.now.constants.items) result }
    {
        if let Some(place) = self.first_negative_bound() {
            return Some(place);
        }
        let width = self.width();
        match self.shortest_negative_row() {
            None => None,
            Some(row) => Some(width + width + row),
        }
    }

    /// Turns the kernel at the pivot form; or tells that the form refutes the box, where it is positive at no column.
    ///
    /// # Errors
    ///
    /// `OutOfRange` where the bounds don't cover that. Then the kernel's numbers are as before.
    fn raise(&mut self, place: usize) -> Result<Option<Solved>, OutOfRange>
        // The place is that of the pivot form.
        requires kernel { IsKernel self.old }
        requires due { IsPivotPlace self.old place }

        // On Ok it shows the answer or its rank rose; it has the same box and rows in any case.
        ensures kernel { IsKernel self.new }
        ensures ahead { IfOk result (λ solved. IsAhead (stated self.old) (stated self.new) solved) }
        ensures keeps { KeepsBoxAndRows (stated self.old) (stated self.new) }

        // On Err its numbers stay, since the form's line or the pivot passes the bounds.
        ensures same { OnErr result (KeepsNumbers self.old self.new) }
        ensures refused { OnErr result (IsLineTooLarge self.new place ⊎
            IsRefusedAt self.new place) }
    {
        self.put_line(place)?;
        match self.choose() {
            None => Ok(Some(Solved::Refuted(place as u64))),
            Some(column) => {
                self.pivot(place, column)?;
                Ok(None)
            }
        }
    }

    /// One step towards the answer: the answer, where the constants show it, and else a pivot at the pivot form.
    ///
    /// # Errors
    ///
    /// `OutOfRange` where the bounds don't cover that pivot. Then the kernel's numbers are as before.
    fn advance(&mut self) -> Result<Option<Solved>, OutOfRange>
        // On Ok it shows the answer or its rank rose; it has the same box and rows in any case.
        requires kernel { IsKernel self.old }
        ensures kernel { IsKernel self.new }
        ensures ahead { IfOk result (λ solved. IsAhead (stated self.old) (stated self.new) solved) }
        ensures keeps { KeepsBoxAndRows (stated self.old) (stated self.new) }

        // On Err its numbers stay, since the pivot that is due isn't covered.
        ensures same { OnErr result (KeepsNumbers self.old self.new) }
        ensures held_up { OnErr result (IsHeldUp self.new) }
    {
        match self.pivot_form() {
            None => Ok(Some(Solved::Feasible)),
            Some(place) => self.raise(place),
        }
    }

    /// Turns the kernel until its constants show the answer.
    ///
    /// # Errors
    ///
    /// `OutOfRange` where the bounds don't cover a step. Then the kernel is at the basis at which that step would have
    /// been taken.
    pub fn settle(&mut self) -> Result<Solved, OutOfRange>
        // On Ok the kernel shows the answer; it has the same box and rows in any case.
        requires kernel { IsKernel self.old }
        ensures kernel { IsKernel self.new }
        ensures shown { IfOk result (λ solved. IsShown self.new.table.basis.items
            (kernel_lines self.new) (Ended solved)) }
        ensures keeps { KeepsBoxAndRows (stated self.old) (stated self.new) }

        // On Err the pivot that is due isn't covered, and the rank hasn't fallen.
        ensures held_up { OnErr result (IsHeldUp self.new) }
        ensures risen { OnErr result (rank (stated self.old) ≤ rank (stated self.new)) }
    {
        'pivots: loop {
            if let Some(solved) = self.advance()? {
                return Ok(solved);
            }
        }
    }
}
