//! A turn of the kernel whose lines are large on the way, and within the bounds in lowest terms.
ghost use Rattle.std.specs.Prelude.{◌≡◌, ◌^◌, ◌≤◌, ◌↔◌, nat_abs, MatchOption, OnErr, OnOk, IsTrue};
ghost use Rattle.integer_pivots.specs.declared.lowest.Lowest.{Lowest as LowestValue};
ghost use Rattle.integer_pivots.specs.Turns.{AreTurnedLines, MayTurnTo};
ghost use Rattle.table_kernel.specs.Kernels.{IsKernel};
ghost use Rattle.table_kernel.specs.Turns.{AreBoundedLines, FitsLowest, HasTurned, IsLineReady, IsLineTurnedToLowest, IsLowestCommon, IsLowestOf, IsReadyToTurn, IsSmallOf, KeepsAllButLows, MayTurn, line_of, turn_of_line};

use crate::Kernel;
use crate::kernel::OutOfRange;
use integer_pivots::{Lowest, common_multiple, share_in, stays_within, turn_leads};

impl Kernel {
    /// What a variable's line comes to in the turn at a column, in lowest terms.
    fn lowest_of(&self, var: usize, column: usize) -> Lowest
        requires ready { IsLineReady self.now column var }
        ensures lowest { IsLowestOf self.now column var result }
        ensures size { nat_abs result.denominator ≤ 2 ^ 60 }
    {
        self.lows[var].lowest_after(&self.entering, column, self.turn_at(var, column))
    }

    /// Whether a variable's line stays small in the turn at a column, in lowest terms.
    fn is_small_at(&self, var: usize, column: usize, lowest: Lowest) -> bool
        requires ready { IsLineReady self.now column var }
        requires lowest { IsLowestOf self.now column var lowest }
        ensures { IsTrue result ↔ IsSmallOf self.now column var lowest }
    {
        let turn = self.turn_at(var, column);
        self.lows[var].is_small_at(&self.entering, column, turn, lowest)
    }

    /// The least common denominator of the lines in lowest terms, once they have turned at a column; `None` where it or
    /// a line isn't within the bounds.
    fn lowest_common(&self, column: usize) -> Option<i64>
        requires ready { IsReadyToTurn self.now column }
        ensures { MatchOption result (MayTurn self.now column → ⊥)
            (IsLowestCommon self.now column) }
    {
        let mut common = 1;
        for var in 0..self.lows.len() {
            let lowest = self.lowest_of(var, column);
            if !self.is_small_at(var, column, lowest) {
                return None;
            }
            common = common_multiple(common, lowest.denominator)?;
        }
        Some(common)
    }

    /// Whether the constants of the lines that have turned at a column are within the bounds in lowest terms, over
    /// their common denominator.
    fn lowest_constants_fit(&self, column: usize, common: i64) -> bool
        requires ready { IsReadyToTurn self.now column }
        requires common { IsLowestCommon self.now column common }
        ensures { IsTrue result ↔ FitsLowest self.now column (nat_abs common) }
    {
        for var in 0..self.lows.len() {
            let lowest = self.lowest_of(var, column);
            if !stays_within(lowest.constant, share_in(common, lowest.denominator)) {
                return false;
            }
        }
        true
    }

    /// Turns a variable's line at a column to what it comes to in lowest terms.
    fn turn_line_to_lowest(&mut self, var: usize, column: usize)
        requires ready { IsLineReady self.old column var }
        requires may { (lowest : LowestValue) → IsLowestOf self.old column var lowest →
            MayTurnTo (turn_of_line self.old column var) column self.old.entering
            (line_of self.old var) lowest }
        ensures turned { IsLineTurnedToLowest self.old self.new column var }
        ensures keeps { KeepsAllButLows self.old self.new }
    {
        let lowest = self.lowest_of(var, column);
        let turn = self.turn_at(var, column);
        self.lows[var].turn_to(&self.entering, column, turn, lowest);
    }

    /// Turns all lines of x - low at a column to what they come to in lowest terms.
    fn turn_lines_to_lowest(&mut self, column: usize, common: i64)
        // The lines' turns are put, and all that the lines come to is within the bounds over this
        // common denominator.
        requires ready { IsReadyToTurn self.old column }
        requires common { IsLowestCommon self.old column common }
        requires fits { FitsLowest self.old column (nat_abs common) }

        // The lines have turned to that, and nothing else has changed.
        ensures turned { AreTurnedLines self.old.entering column self.old.lows.items
            self.new.lows.items }
        ensures bounded { AreBoundedLines common self.new.lows.items }
        ensures keeps { KeepsAllButLows self.old self.new }
    {
        for var in 0..self.lows.len() {
            self.turn_line_to_lowest(var, column);
        }
    }

    /// Turns all lines at a column by the entering line to what they come to in lowest terms; the leads, the common
    /// denominator and the constants follow.
    ///
    /// # Errors
    ///
    /// `OutOfRange` where the bounds don't cover that. Then the kernel is as before.
    pub(crate) fn turn_to_lowest(&mut self, column: usize) -> Result<(), OutOfRange>
        // The lines' turns are put.
        requires ready { IsReadyToTurn self.old column }
        requires kernel { IsKernel self.old }

        // On Err the kernel is as before, since the bounds don't cover the turn.
        ensures same { OnErr result (self.new ≡ self.old) }
        ensures refused { OnErr result (MayTurn self.old column → ⊥) }

        // On Ok the lines have turned, and leads, common denominator and constants with them.
        ensures turned { OnOk result (HasTurned self.old self.new column) }
    {
        let Some(common) = self.lowest_common(column) else {
            return Err(OutOfRange);
        };
        if !self.lowest_constants_fit(column, common) {
            return Err(OutOfRange);
        }
        self.turn_lines_to_lowest(column, common);
        turn_leads(
            self.leads.as_mut_slice(),
            self.lows.as_slice(),
            &self.entering,
            column,
        );
        self.common = common;
        self.put_constants();
        Ok(())
    }
}
