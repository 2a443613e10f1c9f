//! A pivot of the kernel.
ghost use Rattle.std.specs.Prelude.{◌≡◌, ◌^◌, ◌<◌, ◌≤◌, ◌↔◌, pos, ◌<ℤ◌, ◌≤ℤ◌, nat_abs, length, Some, All, MatchOption, OnErr, OnOk, IsTrue};
ghost use Prim.Native.Nat.{◌∣◌};
ghost use Rattle.whole_numbers.specs.Fractions.{lcm};
ghost use Rattle.whole_numbers.specs.Lists.{number_at};
ghost use Rattle.fraction_table.specs.Pivots.{KeepsBoxAndRows};
ghost use Rattle.fraction_table.specs.Ranks.{rank};
ghost use Rattle.integer_pivots.specs.Lines.{IsLine};
ghost use Rattle.integer_pivots.specs.Turns.{AreNonZeros, MayLineTurn, StaysSmall, denominator_after};
ghost use Rattle.table_kernel.specs.Kernels.{IsKernel, stated, width_of};
ghost use Rattle.table_kernel.specs.Lines.{KeepsNumbers};
ghost use Rattle.table_kernel.specs.Turns.{AreLinesTurned, AreTurns, ConstantsStaySmall, HasTurned, IsLineReady, IsLineTurned, IsPivotIn, IsReadyToTurn, KeepsAllButLows, LinesStaySmall, MayTurn, StaysSmallThroughout, constant_size, line_of, next_common, turn_of_line};

use crate::Kernel;
use crate::kernel::OutOfRange;
use integer_pivots::{
    Turn, common_multiple, denominator_times, put_touched, share_in, stays_within, turn_leads,
    turn_of,
};

/// A common denominator above this is lowered: 2^16.
const LARGE_COMMON: i64 = 1 << 16;

impl Kernel {
    /// How a variable's line turns at a column.
    pub(crate) fn turn_at(&self, var: usize, column: usize) -> Turn
        requires ready { IsLineReady self.now column var }
        ensures turn { result ≡ turn_of_line self.now column var }
        ensures multiplier { (pos 0 <ℤ result.multiplier) × (result.multiplier ≤ℤ pos (2 ^ 30)) }
        ensures factor { nat_abs result.factor ≤ 2 ^ 30 }
    {
        self.turns[var]
    }

    /// Whether a variable's line stays small in a turn at a column.
    fn line_stays_small(&self, var: usize, column: usize) -> bool
        requires ready { IsLineReady self.now column var }
        ensures { IsTrue result ↔ StaysSmall (turn_of_line self.now column var)
            (line_of self.now var) self.now.entering }
    {
        let turn = self.turn_at(var, column);
        if turn.factor == 0 {
            return true;
        }
        self.lows[var].stays_small(turn, &self.entering)
    }

    /// Whether all lines of x - low stay small in a turn at a column.
    fn lines_stay_small(&self, column: usize) -> bool
        requires ready { IsReadyToTurn self.now column }
        ensures { IsTrue result ↔ LinesStaySmall self.now column }
    {
        for var in 0..self.lows.len() {
            if !self.line_stays_small(var, column) {
                return false;
            }
        }
        true
    }

    /// The least common multiple of a common denominator and of a line's after a turn at a column, where it is at most
    /// 2^30.
    fn common_with(&self, var: usize, column: usize, common: i64) -> Option<i64>
        requires ready { IsLineReady self.now column var }
        requires common { (pos 0 <ℤ common) × (common ≤ℤ pos (2 ^ 30)) }
        requires divides { nat_abs (line_of self.now var).denominator ∣ nat_abs common }
        ensures { MatchOption result (2 ^ 30 < lcm (nat_abs common)
            (denominator_after self.now.entering column (line_of self.now var)))
            (λ new. (pos 0 <ℤ new) ×
            (nat_abs new ≡ lcm (nat_abs common) (denominator_after self.now.entering column
            (line_of self.now var))) × (new ≤ℤ pos (2 ^ 30))) }
    {
        let multiplier = self.turn_at(var, column).multiplier;
        if multiplier == 1 {
            return Some(common);
        }
        common_multiple(
            common,
            denominator_times(self.lows[var].denominator, multiplier),
        )
    }

    /// The common denominator after a turn at a column, where it is at most 2^30.
    fn common_after(&self, column: usize) -> Option<i64>
        requires ready { IsReadyToTurn self.now column }
        ensures { MatchOption result (2 ^ 30 < next_common self.now column)
            (λ common. (pos 0 <ℤ common) × (nat_abs common ≡ next_common self.now column) ×
            (common ≤ℤ pos (2 ^ 30))) }
    {
        let mut common = self.common;
        for var in 0..self.lows.len() {
            common = self.common_with(var, column, common)?;
        }
        Some(common)
    }

    /// Whether a variable's constant stays small in a turn at a column, over the common denominator after it.
    fn constant_stays_small(&self, var: usize, column: usize, common: i64) -> bool
        requires ready { IsLineReady self.now column var }
        requires common { (pos 0 <ℤ common) × (common ≤ℤ pos (2 ^ 30)) }
        requires divides { denominator_after self.now.entering column (line_of self.now var) ∣
            nat_abs common }
        ensures { IsTrue result ↔ (constant_size self.now column (nat_abs common) var ≤ 2 ^ 44) }
    {
        let turn = self.turn_at(var, column);
        if turn.factor == 0 && common == self.common {
            return true;
        }
        let denominator = denominator_times(self.lows[var].denominator, turn.multiplier);
        stays_within(
            self.lows[var].constant_after(turn, &self.entering),
            share_in(common, denominator),
        )
    }

    /// Whether all constants of x - low stay small in a turn at a column, over the common denominator after it.
    fn constants_stay_small(&self, column: usize, common: i64) -> bool
        requires ready { IsReadyToTurn self.now column }
        requires common { (pos 0 <ℤ common) × (common ≤ℤ pos (2 ^ 30)) }
        requires next { nat_abs common ≡ next_common self.now column }
        ensures { IsTrue result ↔ ConstantsStaySmall self.now column (nat_abs common) }
    {
        for var in 0..self.lows.len() {
            if !self.constant_stays_small(var, column, common) {
                return false;
            }
        }
        true
    }

    /// Turns a variable's line, where its number at the column isn't 0.
    fn turn_line(&mut self, var: usize, column: usize)
        requires ready { IsLineReady self.old column var }
        requires touched { AreNonZeros self.old.entering.numbers (width_of self.old)
            self.old.left.items }
        requires may { MayLineTurn (turn_of_line self.old column var) (line_of self.old var)
            self.old.entering }
        ensures turned { IsLineTurned self.old self.new column var }
        ensures keeps { KeepsAllButLows self.old self.new }
    {
        let turn = self.turn_at(var, column);
        if turn.factor != 0 {
            self.lows[var].turn(&self.entering, column, self.left.as_slice(), turn);
        }
    }

    /// Turns all lines of x - low.
    fn turn_lines(&mut self, column: usize)
        requires ready { IsReadyToTurn self.old column }
        requires touched { AreNonZeros self.old.entering.numbers (width_of self.old)
            self.old.left.items }
        requires may { StaysSmallThroughout self.old column }
        ensures turned { AreLinesTurned self.old self.new column }
        ensures keeps { KeepsAllButLows self.old self.new }
    {
        for var in 0..self.lows.len() {
            self.turn_line(var, column);
        }
    }

    /// The common denominator after a turn at a column in which no number passes the bounds, by the sizes before it.
    fn common_if_small(&self, column: usize) -> Option<i64>
        requires ready { IsReadyToTurn self.now column }
        ensures { MatchOption result (StaysSmallThroughout self.now column → ⊥)
            (λ common. StaysSmallThroughout self.now column × (pos 0 <ℤ common) ×
            (nat_abs common ≡ next_common self.now column) × (common ≤ℤ pos (2 ^ 30))) }
    {
        if !self.lines_stay_small(column) {
            return None;
        }
        let common = self.common_after(column)?;
        if !self.constants_stay_small(column, common) {
            return None;
        }
        Some(common)
    }

    /// Turns all lines at a column by the entering line, no number of which passes the bounds; the leads, the common
    /// denominator and the constants follow.
    fn turn_small(&mut self, column: usize, common: i64)
        // The lines' turns are put, and so are the columns in which the entering line isn't 0.
        requires ready { IsReadyToTurn self.old column }
        requires kernel { IsKernel self.old }
        requires touched { AreNonZeros self.old.entering.numbers (width_of self.old)
            self.old.left.items }

        // No number passes the bounds on the way, and the common denominator is that after the
        // turn.
        requires small { StaysSmallThroughout self.old column }
        requires common { (pos 0 <ℤ common) × (nat_abs common ≡ next_common self.old column) ×
            (common ≤ℤ pos (2 ^ 30)) }

        // The lines have turned, and leads, common denominator and constants with them.
        ensures turned { HasTurned self.old self.new column }
    {
        self.turn_lines(column);
        turn_leads(
            self.leads.as_mut_slice(),
            self.lows.as_slice(),
            &self.entering,
            column,
        );
        if common == self.common {
            self.follow_lines();
        } else {
            self.common = common;
            self.put_constants();
        }
    }

    /// Turns all lines at a column by the entering line; the leads, the common denominator and the constants follow.
    ///
    /// # Errors
    ///
    /// `OutOfRange` where the bounds don't cover that. Then the kernel is as before.
    fn turn_numbers(&mut self, column: usize) -> Result<(), OutOfRange>
        // The lines' turns are put, and so are the columns in which the entering line isn't 0.
        requires ready { IsReadyToTurn self.old column }
        requires kernel { IsKernel self.old }
        requires touched { AreNonZeros self.old.entering.numbers (width_of self.old)
            self.old.left.items }

        // On Err the kernel is as before, since the bounds don't cover the turn.
        ensures same { OnErr result (self.new ≡ self.old) }
        ensures refused { OnErr result (MayTurn self.old column → ⊥) }

        // On Ok the lines have turned, and leads, common denominator and constants with them.
        ensures turned { OnOk result (HasTurned self.old self.new column) }
    {
        let Some(common) = self.common_if_small(column) else {
            return self.turn_to_lowest(column);
        };
        self.turn_small(column, common);
        Ok(())
    }

    /// Puts how each variable's line turns at a column into `turns`.
    fn put_turns(&mut self, column: usize)
        // The entering line has a positive number at the column: the pivot.
        requires kernel { IsKernel self.old }
        requires inside { column < width_of self.old }
        requires entering { IsLine self.old.entering }
        requires pivot { pos 0 <ℤ number_at self.old.entering.numbers column }

        // Each variable has the turn of its line at that column.
        ensures turns { AreTurns self.new column }

        // The columns that are left, the entering line and the kernel's numbers stay.
        ensures left { self.new.left ≡ self.old.left }
        ensures entering { self.new.entering ≡ self.old.entering }
        ensures keeps { KeepsNumbers self.old self.new }
    {
        let pivot = self.entering.numbers.as_slice()[column];
        for var in 0..self.lows.len() {
            self.turns[var] = turn_of(self.lows[var].numbers.at(column), pivot);
        }
    }

    /// Makes the common denominator the least common multiple of those of the lines; the constants follow.
    fn lower_common(&mut self)
        requires kernel { IsKernel self.old }
        ensures kernel { IsKernel self.new }
        ensures stated { stated self.new ≡ stated self.old }
    {
        let Some(common) = self.common_of_lines() else {
            return;
        };
        if common != self.common {
            self.common = common;
            self.put_constants();
        }
    }

    /// Puts the columns in which the entering line isn't 0 into `left`.
    fn put_touched(&mut self)
        requires kernel { IsKernel self.old }
        ensures touched { AreNonZeros self.old.entering.numbers (width_of self.old)
            self.new.left.items }
        ensures entering { self.new.entering ≡ self.old.entering }
        ensures keeps { KeepsNumbers self.old self.new }
    {
        put_touched(&mut self.left, &self.entering.numbers);
    }

    /// Turns the kernel at a place's form and a column: the form takes the place of the column's form in the basis. The
    /// form's line is the entering one.
    ///
    /// # Errors
    ///
    /// `OutOfRange` where the bounds don't cover that. Then the kernel's numbers are as before.
    pub fn pivot(&mut self, place: usize, column: usize) -> Result<(), OutOfRange>
        // The place's form is negative at the basis, and the column is a best one for its line.
        requires { IsPivotIn self.old place column }

        // On Ok the kernel's rank rose; it has the same box and rows in any case.
        ensures kernel { IsKernel self.new }
        ensures rises { OnOk result (rank (stated self.old) < rank (stated self.new)) }
        ensures keeps { KeepsBoxAndRows (stated self.old) (stated self.new) }

        // On Err its numbers and the entering line stay, since the turn isn't covered.
        ensures same { OnErr result (KeepsNumbers self.old self.new) }
        ensures entering_stays { OnErr result (self.new.entering ≡ self.old.entering) }
        ensures refused { OnErr result (MayTurn self.new column → ⊥) }
    {
        let member = self.table.member_at(place);
        self.put_touched();
        self.put_turns(column);
        self.turn_numbers(column)?;
        self.table.basis[column] = member;
        if self.common > LARGE_COMMON {
            self.lower_common();
        }
        Ok(())
    }
}
