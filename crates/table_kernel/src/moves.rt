//! The move of the kernel to another box, bound by bound.
ghost use Rattle.std.specs.Prelude.{◌≡◌, ℕ, ◌^◌, ◌+◌, ◌*◌, ◌<◌, ◌≤◌, ◌↔◌, pos, ◌-ℤ◌, ◌≤ℤ◌, nat_abs, length, map, slice_index, All, IsTrue, Option, OnErr, OnOk};
ghost use Rattle.design_problem.specs.Boxes.{IsBox, with_high, with_low};
ghost use Rattle.fraction_table.specs.Moves.{IsMoved, KeepsTableLines};
ghost use Rattle.fraction_table.specs.Tableaus.{FitsBox};
ghost use Rattle.integer_pivots.specs.Lines.{IsLine};
ghost use Rattle.table_kernel.specs.Kernels.{IsKernel, IsMoving, stated, width_of};
ghost use Rattle.table_kernel.specs.Moves.{IsBasisMoved, KeepsInMove, KeepsOfBox, LineMayMove, MayMove, box_distance, distance_of, lines_after_high, lines_after_low, raised_kernel_line};
ghost use Rattle.table_kernel.specs.Turns.{line_of};

use crate::Kernel;
use crate::kernel::OutOfRange;
use design_problem::{CostBox, Member};
use fraction_table::{column_of, range_of};
use integer_pivots::{CONSTANT_LIMIT, Line, step};

/// The sum of the differences of two lists, place by place.
fn distance(first: &[u16], second: &[u16]) -> i64
    requires long { length first.now ≡ length second.now }
    requires few { length first.now < 2 ^ 32 }
    ensures exact { result ≡ pos (distance_of first.now second.now) }
    ensures small { result ≤ℤ pos (2 ^ 60) }
{
    let mut sum = 0;
    for index in 0..first.len() {
        sum += range_of(first[index], second[index]).abs();
    }
    sum
}

/// Lets the constant of each line rise by its number at a column times a fall.
fn raise(lines: &mut [Line], column: usize, fall: i64)
    requires long { All (λ line. column < length line.numbers) lines.old }
    requires lines { All IsLine lines.old }
    requires constants { All (λ line. nat_abs line.constant ≤ 2 ^ 44) lines.old }
    requires fall { nat_abs fall < 2 ^ 16 }
    ensures { lines.new ≡ map (raised_kernel_line column fall) lines.old }
{
    for var in 0..lines.len() {
        let number = lines[var].numbers.as_slice()[column];
        lines[var].constant += fall * number;
    }
}

impl Kernel {
    /// Moves the lines where the form x - low of a variable falls, and the member in the basis.
    fn shift_low(&mut self, var: usize, before: Member, after: Member, fall: i64)
        // The form x - low of the variable falls by less than 2^16.
        requires kernel { IsMoving self.old }
        requires var { var < width_of self.old }
        requires fall { nat_abs fall < 2 ^ 16 }

        // Where the basis has the member, the new one takes its column; the lines follow.
        ensures shifted { (column : Option ℕ) ×
            (IsBasisMoved self.old self.new before after column ×
            (self.new.lows.items ≡ lines_after_low self.old.lows.items column var fall)) }

        // Nothing else changes, not even the box, which gets its bound afterwards.
        ensures keeps { KeepsInMove self.old self.new }
        ensures costs { self.new.table.costs ≡ self.old.table.costs }
    {
        match column_of(self.table.basis.as_slice(), before) {
            None => self.lows[var].constant -= self.lows[var].denominator * fall,
            Some(column) => {
                raise(self.lows.as_mut_slice(), column as usize, fall);
                self.lows[var].constant = 0;
                self.table.basis[column as usize] = after;
            }
        }
    }

    /// Moves the lines where the form high - x of a variable falls, and the member in the basis.
    fn shift_high(&mut self, before: Member, after: Member, fall: i64)
        requires kernel { IsMoving self.old }
        requires fall { nat_abs fall < 2 ^ 16 }
        ensures shifted { (column : Option ℕ) ×
            (IsBasisMoved self.old self.new before after column ×
            (self.new.lows.items ≡ lines_after_high self.old.lows.items column fall)) }
        ensures keeps { KeepsInMove self.old self.new }
        ensures costs { self.new.table.costs ≡ self.old.table.costs }
    {
        if let Some(column) = column_of(self.table.basis.as_slice(), before) {
            raise(self.lows.as_mut_slice(), column as usize, fall);
            self.table.basis[column as usize] = after;
        }
    }

    /// Moves the lower bound of a variable.
    fn move_low(&mut self, var: u32, bound: u16)
        // All constants stay within their limit where the bound moves that far.
        requires kernel { IsMoving self.old }
        requires var { var < width_of self.old }
        requires room { MayMove self.old
            (nat_abs (pos bound -ℤ pos (slice_index self.old.table.costs.low var))) }

        // The lower bound has moved, and the kernel keeps its rows and its width.
        ensures kernel { IsMoving self.new }
        ensures moved { IsMoved (stated self.old) (with_low self.old.table.costs var bound)
            (stated self.new) }
        ensures keeps { KeepsOfBox self.old self.new }

        // As far as the bounds might have moved beyond this, they may move still.
        ensures room { (more : ℕ) →
            MayMove self.old
            (nat_abs (pos bound -ℤ pos (slice_index self.old.table.costs.low var)) + more) →
            MayMove self.new more }
    {
        let place = var as usize;
        let low = self.table.costs.low.as_slice()[place];
        if bound == low {
            return;
        }
        let fall = range_of(low, bound);
        self.shift_low(place, Member::Low(var, low), Member::Low(var, bound), fall);
        self.table.costs.low.set(place, bound);
    }

    /// Moves the upper bound of a variable.
    fn move_high(&mut self, var: u32, bound: u16)
        // All constants stay within their limit where the bound moves that far.
        requires kernel { IsMoving self.old }
        requires var { var < width_of self.old }
        requires room { MayMove self.old
            (nat_abs (pos (slice_index self.old.table.costs.high var) -ℤ pos bound)) }

        // The upper bound has moved, and the kernel keeps its rows and its width.
        ensures kernel { IsMoving self.new }
        ensures moved { IsMoved (stated self.old) (with_high self.old.table.costs var bound)
            (stated self.new) }
        ensures keeps { KeepsOfBox self.old self.new }

        // As far as the bounds might have moved beyond this, they may move still.
        ensures room { (more : ℕ) →
            MayMove self.old
            (nat_abs (pos (slice_index self.old.table.costs.high var) -ℤ pos bound) + more) →
            MayMove self.new more }
    {
        let place = var as usize;
        let high = self.table.costs.high.as_slice()[place];
        if bound == high {
            return;
        }
        let fall = range_of(bound, high);
        self.shift_high(Member::High(var, high), Member::High(var, bound), fall);
        self.table.costs.high.set(place, bound);
    }

    /// Whether a variable's constant stays within its limit where the bounds move so far.
    fn line_may_move(&self, var: usize, far: i64) -> bool
        requires kernel { IsKernel self.now }
        requires var { var < width_of self.now }
        requires far { (pos 0 ≤ℤ far) × (far ≤ℤ pos (2 ^ 61)) }
        ensures { IsTrue result ↔ LineMayMove (nat_abs self.now.common) (nat_abs far)
            (line_of self.now var) }
    {
        let line = &self.lows[var];
        let most = u128::from(line.constant.unsigned_abs()) + far as u128 * step(line) as u128;
        most * self.share(var) as u128 <= CONSTANT_LIMIT as u128
    }

    /// Whether all constants stay within their limit where the bounds move to those of another box.
    fn moves_within(&self, costs: &CostBox) -> bool
        requires kernel { IsKernel self.now }
        requires ranges { IsBox (width_of self.now) costs.now }
        ensures { IsTrue result ↔ MayMove self.now (box_distance self.now.table.costs costs.now) }
    {
        let lows = distance(self.table.costs.low.as_slice(), costs.low.as_slice());
        let highs = distance(self.table.costs.high.as_slice(), costs.high.as_slice());
        for var in 0..self.lows.len() {
            if !self.line_may_move(var, lows + highs) {
                return false;
            }
        }
        true
    }

    /// Moves all bounds to those of another box: for each variable, in order, the lower one and then the upper one. The
    /// constants of all forms follow.
    ///
    /// # Errors
    ///
    /// `OutOfRange` where the bounds don't cover that. Then the kernel is as before.
    pub fn rebase(&mut self, costs: &CostBox) -> Result<(), OutOfRange>
        // The new box is one of the kernel's variables, and the rows fit it.
        requires kernel { IsKernel self.old }
        requires ranges { IsBox (width_of self.old) costs.now }
        requires fits { All (FitsBox costs.now) self.old.table.rows.items }

        // In any case it's a kernel of the same rows, and on Ok one of the new box.
        ensures kernel { IsKernel self.new }
        ensures keeps { KeepsTableLines (stated self.old) (stated self.new) }
        ensures moved { OnOk result (IsMoved (stated self.old) costs.now (stated self.new)) }

        // On Err it's as before, since some constant might pass its limit on that way.
        ensures same { OnErr result (self.new ≡ self.old) }
        ensures refused { OnErr result
            (MayMove self.old (box_distance self.old.table.costs costs.now) → ⊥) }
    {
        if !self.moves_within(costs) {
            return Err(OutOfRange);
        }
        let low = costs.low.as_slice();
        let high = costs.high.as_slice();
        for var in 0..low.len() as u32 {
            self.move_low(var, low[var as usize]);
            self.move_high(var, high[var as usize]);
        }
        self.put_constants();
        Ok(())
    }
}
