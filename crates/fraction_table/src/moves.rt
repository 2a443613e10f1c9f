//! The move of a table to another box, bound by bound.
ghost use Rattle.std.specs.Prelude.{◌≡◌, ℕ, suc, ◌^◌, ◌<◌, length, map, nat_abs, slice_set, IfErr, IfSome, OnErr, OnOk};
ghost use Rattle.fraction_table.specs.Moves.{HasBoundCounts, HasShape, IsColumnOf, IsMoved, IsRaiseStep, IsTableShifted, IsShiftedWide, IsWideShift, KeepsTableLines, RaisesWide};
ghost use Rattle.fraction_table.specs.Moves.{ShiftsWide, high_shift_of, low_shift_of, put_at, raised_line, shifted_lines};
ghost use Rattle.fraction_table.specs.Pivots.{KeepsBoxAndRows};
ghost use Rattle.fraction_lines.specs.TableLines.{AreTableNumbers, IsTableNumber, IsWideStep};
ghost use Rattle.fraction_lines.specs.Entries.{IsPassing};
ghost use Rattle.cost_base.specs.declared.StepName.TheVariants.{Sub};
ghost use Rattle.whole_numbers.specs.Fractions.{minus};
ghost use Rattle.fraction_lines.specs.Turns.{AreTableLines};
ghost use Rattle.fraction_table.specs.ValidTables.{HasRoom, IsUnboxedTable, held_of};
ghost use Rattle.fraction_table.specs.Tableaus.{IsWideMove};
ghost use Rattle.fraction_table.specs.declared.stage.Stage.TheVariants.{Open};
ghost use Rattle.design_problem.specs.Basis.{entry};
ghost use Rattle.design_problem.specs.Boxes.{with_high, with_low};

use crate::start::range_of;
use crate::table::Table;
use design_problem::{CostBox, Member};
use fraction_lines::TableLine;
use wide_fraction::{Frac, Top, Wide, add, mul, sub};

/// Puts a line's entry in the column, times the fall, to its constant. No step is taken where the entry is 0.
///
/// # Errors
///
/// `Wide` where one of the two steps makes a whole number that passes `top`. Then the line is as before.
fn raise_constant(line: &mut TableLine, column: u32, fall: Frac, top: Top) -> Result<(), Wide>
    // The line has the column, and the fall is a number of the table.
    requires column { suc column < length line.old }
    requires numbers { AreTableNumbers top line.old }
    requires fall { IsTableNumber top fall }

    // On Ok the constant rose by the entry times the fall.
    ensures raised { OnOk result (line.new ≡ raised_line column fall line.old) }

    // In any case the line keeps its width, and its numbers are those of the table.
    ensures numbers { AreTableNumbers top line.new }
    ensures width { length line.new ≡ length line.old }

    // On Err the step is the product or the sum, and makes a number that passes the top.
    ensures wide { IfErr result (λ wide. IsWideStep top (IsRaiseStep line.old column fall) wide.step
        wide.left wide.right) }
{
    let entry = line.entry(column);
    if entry.is_zero() {
        return Ok(());
    }
    let product = mul(entry, fall, top)?;
    let raised = add(line.constant(), product, top)?;
    line.set_constant(raised);
    Ok(())
}

/// Raises the constant of each line, in order.
///
/// # Errors
///
/// `Wide` where a step of some line makes a whole number that passes `top`.
fn raise_constants(lines: &mut [TableLine], column: u32, fall: Frac, top: Top) -> Result<(), Wide>
    // The lines have one width and the column, and the fall is a number of the table.
    requires lines { (count : ℕ) × (suc column < count) × AreTableLines top count lines.old }
    requires fall { IsTableNumber top fall }

    // On Ok the constant of each line rose by its entry times the fall.
    ensures raised { OnOk result (lines.new ≡ map (raised_line column fall) lines.old) }

    // In any case there are as many lines, each of as many numbers of the table.
    ensures numbers { (count : ℕ) → AreTableLines top count lines.old →
        AreTableLines top count lines.new }
    ensures count { length lines.new ≡ length lines.old }

    // On Err the step raises some line's constant, and makes a number that passes the top.
    ensures wide { IfErr result (λ wide. RaisesWide top lines.old column fall wide) }
{
    for line in lines.iter_mut() {
        raise_constant(line, column, fall, top)?;
    }
    Ok(())
}

/// Lowers a line's constant by the fall.
///
/// # Errors
///
/// `Wide` where the difference makes a whole number that passes `top`. Then the line is as before.
fn lower_constant(line: &mut TableLine, fall: Frac, top: Top) -> Result<(), Wide>
    // The line has a constant, and the fall is a number of the table.
    requires some { 0 < length line.old }
    requires numbers { AreTableNumbers top line.old }
    requires fall { IsTableNumber top fall }

    // On Ok the constant is less by the fall.
    ensures lowered { OnOk result (line.new ≡ slice_set line.old 0
        (minus (entry line.old 0) fall)) }

    // In any case the line keeps its width, and its numbers are those of the table.
    ensures numbers { AreTableNumbers top line.new }
    ensures width { length line.new ≡ length line.old }

    // On Err the step is the difference, and makes a number that passes the top.
    ensures named { IfErr result (λ wide. wide ≡ record {
      step = Sub;
      left = entry line.old 0;
      right = fall;
    }) }
    ensures passes { IfErr result (λ wide. IsPassing top wide) }
{
    let constant = sub(line.constant(), fall, top)?;
    line.set_constant(constant);
    Ok(())
}

/// Moves the constants where a bound's form falls. `own` is the line of that form, and `column` its column in the
/// basis. Where it isn't in the basis, its own constant falls; else those of all other lines rise, and its own stays 0.
///
/// # Errors
///
/// `Wide` where a step makes a whole number that passes `top`.
fn shift_lines(
    lines: &mut [TableLine],
    own: usize,
    column: Option<u32>,
    fall: Frac,
    top: Top,
) -> Result<(), Wide>
    // The form's own line is one of the lines, which have one width and the column, if any.
    requires own { own < length lines.old }
    requires lines { (count : ℕ) × (0 < count) × IfSome column (λ k. suc k < count) ×
        AreTableLines top count lines.old }
    requires fall { IsTableNumber top fall }

    // On Ok the form's own constant fell, or those of the other lines rose.
    ensures shifted { OnOk result (lines.new ≡ shifted_lines column own fall lines.old) }

    // In any case there are as many lines, each of as many numbers of the table.
    ensures numbers { (count : ℕ) → AreTableLines top count lines.old →
        AreTableLines top count lines.new }
    ensures count { length lines.new ≡ length lines.old }

    // On Err the step is one of the shift, and makes a number that passes the top.
    ensures wide { IfErr result (λ wide. ShiftsWide top column own fall lines.old wide) }
{
    match column {
        None => lower_constant(&mut lines[own], fall, top),
        Some(column) => {
            raise_constants(lines, column, fall, top)?;
            lines[own].set_constant(Frac::whole(0));
            Ok(())
        }
    }
}

/// The column of a member in a basis.
pub fn column_of(basis: &[Member], member: Member) -> Option<u32>
    requires few { length basis.now < 2 ^ 32 }
    ensures { IsColumnOf basis.now member result }
{
    for column in 0..basis.len() {
        if basis[column] == member {
            return Some(column as u32);
        }
    }
    None
}

/// Puts a member into a column of a basis, if there is one.
fn put_member(basis: &mut Vec<Member>, column: Option<u32>, member: Member)
    requires { IfSome column (λ k. k < length basis.old.items) }
    ensures { basis.new.items ≡ put_at column member basis.old.items }
{
    match column {
        None => {}
        Some(column) => basis[column as usize] = member,
    }
}

impl Table {
    /// Moves the lines and the basis where a bound's form falls: `own` is its line, `before` its member as it stands in
    /// the basis, and `after` the one that takes its place there.
    ///
    /// # Errors
    ///
    /// `Wide` where a step makes a whole number that passes `top`. Then the basis is as before.
    fn shift(&mut self, own: usize, before: Member, after: Member, fall: i64) -> Result<(), Wide>
        // The form's own line is one of the table, and the fall is below 2^27 in size.
        requires shape { HasShape self.old }
        requires own { own < length self.old.lines.items }
        requires small { nat_abs fall < 2 ^ 27 }

        // In any case the table keeps its shape, its box and its rows.
        ensures shape { HasShape self.new }
        ensures keeps { KeepsBoxAndRows self.old self.new }

        // On Ok the lines and the basis are shifted; on Err a step of the shift is too wide.
        ensures shifted { OnOk result (IsTableShifted self.old self.new own before after fall) }
        ensures wide { IfErr result (λ wide. IsShiftedWide self.old own before fall wide) }
    {
        // For the prover: that `top` has at least 28 bits, so that the fall is within it, is known once it is read.
        let _ = self.top.value();
        let column = column_of(self.basis.as_slice(), before);
        let fall = Frac::whole(fall);
        shift_lines(self.lines.as_mut_slice(), own, column, fall, self.top)?;
        put_member(&mut self.basis, column, after);
        Ok(())
    }

    /// Moves the lower bound of a variable. A bound that stays needs no step.
    ///
    /// # Errors
    ///
    /// `Wide` where a step makes a whole number that passes `top`.
    fn move_low(&mut self, var: u32, bound: u16) -> Result<(), Wide>
        // The lines stand for their forms at the basis, and the variable is one of the box's.
        requires unboxed { IsUnboxedTable self.old }
        requires room { HasRoom self.old }
        requires var { var < length self.old.costs.low }

        // On Ok the lower bound has moved, and the lines stand for their forms again.
        ensures unboxed { OnOk result (IsUnboxedTable self.new) }
        ensures moved { OnOk result (IsMoved self.old (with_low self.old.costs var bound)
            self.new) }

        // In any case the table keeps its shape and its rows.
        ensures shape { HasShape self.new }
        ensures keeps { KeepsTableLines self.old self.new }

        // On Err a step of the shift of that bound is too wide.
        ensures wide { IfErr result (λ wide. IsWideShift self.old (low_shift_of self.old var bound)
            wide) }
    {
        let place = var as usize;
        let low = self.costs.low.as_slice()[place];
        if bound == low {
            return Ok(());
        }
        let fall = range_of(low, bound);
        self.shift(place, Member::Low(var, low), Member::Low(var, bound), fall)?;
        self.costs.low.set(place, bound);
        Ok(())
    }

    /// Moves the upper bound of a variable. A bound that stays needs no step.
    ///
    /// # Errors
    ///
    /// `Wide` where a step makes a whole number that passes `top`.
    fn move_high(&mut self, var: u32, bound: u16) -> Result<(), Wide>
        // The lines stand for their forms at the basis, and the variable is one of the box's.
        requires unboxed { IsUnboxedTable self.old }
        requires room { HasRoom self.old }
        requires var { var < length self.old.costs.low }

        // On Ok the upper bound has moved, and the lines stand for their forms again.
        ensures unboxed { OnOk result (IsUnboxedTable self.new) }
        ensures moved { OnOk result (IsMoved self.old (with_high self.old.costs var bound)
            self.new) }

        // In any case the table keeps its shape and its rows.
        ensures shape { HasShape self.new }
        ensures keeps { KeepsTableLines self.old self.new }

        // On Err a step of the shift of that bound is too wide.
        ensures wide { IfErr result (λ wide. IsWideShift self.old (high_shift_of self.old var bound)
            wide) }
    {
        let place = var as usize;
        let high = self.costs.high.as_slice()[place];
        if bound == high {
            return Ok(());
        }
        let line = self.costs.low.as_slice().len() + place;
        let fall = range_of(bound, high);
        self.shift(
            line,
            Member::High(var, high),
            Member::High(var, bound),
            fall,
        )?;
        self.costs.high.set(place, bound);
        Ok(())
    }

    /// Moves all bounds to those of another box: for each variable, in order, the lower one and then the upper one. The
    /// boxes between may be empty, and rows may not fit them.
    ///
    /// # Errors
    ///
    /// `Wide` where a step makes a whole number that passes `top`. Then some bounds have moved.
    pub fn move_bounds(&mut self, costs: &CostBox) -> Result<(), Wide>
        // The lines stand for their forms at the basis, and both boxes have as many variables.
        requires unboxed { IsUnboxedTable self.old }
        requires room { HasRoom self.old }
        requires bounds { HasBoundCounts (length self.old.costs.low) costs.now }

        // On Ok all bounds have moved, and the lines stand for their forms again.
        ensures unboxed { OnOk result (IsUnboxedTable self.new) }
        ensures moved { OnOk result (IsMoved self.old costs.now self.new) }

        // In any case the table keeps its shape and its rows.
        ensures shape { HasShape self.new }
        ensures keeps { KeepsTableLines self.old self.new }

        // On Err a step of the shift of some bound is too wide.
        ensures wide { OnErr result (IsWideMove (held_of self.old Open) costs.now) }
    {
        let low = costs.low.as_slice();
        let high = costs.high.as_slice();
        let width = low.len() as u32;
        for var in 0..width {
            self.move_low(var, low[var as usize])?;
            self.move_high(var, high[var as usize])?;
        }
        Ok(())
    }
}
