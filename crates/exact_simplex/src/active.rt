//! The table that a tableau works on: the kernel, and for a step that its bounds don't cover the
//! table in fractions, until its numbers fit again.
ghost use Rattle.std.specs.Prelude.{◌≡◌, suc, ◌^◌, ◌<◌, ◌≤◌, ◌↔◌, ◌++◌, [], ◌∷◌, length, true, false, All, IfErr, IfOk, IsTrue, OnErr, OnOk};
ghost use Rattle.design_problem.specs.Boxes.{IsBox, Refutes};
ghost use Rattle.design_problem.specs.Earnest.{IsLeastPoint};
ghost use Rattle.design_problem.specs.Steps.{IsRefutingForm, IsStepTooWide};
ghost use Rattle.design_problem.specs.Forms.{AreMet};
ghost use Rattle.fraction_lines.specs.TableLines.{blank_line};
ghost use Rattle.fraction_table.specs.declared.stage.Stage.{Stage};
ghost use Rattle.fraction_table.specs.declared.stage.Stage.TheVariants.{Ended, Open};
ghost use Rattle.fraction_table.specs.Multipliers.{IsWideAtBasis};
ghost use Rattle.fraction_table.specs.Pivots.{AreHigh, IsAhead, KeepsBoxAndRows, line_at};
ghost use Rattle.fraction_table.specs.Tableaus.{FitsBox, IsRebased, starting, wide_at};
ghost use Rattle.fraction_table.specs.ValidTables.{HasRoom, IsShown, held_of};
ghost use Rattle.table_kernel.specs.Kernels.{kernel_lines};
ghost use Rattle.table_kernel.specs.Moves.{MayMove, box_distance};
ghost use Rattle.table_kernel.specs.Rows.{HasRowPlace, IsCovered, MayAddRow};
ghost use Rattle.exact_simplex.specs.Actives.{IsActive, IsSoundActive, MayReturn, WasHeldUp, table_of};

use area_graph::Point;
use cost_base::OutOfMemory;
use design_problem::{CostBox, Form, Multipliers};
use fraction_table::{BlankLine, SimplexStop, Solved};
use std::alloc::Global;
use table_kernel::{Kernel, starting_kernel};
use wide_fraction::{Top, Wide};

/// A table in one of two representations: lines of whole numbers, each over its own denominator, or fractions.
#[derive(Drop)]
pub struct ActiveTable {
    pub kernel: Kernel,
    /// Whether the kernel works. Else the table in fractions does, until its numbers fit again.
    pub in_kernel: bool,
}

/// Whether the kernel may work: at widths below 127 bits a step that it doesn't take could be too wide.
fn is_wide(top: Top) -> bool
    ensures { IsTrue result ↔ (2 ^ 126 ≤ top) }
{
    top.size() >= 1 << 126
}

impl ActiveTable {
    /// The table of a box without rows, at the basis of the forms x - low. The kernel works where the greatest number
    /// is that of 127 bits.
    ///
    /// # Errors
    ///
    /// `OutOfMemory` where something got no memory.
    pub fn start(alloc: Global, costs: &CostBox, top: Top) -> Result<ActiveTable, OutOfMemory>
        requires ranges { IsBox (length costs.now.low) costs.now }
        requires few { length costs.now.low < 2 ^ 32 }
        ensures held { IfOk result (λ table. held_of table.kernel.table Open ≡
            record {
              top = top;
              costs = costs.now;
              rows = [];
              basis = starting costs.now;
              stage = Open;
            }) }
        ensures sound { IfOk result (λ table. IsSoundActive table Open) }
        ensures wide { IfOk result (λ table. 2 ^ 126 ≤ top → table.in_kernel ≡ true) }
    {
        Ok(ActiveTable {
            kernel: starting_kernel(alloc, costs, top)?,
            in_kernel: is_wide(top),
        })
    }

    /// Makes room for one more row, and the row's parts.
    ///
    /// # Errors
    ///
    /// `OutOfMemory` where something got no memory. Then the table holds what it held.
    pub fn make_room(&mut self, alloc: Global, form: &Form) -> Result<BlankLine, OutOfMemory>
        // The table has room for pivots.
        requires room { HasRoom self.old.kernel.table }

        // In any case it's as sound as it was, and holds the same in the same representation.
        ensures sound { (stage : Stage) → IsSoundActive self.old stage →
            IsSoundActive self.new stage }
        ensures held { held_of self.new.kernel.table Open ≡ held_of self.old.kernel.table Open }
        ensures same { self.new.in_kernel ≡ self.old.in_kernel }

        // On Ok there is a place for the row, which is a copy of the form and a line of zeros.
        ensures place { OnOk result (HasRowPlace self.new.kernel) }
        ensures form { IfOk result (λ row. row.form ≡ form.now) }
        ensures blank { IfOk result
            (λ row. row.line ≡ blank_line (length self.old.kernel.table.costs.low)) }
    {
        self.kernel.make_room(alloc, form)
    }

    /// Goes on with the table in fractions, at the same basis.
    fn leave_kernel(&mut self)
        // The lines are the table at the basis, and the kernel works.
        requires active { IsActive self.old }
        requires kernel { self.old.in_kernel ≡ true }

        // The lines in fractions are the table at the basis, and the work goes on with them.
        ensures active { IsActive self.new }
        ensures left { self.new.in_kernel ≡ false }

        // Box, rows and basis stay, and the lines are those that the kernel stood for.
        ensures keeps { KeepsBoxAndRows self.old.kernel.table self.new.kernel.table }
        ensures basis { self.new.kernel.table.basis.items ≡ self.old.kernel.table.basis.items }
        ensures lines { self.new.kernel.table.lines.items ≡ kernel_lines self.old.kernel }

        // Where there was a place for one more row, there still is.
        ensures place { HasRowPlace self.old.kernel → HasRowPlace self.new.kernel }
    {
        self.kernel.restate();
        self.in_kernel = false;
    }

    /// Goes on in the kernel, where its bounds cover the table in fractions.
    fn return_to_kernel(&mut self)
        // The lines are the table at the basis, and the work is done in fractions.
        requires active { IsActive self.old }
        requires fractions { self.old.in_kernel ≡ false }

        // Whichever of the two works then, its lines are the table at the basis, the same as before.
        ensures active { IsActive self.new }
        ensures table { self.new.kernel.table ≡ self.old.kernel.table }
        ensures lines { (table_of self.new).lines.items ≡ self.old.kernel.table.lines.items }

        // The kernel works again wherever the width and its bounds allow it.
        ensures back { MayReturn self.old.kernel.table → self.new.in_kernel ≡ true }
    {
        if is_wide(self.kernel.table.top) {
            self.in_kernel = self.kernel.read_back().is_ok();
        }
    }

    /// Adds a row for which there is room. The kernel works on where its bounds cover the row.
    ///
    /// # Errors
    ///
    /// `Wide` where a step of the row's line makes a whole number that passes the top. The row was added nevertheless.
    pub fn put_row(&mut self, row: BlankLine) -> Result<(), Wide>
        // The lines are the table at the basis; there is a place for the row, which fits the box, with a line of zeros.
        requires active { IsActive self.old }
        requires row { MayAddRow self.old.kernel row }

        // The row is added in any case, and on Ok the lines are the table at the basis again.
        ensures held { held_of self.new.kernel.table Open ≡ record {
          top = self.old.kernel.table.top;
          costs = self.old.kernel.table.costs;
          rows = self.old.kernel.table.rows.items ++ row.form ∷ [];
          basis = self.old.kernel.table.basis.items;
          stage = Open;
        } }
        ensures active { OnOk result (IsActive self.new) }

        // The kernel works on where its bounds cover the row.
        ensures stays { self.old.in_kernel ≡ true → IsCovered row.form → self.new.in_kernel ≡ true }

        // There is room for pivots in any case; on Err a step at the basis is too wide.
        ensures room { HasRoom self.new.kernel.table }
        ensures wide { IfErr result (λ wide. IsStepTooWide self.new.kernel.table.top
            self.new.kernel.table.costs self.new.kernel.table.rows.items
            (wide_at wide self.new.kernel.table.basis.items)) }
    {
        if self.in_kernel {
            if self.kernel.covers(&row.form) {
                self.kernel.put_row(row);
                return Ok(());
            }
            self.leave_kernel();
        }
        self.kernel.park_row(row)
    }

    /// One step in fractions: the answer, where the lines show it, and else a pivot. Behind it the
    /// kernel works again, where its bounds cover the table.
    ///
    /// # Errors
    ///
    /// `Wide` where a step makes a whole number that passes the top; it is one at the basis that
    /// is left.
    fn advance(&mut self) -> Result<Option<Solved>, Wide>
        // The lines are the table at the basis, and the work is done in fractions.
        requires active { IsActive self.old }
        requires fractions { self.old.in_kernel ≡ false }

        // On Ok the lines are the table at the basis again; it shows the answer, or its rank rose.
        ensures active { OnOk result (IsActive self.new) }
        ensures ahead { IfOk result (λ solved. IsAhead self.old.kernel.table (table_of self.new)
            solved) }

        // It keeps its box and rows, with room for pivots; on Ok the kernel works where it may.
        ensures keeps { KeepsBoxAndRows self.old.kernel.table self.new.kernel.table }
        ensures back { OnOk result (self.new.in_kernel ≡ false → MayReturn self.new.kernel.table →
            ⊥) }
        ensures room { HasRoom self.new.kernel.table }

        // On Err a step at the basis that is left is too wide.
        ensures wide { IfErr result (λ wide. IsStepTooWide self.new.kernel.table.top
            self.new.kernel.table.costs self.new.kernel.table.rows.items
            (wide_at wide self.new.kernel.table.basis.items)) }
    {
        let solved = self.kernel.table.advance()?;
        self.return_to_kernel();
        Ok(solved)
    }

    /// Works in the kernel as far as its bounds cover the pivots that are due, and makes the one that
    /// they don't cover in fractions.
    ///
    /// # Errors
    ///
    /// `Wide` where a step makes a whole number that passes the top; it is one at the basis that
    /// is left.
    fn work(&mut self) -> Result<Option<Solved>, Wide>
        // The lines are the table at the basis, with room for pivots.
        requires active { IsActive self.old }

        // On Ok they are so again, and further on; only a pivot beyond its bounds stops the kernel.
        ensures active { OnOk result (IsActive self.new) }
        ensures left { self.old.in_kernel ≡ true → self.new.in_kernel ≡ false →
            WasHeldUp (held_of self.old.kernel.table Open) }
        ensures ahead { IfOk result (λ solved. IsAhead (table_of self.old) (table_of self.new)
            solved) }

        // It keeps its box and rows, with room for pivots; on Ok the kernel works where it may.
        ensures keeps { KeepsBoxAndRows self.old.kernel.table self.new.kernel.table }
        ensures back { OnOk result (self.new.in_kernel ≡ false → MayReturn self.new.kernel.table →
            ⊥) }
        ensures room { HasRoom self.new.kernel.table }

        // On Err a step at the basis that is left is too wide.
        ensures wide { IfErr result (λ wide. IsStepTooWide self.new.kernel.table.top
            self.new.kernel.table.costs self.new.kernel.table.rows.items
            (wide_at wide self.new.kernel.table.basis.items)) }
    {
        // The kernel works until a pivot is due that its bounds don't cover.
        if self.in_kernel {
            match self.kernel.settle() {
                Ok(solved) => return Ok(Some(solved)),
                Err(_) => self.leave_kernel(),
            }
        }
        self.advance()
    }

    /// Works until the table shows the answer: in the kernel, but for each pivot that its bounds
    /// don't cover, and where they don't cover the table behind it.
    ///
    /// # Errors
    ///
    /// `Wide` where a step makes a whole number that passes the top; it is one at the basis that is left.
    pub fn settle(&mut self) -> Result<Solved, Wide>
        // The lines are the table at the basis, with room for pivots.
        requires active { IsActive self.old }

        // On Ok the lines are the table at the basis again, and show the answer.
        ensures active { OnOk result (IsActive self.new) }
        ensures shown { IfOk result (λ solved. IsShown self.new.kernel.table.basis.items
            (table_of self.new).lines.items (Ended solved)) }

        // Box and rows stay; only a pivot beyond its bounds stops the kernel, till it may return.
        ensures keeps { KeepsBoxAndRows self.old.kernel.table self.new.kernel.table }
        ensures left { self.old.in_kernel ≡ true → self.new.in_kernel ≡ false →
            WasHeldUp (held_of self.old.kernel.table Open) }
        ensures back { OnOk result (self.new.in_kernel ≡ false → MayReturn self.new.kernel.table →
            ⊥) }

        // There is room for pivots in any case; on Err a step at the basis left is too wide.
        ensures room { HasRoom self.new.kernel.table }
        ensures wide { IfErr result (λ wide. IsStepTooWide self.new.kernel.table.top
            self.new.kernel.table.costs self.new.kernel.table.rows.items
            (wide_at wide self.new.kernel.table.basis.items)) }
    {
        'rounds: loop {
            if let Some(solved) = self.work()? {
                return Ok(solved);
            }
        }
    }

    /// Puts the corner, at which the basis is 0, in place of a point.
    ///
    /// # Errors
    ///
    /// `Wide` where a step of this makes a whole number that passes the top; then `into` is as before.
    pub fn put_corner(&self, into: &mut Point) -> Result<(), Wide>
        // No constant of the table is negative, and the point has a place for each variable.
        requires active { IsActive self.now }
        requires high { AreHigh (table_of self.now) }
        requires places { length into.old.values ≡ length self.now.kernel.table.costs.low }

        // On Ok it is the least point of the box that meets the rows, and its scale is below 2^100.
        ensures least { OnOk result (IsLeastPoint (AreMet self.now.kernel.table.rows.items)
            self.now.kernel.table.costs into.new) }
        ensures small { OnOk result (into.new.scale < 2 ^ 100) }

        // On Err the point is as before, and a step at the basis is too wide.
        ensures kept { OnErr result (into.new ≡ into.old) }
        ensures wide { IfErr result (λ wide. IsStepTooWide self.now.kernel.table.top
            self.now.kernel.table.costs self.now.kernel.table.rows.items
            (wide_at wide self.now.kernel.table.basis.items)) }
    {
        if self.in_kernel {
            self.kernel.put_corner(into);
            return Ok(());
        }
        self.kernel.table.put_corner(into)
    }

    /// Whole multipliers of rows that refute the box, by a refuting form.
    ///
    /// # Errors
    ///
    /// `TooWide` where a step makes a whole number that passes the top; `OutOfMemory`.
    pub fn multipliers(&self, alloc: Global, line: usize) -> Result<Multipliers, SimplexStop>
        // The line is one of the table, and its form can't be made non-negative.
        requires active { IsActive self.now }
        requires line { line < length (table_of self.now).lines.items }
        requires refuting { IsRefutingForm self.now.kernel.table.basis.items
            (line_at (table_of self.now) line) }

        // On Ok the multipliers refute the box, with at most one row more than there are variables.
        ensures refutes { IfOk result (λ parts. Refutes self.now.kernel.table.rows.items parts
            self.now.kernel.table.costs) }
        ensures few { IfOk result
            (λ parts. length parts ≤ suc (length self.now.kernel.table.costs.low)) }

        // On Err a step at the basis is too wide, unless it was want of memory.
        ensures told { IfErr result (IsWideAtBasis self.now.kernel.table) }
    {
        if self.in_kernel {
            return self.kernel.multipliers(alloc, line);
        }
        self.kernel.table.multipliers(alloc, line)
    }

    /// Moves the table to another box, bound by bound; where a step of that is too wide, it is started anew. The kernel
    /// works on where its bounds cover so far a move, and again where they cover the table in fractions afterwards. It
    /// takes no memory.
    pub fn rebase(&mut self, costs: &CostBox)
        // The lines are the table at the basis, the new box is one of its variables, and the rows fit it.
        requires active { IsActive self.old }
        requires ranges { IsBox (length self.old.kernel.table.costs.low) costs.now }
        requires fits { All (FitsBox costs.now) self.old.kernel.table.rows.items }

        // The lines are so again; the kernel works on over a move that it covers, and else where it may.
        ensures active { IsActive self.new }
        ensures stays { self.old.in_kernel ≡ true → MayMove self.old.kernel
            (box_distance self.old.kernel.table.costs costs.now) → self.new.in_kernel ≡ true }
        ensures back { self.new.in_kernel ≡ false → MayReturn self.new.kernel.table → ⊥ }

        // The basis keeps its members, or is the starting one where a step of the move is too wide.
        ensures rebased { IsRebased (held_of self.old.kernel.table Open) costs.now
            (held_of self.new.kernel.table Open) }
    {
        if self.in_kernel {
            match self.kernel.rebase(costs) {
                Ok(()) => return,
                Err(_) => self.leave_kernel(),
            }
        }
        self.kernel.table.rebase(costs);
        self.return_to_kernel();
    }
}
