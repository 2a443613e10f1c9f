//! The tableau: a table, and how far the work on it is.
ghost use Rattle.std.specs.Prelude.{◌≡◌, ℕ, suc, ◌^◌, ◌<◌, ◌≤◌, ◌↔◌, ◌++◌, [], ◌∷◌, length, true, false, All, IfErr, IfOk, IsTrue, OnErr, OnOk};
ghost use Rattle.design_problem.specs.Basis.{IsBasis};
ghost use Rattle.design_problem.specs.Boxes.{IsBox, Refutes};
ghost use Rattle.design_problem.specs.Earnest.{IsLeastPoint};
ghost use Rattle.design_problem.specs.Steps.{IsStepTooWide};
ghost use Rattle.design_problem.specs.Forms.{AreMet};
ghost use Rattle.fraction_table.specs.declared.stage.Solved.TheVariants.{Feasible, Refuted};
ghost use Rattle.fraction_table.specs.declared.stage.Stage.TheVariants.{Ended, Stopped};
ghost use Rattle.fraction_table.specs.Tableaus.{FitsBox, IsAmongForms, IsGoing, IsRebased, IsRowRefused, IsSolved, IsTableauStopped, IsTableauTold, starting, wide_at};
ghost use Rattle.table_kernel.specs.Rows.{IsCovered};
ghost use Rattle.exact_simplex.specs.Actives.{CannotReturn, CouldNotMove, WasHeldUp, held_by};

use crate::active::ActiveTable;
use area_graph::Point;
use cost_base::OutOfMemory;
use design_problem::{CostBox, Form, Member, Multipliers};
use fraction_table::{SimplexStop, Solved, Stage, fit_box, fits_box, is_box};
use std::alloc::Global;
use std::marker::Model;
use wide_fraction::{Top, Wide};

/// A box with the forms of rows, at a basis. Contracts see the greatest size of a number, the box, the forms of the
/// rows as they were added, the members of the basis, how far the work on it is, and whether the kernel works.
#[derive(Drop)]
pub struct Tableau {
    table: ActiveTable,
    stage: Stage,
}

impl Model for Tableau {
    ghost use Rattle.exact_simplex.specs.Actives.{IsSoundActive, TableauState, state_of};

    ghost Value = { TableauState };

    ghost view = { λ t. state_of t.table t.stage };

    ghost invariant = { λ t. IsSoundActive t.table t.stage };
}

impl Tableau {
    /// The tableau of a box without rows, at the basis of the forms x - low.
    ///
    /// # Errors
    ///
    /// `OutOfMemory` where the table got no memory.
    pub fn start(alloc: Global, costs: &CostBox, top: Top) -> Result<Tableau, OutOfMemory>
        requires ranges { IsBox (length costs.now.low) costs.now }
        requires few { length costs.now.low < 2 ^ 32 }
        ensures held { IfOk result (λ tableau. held_by tableau ≡
            record {
              top = top;
              costs = costs.now;
              rows = [];
              basis = starting costs.now;
              stage = Stage.Open;
            }) }
        ensures kernel { IfOk result (λ tableau. (tableau.in_kernel ≡ true) ↔ (2 ^ 126 ≤ top)) }
    {
        Ok(Tableau {
            table: ActiveTable::start(alloc, costs, top)?,
            stage: Stage::Open,
        })
    }

    /// The members of the basis, in the order of its columns, with rows numbered as they were added.
    ///
    /// # Errors
    ///
    /// `OutOfMemory` where the list got no memory.
    pub fn basis(&self, alloc: Global) -> Result<Vec<Member>, OutOfMemory>
        ensures members { IfOk result (λ members. members.items ≡ self.now.basis) }
        ensures basis { IsBasis self.now.costs self.now.rows self.now.basis }
    {
        Ok(self.table.kernel.table.basis.as_slice().to_vec(alloc)?)
    }

    /// Nothing, where the tableau can go on.
    ///
    /// # Errors
    ///
    /// The step that stopped it, since a number was too wide.
    fn going(&self) -> Result<(), Wide>
        ensures going { OnOk result (IsGoing self.now.stage) }
        ensures stopped { IfErr result (λ wide. self.now.stage ≡ Stopped wide) }
    {
        match self.stage {
            Stage::Open => Ok(()),
            Stage::Ended(_) => Ok(()),
            Stage::Stopped(wide) => Err(wide),
        }
    }

    /// Whether it takes the form of a row: one coefficient for each variable, each of size at most 2^26, and a value at
    /// the low corner of size below 2^27.
    pub fn takes(&self, form: &Form) -> bool
        ensures { IsTrue result ↔ FitsBox self.now.costs form.now }
    {
        fits_box(&self.table.kernel.table.costs, form)
    }

    /// Whether it can move to another box: one of as many variables, none of whose ranges is empty, over which it would
    /// take the form of each of its rows.
    pub fn fits(&self, costs: &CostBox) -> bool
        ensures { IsTrue result ↔ (IsBox (length self.now.costs.low) costs.now ×
            All (FitsBox costs.now) self.now.rows) }
    {
        let width = self.table.kernel.table.costs.low.as_slice().len();
        if costs.low.as_slice().len() != width || !is_box(costs) {
            return false;
        }
        fit_box(costs, self.table.kernel.table.rows.as_slice())
    }

    /// Adds the form of a row, with its line at the present basis: first the line's constant, and then its columns in
    /// order. A column's sum starts with 0, and that of the constant with the form's value at the low corner; the terms
    /// of the coefficients other than 0 are added in the order of the variables. All memory is taken before.
    ///
    /// # Errors
    ///
    /// - `TooWide` where a step makes a whole number that passes the top. It stops the tableau, which has the row then;
    ///   every later call tells the same step.
    /// - `OutOfMemory` where something got no memory. Then the tableau is as before.
    pub fn add_row(&mut self, alloc: Global, form: &Form) -> Result<(), SimplexStop>
        // The row's form fits the tableau's box.
        requires fits { FitsBox self.old.costs form.now }

        // On Ok the tableau hadn't stopped, and it's open with one row more, at the same basis.
        ensures going { OnOk result (IsGoing self.old.stage) }
        ensures added { OnOk result (held_by self.new ≡
            record {
              top = self.old.top;
              costs = self.old.costs;
              rows = self.old.rows ++ form.now ∷ [];
              basis = self.old.basis;
              stage = Stage.Open;
            }) }

        // On Err it's as before, unless a too wide step stopped it; then it has the row too.
        ensures refused { IfErr result (IsRowRefused (held_by self.old) form.now
            (held_by self.new)) }
        ensures same { result ≡ Err SimplexStop.OutOfMemory → self.new ≡ self.old }
        ensures rests { (wide : Wide) → self.old.stage ≡ Stopped wide → self.new ≡ self.old }

        // The kernel works on where its bounds cover the row.
        ensures kernel { self.old.in_kernel ≡ true → IsCovered form.now →
            self.new.in_kernel ≡ true }
    {
        self.going()?;
        let row = self.table.make_room(alloc, form)?;
        let put = self.table.put_row(row);
        self.stage = match &put {
            Ok(()) => Stage::Open,
            Err(step) => Stage::Stopped(*step),
        };
        Ok(put?)
    }

    /// Whether some rational point of the box meets all rows. It takes no memory.
    ///
    /// # Errors
    ///
    /// `Wide` where a step makes a whole number that passes the top. It stops the tableau: `basis` is the one at which
    /// the step was taken, and every later call tells the same step.
    pub fn solve(&mut self) -> Result<Solved, Wide>
        // On Ok a rational point of the box meets the rows, or none does and a form is named.
        ensures going { OnOk result (IsGoing self.old.stage) }
        ensures solved { IfOk result (λ solved. IsSolved self.old.costs self.old.rows solved) }
        ensures among { IfOk result (IsAmongForms self.old.costs self.old.rows) }

        // The tableau holds the same box and rows then, and has ended with this answer.
        ensures ended { IfOk result (λ solved. held_by self.new ≡
            record {
              top = self.old.top;
              costs = self.old.costs;
              rows = self.old.rows;
              basis = self.new.basis;
              stage = Ended solved;
            }) }

        // On Err a too wide step at its basis stops it, or it had stopped and is as before.
        ensures stop { IfErr result (λ wide. IsTableauStopped (held_by self.old) self.old.rows
            (held_by self.new) wide) }
        ensures rests { (wide : Wide) → self.old.stage ≡ Stopped wide → self.new ≡ self.old }

        // Only a pivot beyond its bounds stops the kernel; on Ok it works wherever it may.
        ensures left { self.old.in_kernel ≡ true → self.new.in_kernel ≡ false →
            WasHeldUp (held_by self.old) }
        ensures back { OnOk result (self.new.in_kernel ≡ false → CannotReturn (held_by self.new)) }
    {
        self.going()?;
        let settled = self.table.settle();
        self.stage = match &settled {
            Ok(solved) => Stage::Ended(*solved),
            Err(wide) => Stage::Stopped(*wide),
        };
        settled
    }

    /// The lexicographically least point of the box that meets all rows, into `into`. It takes no memory.
    ///
    /// # Errors
    ///
    /// `Wide` where a step makes a whole number that passes the top; then `into` is as before.
    pub fn point(&self, into: &mut Point) -> Result<(), Wide>
        // `solve` told that a point meets the rows, and `into` has a place for each variable.
        requires solved { self.now.stage ≡ Ended Feasible }
        requires places { length into.old.values ≡ length self.now.costs.low }

        // On Ok it is the least point of the box that meets the rows, and its scale is below 2^100.
        ensures least { OnOk result (IsLeastPoint (AreMet self.now.rows) self.now.costs into.new) }
        ensures small { OnOk result (into.new.scale < 2 ^ 100) }

        // On Err the point is as before, and a step at the basis is too wide.
        ensures kept { OnErr result (into.new ≡ into.old) }
        ensures wide { IfErr result (λ wide. IsStepTooWide self.now.top self.now.costs self.now.rows
            (wide_at wide self.now.basis)) }
    {
        self.table.put_corner(into)
    }

    /// Whole multipliers over the rows held, numbered as they were added, that refute the box: under them the sum of
    /// the rows is negative at every point of it (Ben-Ameur and Gourdin 2003). They are put into `into`. The form that
    /// `solve` found counts once where it is a row, and each row of the basis by the negated entry of that form in its
    /// column; all times the least number that makes whole numbers of them.
    ///
    /// # Errors
    ///
    /// `TooWide` where a step makes a whole number that passes the top; `OutOfMemory`. After both `into` is as before.
    pub fn multipliers(
        &self,
        alloc: Global,
        form: u64,
        into: &mut Multipliers,
    ) -> Result<(), SimplexStop>
        requires solved { self.now.stage ≡ Ended (Refuted form) }
        ensures refutes { OnOk result (Refutes self.now.rows into.new self.now.costs) }
        ensures few { OnOk result (length into.new ≤ suc (length self.now.costs.low)) }
        ensures kept { OnErr result (into.new ≡ into.old) }
        ensures told { IfErr result (IsTableauTold (held_by self.now)) }
    {
        *into = self.table.multipliers(alloc, form as usize)?;
        Ok(())
    }

    /// Moves the tableau to another box: the same rows and basis members, with the new bounds. It takes no memory.
    ///
    /// Each bound moves in turn; where a step of that makes a whole number that passes the top, the table is started
    /// anew, at the basis of the forms x - low of the box.
    ///
    /// # Errors
    ///
    /// `Wide` where the tableau had stopped: the same step again.
    pub fn rebase(&mut self, costs: &CostBox) -> Result<(), Wide>
        // The new box is one of the tableau's variables, and the rows fit it.
        requires ranges { IsBox (length self.old.costs.low) costs.now }
        requires fits { All (FitsBox costs.now) self.old.rows }

        // On Ok it has moved, to the starting basis only where a step of the move is too wide.
        ensures going { OnOk result (IsGoing self.old.stage) }
        ensures moved { OnOk result (IsRebased (held_by self.old) costs.now (held_by self.new)) }

        // Only a move beyond its bounds stops the kernel; on Ok it works wherever it may.
        ensures left { self.old.in_kernel ≡ true → self.new.in_kernel ≡ false →
            CouldNotMove (held_by self.old) costs.now }
        ensures back { OnOk result (self.new.in_kernel ≡ false → CannotReturn (held_by self.new)) }

        // On Err it had stopped before, by the same step, and is as it was.
        ensures stopped { IfErr result (λ wide. (self.old.stage ≡ Stopped wide) ×
            (self.new ≡ self.old)) }
    {
        self.going()?;
        self.table.rebase(costs);
        self.stage = Stage::Open;
        Ok(())
    }
}
