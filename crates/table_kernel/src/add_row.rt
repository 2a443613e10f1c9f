//! One more row: its form, and its constant at the present basis.
ghost use Rattle.std.specs.Prelude.{◌≡◌, ◌^◌, ◌<◌, ◌≤◌, ◌↔◌, pos, ◌∷◌, [], ◌++◌, nat_abs, length, All, IfErr, IfOk, IsTrue, OnOk};
ghost use Rattle.fraction_lines.specs.TableLines.{blank_line};
ghost use Rattle.design_problem.specs.Steps.{IsStepTooWide};
ghost use Rattle.fraction_table.specs.RowLines.{HoldsRow, HoldsSame};
ghost use Rattle.fraction_table.specs.Tableaus.{FitsBox, wide_at};
ghost use Rattle.fraction_table.specs.ValidTables.{HasRoom, IsTableau, held_of};
ghost use Rattle.fraction_table.specs.declared.stage.Stage.TheVariants.{Open};
ghost use Rattle.integer_pivots.specs.Numbers.{weight_of};
ghost use Rattle.table_kernel.specs.Kernels.{IsKernel};
ghost use Rattle.table_kernel.specs.ReadBack.{IsParked};
ghost use Rattle.table_kernel.specs.Rows.{HasRowPlace, HoldsNumbers, IsCovered, MayAddRow};

use crate::Kernel;
use crate::constants::row_constant;
use cost_base::OutOfMemory;
use design_problem::Form;
use fraction_table::BlankLine;
use integer_pivots::{WEIGHT_LIMIT, push_uses, reserve_uses, within};
use std::alloc::Global;
use wide_fraction::Wide;

/// The sum of the sizes of a form's coefficients.
fn form_weight(form: &Form) -> i64
    requires few { length form.now.coefficients < 2 ^ 32 }
    requires sizes { All (λ c. nat_abs c ≤ 2 ^ 26) form.now.coefficients }
    ensures { result ≡ pos (weight_of form.now) }
{
    let mut sum = 0;
    for term in form.terms() {
        sum += term.coefficient.abs();
    }
    sum
}

impl Kernel {
    /// Makes room for one more row, and the row's parts.
    ///
    /// # Errors
    ///
    /// `OutOfMemory` where something got no memory. Then the kernel holds what it held.
    pub fn make_room(&mut self, alloc: Global, form: &Form) -> Result<BlankLine, OutOfMemory>
        // In any case the kernel holds the same, at work in whole numbers or parked.
        requires few { length self.old.table.costs.low < 2 ^ 32 }
        ensures same { HoldsSame self.old.table self.new.table }
        ensures numbers { HoldsNumbers self.old self.new }
        ensures kernel { IsKernel self.old → IsKernel self.new }
        ensures parked { IsParked self.old → IsParked self.new }

        // On Ok there's a place for the row, which has the form and a line of zeros.
        ensures place { OnOk result (HasRowPlace self.new) }
        ensures form { IfOk result (λ row. row.form ≡ form.now) }
        ensures blank { IfOk result
            (λ row. row.line ≡ blank_line (length self.old.table.costs.low)) }
    {
        if self.constants.reserve(1).is_err() {
            return Err(OutOfMemory);
        }
        reserve_uses(self.uses.as_mut_slice())?;
        self.table.make_room(alloc, form)
    }

    /// Whether the kernel's bounds cover a row: its coefficients together.
    pub fn covers(&self, form: &Form) -> bool
        requires few { length self.now.table.costs.low < 2 ^ 32 }
        requires fits { FitsBox self.now.table.costs form.now }
        ensures { IsTrue result ↔ IsCovered form.now }
    {
        within(form_weight(form), WEIGHT_LIMIT)
    }

    /// Adds a row for which there is room, and which is covered.
    pub fn put_row(&mut self, row: BlankLine)
        requires kernel { IsKernel self.old }
        requires row { MayAddRow self.old row }
        requires covered { IsCovered row.form }
        ensures kernel { IsKernel self.new }
        ensures held { held_of self.new.table Open ≡
            record {
              top = self.old.table.top;
              costs = self.old.table.costs;
              rows = self.old.table.rows.items ++ row.form ∷ [];
              basis = self.old.table.basis.items;
              stage = Open;
            } }
    {
        let constant = row_constant(
            &row.form,
            &self.table.costs,
            self.common,
            self.constants.as_slice(),
        );
        self.constants.push_reserved(constant);
        let count = self.table.rows.len();
        push_uses(self.uses.as_mut_slice(), &row.form, count);
        self.table.put_blank(row);
    }

    /// Adds a row for which there is room to the table in fractions. The kernel's lists grow with it, so that its lines
    /// can be read back.
    ///
    /// # Errors
    ///
    /// `Wide` where a step of the row's line makes a whole number that passes the top. The row was added nevertheless.
    pub fn park_row(&mut self, row: BlankLine) -> Result<(), Wide>
        // The kernel is parked, its table's lines are those at the basis, and there's a place for the row.
        requires parked { IsParked self.old }
        requires tableau { IsTableau self.old.table }
        requires row { MayAddRow self.old row }

        // The row is added in any case, and the table has room for pivots.
        ensures holds { HoldsRow self.old.table row.form self.new.table }
        ensures room { HasRoom self.new.table }

        // On Ok the table's lines are those at the basis, and the kernel's lists have grown with it.
        ensures tableau { OnOk result (IsTableau self.new.table) }
        ensures parked { OnOk result (IsParked self.new) }

        // On Err a step at the basis is too wide.
        ensures wide { IfErr result (λ wide. IsStepTooWide self.new.table.top self.new.table.costs
            self.new.table.rows.items (wide_at wide self.new.table.basis.items)) }
    {
        self.constants.push_reserved(0);
        let count = self.table.rows.len();
        push_uses(self.uses.as_mut_slice(), &row.form, count);
        self.table.put_row(row)
    }
}
