//! Whole multipliers of rows that refute a box.
ghost use Rattle.std.specs.Prelude.{◌≡◌, suc, ◌<◌, ◌≤◌, length, IfErr, IfOk};
ghost use Rattle.design_problem.specs.Boxes.{Refutes};
ghost use Rattle.design_problem.specs.Steps.{IsRefutingForm};
ghost use Rattle.fraction_table.specs.Multipliers.{IsWideAtBasis, fractions_of};
ghost use Rattle.fraction_table.specs.Pivots.{line_at, member_at};
ghost use Rattle.table_kernel.specs.Kernels.{IsKernel, stated, width_of};

use crate::Kernel;
use crate::restate::fraction_over;
use cost_base::OutOfMemory;
use design_problem::Multipliers;
use fraction_table::{SimplexStop, put_fraction, put_negated, whole_multipliers};
use std::alloc::Global;
use wide_fraction::Frac;

impl Kernel {
    /// The multipliers of a place's form and of the basis, of which rows alone have one.
    fn fractions(&self, alloc: Global, place: usize) -> Result<Vec<(u64, Frac)>, OutOfMemory>
        requires kernel { IsKernel self.now }
        requires place { place < length self.now.constants.items }
        ensures { IfOk result (λ parts. parts.items ≡ fractions_of self.now.table.basis.items
            (member_at (stated self.now) place) (line_at (stated self.now) place)) }
    {
        let member = self.table.member_at(place);
        let mut parts = Vec::new(alloc);
        put_fraction(&mut parts, member, Frac::whole(1))?;
        for column in 0..self.width() {
            let entry = fraction_over(self.entry(member, column), self.common, self.table.top);
            put_negated(&mut parts, self.table.basis[column], entry)?;
        }
        Ok(parts)
    }

    /// Whole multipliers of rows that refute the box, by a refuting form.
    ///
    /// # Errors
    ///
    /// `TooWide` where a step makes a whole number that passes the top; `OutOfMemory`.
    pub fn multipliers(&self, alloc: Global, place: usize) -> Result<Multipliers, SimplexStop>
        // The form at the place can't be made non-negative.
        requires kernel { IsKernel self.now }
        requires place { place < length self.now.constants.items }
        requires refuting { IsRefutingForm self.now.table.basis.items (line_at (stated self.now)
            place) }

        // On Ok the multipliers refute the box, with at most one row more than there are variables.
        ensures refutes { IfOk result (λ parts. Refutes self.now.table.rows.items parts
            self.now.table.costs) }
        ensures few { IfOk result (λ parts. length parts ≤ suc (width_of self.now)) }

        // On Err a step at the basis is too wide, unless it was want of memory.
        ensures told { IfErr result (IsWideAtBasis (stated self.now)) }
    {
        let fractions = self.fractions(alloc, place)?;
        whole_multipliers(alloc, fractions.as_slice(), self.table.top)
    }
}
