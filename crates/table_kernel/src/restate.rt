//! The table in fractions at the kernel's basis.
ghost use Rattle.std.specs.Prelude.{◌≡◌, ℕ, suc, ◌<◌, ◌≤◌, [], pos, ◌<ℤ◌, nat_abs, length, slice_index_or, slice_set};
ghost use Rattle.whole_numbers.specs.Lists.{number_at};
ghost use Rattle.design_problem.specs.Basis.{IsFormOf, entry, member_form};
ghost use Rattle.fraction_lines.specs.TableLines.{IsTableNumber, blank_line, nothing};
ghost use Rattle.fraction_table.specs.Pivots.{KeepsBoxAndRows};
ghost use Rattle.fraction_table.specs.ValidTables.{HasRoom, IsTableau};
ghost use Rattle.table_kernel.specs.Kernels.{IsKernel, kernel_lines, width_of};
ghost use Rattle.table_kernel.specs.Lines.{column_of};
ghost use Rattle.table_kernel.specs.Numbers.{number_at_column, over_common};
ghost use Rattle.table_kernel.specs.ReadBack.{IsParked};
ghost use Rattle.table_kernel.specs.Restated.{KeepsAllButLinesOf};
ghost use Rattle.table_kernel.specs.Rows.{HasRowPlace};

use crate::Kernel;
use design_problem::Member;
use wide_fraction::{Frac, Top};

/// A number over the denominator, in lowest terms.
pub fn fraction_over(number: i128, common: i64, top: Top) -> Frac
    requires positive { pos 0 <ℤ common }
    requires common { nat_abs common ≤ top }
    requires number { nat_abs number ≤ top }
    ensures value { result ≡ over_common (nat_abs common) number }
    ensures number { IsTableNumber top result }
{
    match Frac::new(number, i128::from(common), top) {
        Some(fraction) => fraction,
        // The number and the denominator are within `top`, so they are in lowest terms, too.
        None => unreachable!(),
    }
}

impl Kernel {
    /// Puts the constant of a place's form into its line in the table, with 0 at the columns.
    fn restate_constant(&mut self, place: usize)
        requires kernel { IsKernel self.old }
        requires place { place < length self.old.constants.items }
        ensures lines { self.new.table.lines.items ≡ slice_set self.old.table.lines.items place
            (slice_set (blank_line (width_of self.old)) 0
            (over_common (nat_abs self.old.common) (number_at self.old.constants.items place))) }
        ensures keeps { KeepsAllButLinesOf self.old self.new }
    {
        let constant = fraction_over(
            i128::from(self.constants[place]),
            self.common,
            self.table.top,
        );
        self.table.lines[place].clear();
        self.table.lines[place].set_constant(constant);
    }

    /// Puts a member's number at a column into a line in the table that is 0 from there on.
    fn restate_entry(&mut self, place: usize, member: Member, column: usize)
        // The member is a form of the kernel's box or rows, and the place is one of a line.
        requires kernel { IsKernel self.old }
        requires place { place < length self.old.constants.items }
        requires member { IsFormOf self.old.table.costs self.old.table.rows.items member }

        // From the column on, the line's numbers are still to come.
        requires column { column < width_of self.old }
        requires zeros { (later : ℕ) → column ≤ later →
            entry (slice_index_or self.old.table.lines.items place []) (suc later) ≡ nothing }

        // The member's number stands at the column in lowest terms, and nothing else changes.
        ensures lines { self.new.table.lines.items ≡ slice_set self.old.table.lines.items place
            (slice_set (slice_index_or self.old.table.lines.items place []) (suc column)
            (over_common (nat_abs self.old.common) (number_at_column
            (member_form (width_of self.old) self.old.table.rows.items member)
            (column_of self.old column)))) }
        ensures keeps { KeepsAllButLinesOf self.old self.new }
    {
        let number = fraction_over(self.entry(member, column), self.common, self.table.top);
        self.table.lines[place].push(column as u32, number);
    }

    /// Puts the line of one place's form into the table.
    fn restate_line(&mut self, place: usize)
        requires kernel { IsKernel self.old }
        requires place { place < length self.old.constants.items }
        ensures lines { self.new.table.lines.items ≡ slice_set self.old.table.lines.items place
            (slice_index_or (kernel_lines self.old) place []) }
        ensures keeps { KeepsAllButLinesOf self.old self.new }
    {
        let member = self.table.member_at(place);
        self.restate_constant(place);
        for column in 0..self.width() {
            self.restate_entry(place, member, column);
        }
    }

    /// Puts the lines of all forms into the table.
    pub fn restate(&mut self)
        // The table's lines are the fractions that the kernel stands for.
        requires kernel { IsKernel self.old }
        ensures lines { self.new.table.lines.items ≡ kernel_lines self.old }

        // The lines are the table at the basis, with room for pivots, so it can go on in fractions.
        ensures tableau { IsTableau self.new.table }
        ensures room { HasRoom self.new.table }

        // The box, the rows and the basis stay, and a place for a row; the kernel is parked.
        ensures keeps { KeepsBoxAndRows self.old.table self.new.table }
        ensures basis { self.new.table.basis ≡ self.old.table.basis }
        ensures place { HasRowPlace self.old → HasRowPlace self.new }
        ensures parked { IsParked self.new }
    {
        for place in 0..self.constants.len() {
            self.restate_line(place);
        }
    }
}
