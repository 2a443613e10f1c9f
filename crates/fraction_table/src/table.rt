//! The table of a box and of rows at a basis.
ghost use Rattle.std.specs.Prelude.{◌≡◌, ◌<◌, length, IfErr, OnOk};
ghost use Rattle.design_problem.specs.Steps.{IsStepTooWide};
ghost use Rattle.fraction_table.specs.Pivots.{IsLeastPivot, KeepsBoxAndRows, member_at};
ghost use Rattle.fraction_table.specs.Ranks.{rank};
ghost use Rattle.fraction_table.specs.Tableaus.{wide_at};
ghost use Rattle.fraction_table.specs.ValidTables.{HasRoom, IsTableau, members_of_box};

use design_problem::{CostBox, Form, Member};
use fraction_lines::{PivotColumn, TableLine, take_quotients, turn_lines};
use wide_fraction::{Top, Wide};

/// A box with the forms of rows, at a basis, and the entries of each form of the box over that basis: those of x - low
/// and then of high - x for each variable, and those of the rows. A pivot works in the last two lines, so that it takes
/// no memory.
#[derive(Drop)]
pub struct Table {
    /// The greatest size of a whole number of a step.
    pub top: Top,
    /// The box.
    pub costs: CostBox,
    /// The forms of the rows.
    pub rows: Vec<Form>,
    /// The forms at 0, one for each column.
    pub basis: Vec<Member>,
    /// For each form of the box and the rows, its entries over the basis.
    pub lines: Vec<TableLine>,
    /// Room for a pivot: the pivot's line over the pivot.
    pub quotients: TableLine,
    /// Room for a pivot: the line that is being turned.
    pub scratch: TableLine,
}

impl Table {
    /// The member whose form stands in a line.
    pub fn member_at(&self, line: usize) -> Member
        requires ranges { length self.now.costs.high ≡ length self.now.costs.low }
        requires room { HasRoom self.now }
        requires line { line < length (members_of_box self.now.costs (length self.now.rows.items)) }
        ensures { result ≡ member_at self.now line }
    {
        let low = self.costs.low.as_slice();
        let high = self.costs.high.as_slice();
        let width = low.len();
        if line < width {
            Member::Low(line as u32, low[line])
        } else if line - width < width {
            Member::High((line - width) as u32, high[line - width])
        } else {
            Member::Row((line - width - width) as u64)
        }
    }

    /// Turns the table at a line and a column: the line's form takes the place of the column's form in the basis. First
    /// the quotients of the line are made, and then each line is turned, in order.
    ///
    /// # Errors
    ///
    /// `Wide` where one of these steps makes a whole number that passes `top`. Then the basis is as before.
    pub fn pivot(&mut self, line: usize, column: u32) -> Result<(), Wide>
        // The lines are the table at the basis, and the column is the least one for a pivot on the line.
        requires tableau { IsTableau self.old }
        requires room { HasRoom self.old }
        requires pivot { IsLeastPivot self.old line column }

        // On Ok the lines are the table at the new basis, and its rank rose.
        ensures tableau { OnOk result (IsTableau self.new) }
        ensures rises { OnOk result (rank self.old < rank self.new) }

        // In any case it has the same box and rows, and room for pivots.
        ensures keeps { KeepsBoxAndRows self.old self.new }
        ensures room { HasRoom self.new }

        // On Err a step at the basis that is left is too wide.
        ensures wide { IfErr result (λ wide. IsStepTooWide self.new.top self.new.costs
            self.new.rows.items (wide_at wide self.new.basis.items)) }
    {
        let member = self.member_at(line);
        let inverse = take_quotients(&self.lines[line], column, &mut self.quotients, self.top)?;
        turn_lines(
            self.lines.as_mut_slice(),
            &PivotColumn { column, inverse },
            &self.quotients,
            &mut self.scratch,
            self.top,
        )?;
        self.basis[column as usize] = member;
        Ok(())
    }
}
