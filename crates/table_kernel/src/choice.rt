//! The choice of a pivot's column.
ghost use Rattle.std.specs.Prelude.{◌≡◌, ◌+◌, ◌^◌, ◌<◌, length, vec_capacity};
ghost use Rattle.integer_pivots.specs.Lines.{IsLine};
ghost use Rattle.table_kernel.specs.Choices.{HasColumnsLeft};
ghost use Rattle.table_kernel.specs.Kernels.{IsKernel};
ghost use Rattle.table_kernel.specs.Lines.{IsBestColumn, KeepsNumbers};

use crate::Kernel;
use integer_pivots::{keep_least, put_latest};

impl Kernel {
    /// Keeps of the columns that are left those in which the variable's number, over the line's, is least.
    fn look_at(&mut self, var: usize)
        // Columns are left now that the variables before this one were looked at.
        requires kernel { IsKernel self.old }
        requires line { IsLine self.old.entering }
        requires var { var < length self.old.lows.items }
        requires left { HasColumnsLeft self.old var }

        // Those left are level up to this variable too, and no other comes before them.
        ensures left { HasColumnsLeft self.new (var + 1) }

        // Nothing changes but which columns are left, in the same room.
        ensures room { vec_capacity self.new.left ≡ vec_capacity self.old.left }
        ensures keeps { self.new ≡ record self.old { left = self.new.left } }
    {
        keep_least(
            &mut self.left,
            self.lows[var].numbers.as_slice(),
            self.entering.numbers.as_slice(),
        );
    }

    /// Looks at one variable after the other from this one on, as long as several columns are left.
    fn look_at_all(&mut self, first: usize)
        // Columns are left now that the variables before the first one were looked at.
        requires kernel { IsKernel self.old }
        requires line { IsLine self.old.entering }
        requires left { HasColumnsLeft self.old first }

        // Those left are level at all variables, and no other comes before them.
        ensures left { HasColumnsLeft self.new (length self.new.lows.items) }

        // Nothing changes but which columns are left, in the same room.
        ensures room { vec_capacity self.new.left ≡ vec_capacity self.old.left }
        ensures keeps { self.new ≡ record self.old { left = self.new.left } }
    {
        for var in first..self.lows.len() {
            if self.left.len() == 1 {
                return;
            }
            self.look_at(var);
        }
    }

    /// Of the columns in which the line is positive the least one, each over the line's number there: they are compared
    /// at the forms x - low, in order. The first number of a column is positive, so those that lead latest come first.
    pub fn choose(&mut self) -> Option<usize>
        requires kernel { IsKernel self.old }
        requires line { IsLine self.old.entering }
        ensures best { IsBestColumn self.old result }
        ensures entering { self.new.entering ≡ self.old.entering }
        ensures keeps { KeepsNumbers self.old self.new }
    {
        let latest = put_latest(
            &mut self.left,
            &self.entering.numbers,
            self.leads.as_slice(),
        );
        if self.left.is_empty() {
            return None;
        }
        self.look_at_all(latest);
        Some(self.left[0])
    }
}
