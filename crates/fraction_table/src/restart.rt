//! A table that is started anew, in the place that it has.
ghost use Rattle.std.specs.Prelude.{◌≡◌, suc, ◌^◌, ◌<◌, ◌∷◌, length, map, slice_set, All};
ghost use Rattle.whole_numbers.specs.Fractions.{whole};
ghost use Rattle.design_problem.specs.Basis.{IsFormOf, unit};
ghost use Rattle.design_problem.specs.Boxes.{IsBox};
ghost use Rattle.design_problem.specs.Forms.{value_for_costs};
ghost use Rattle.fraction_table.specs.Moves.{HasShape, KeepsAllButLines, KeepsTableLines};
ghost use Rattle.fraction_table.specs.Pivots.{member_at};
ghost use Rattle.fraction_lines.specs.TableLines.{AreTableNumbers};
ghost use Rattle.fraction_table.specs.declared.stage.Stage.TheVariants.{Open};
ghost use Rattle.fraction_table.specs.Tableaus.{FitsBox, IsRebased, starting};
ghost use Rattle.fraction_table.specs.ValidTables.{HasRoom, IsTableau, held_of, members_of_box, starting_line};

use crate::add_row::corner_value;
use crate::start::{UnitForm, put_unit_line, range_of};
use crate::table::Table;
use cost_base::Listed;
use design_problem::{CostBox, Form, Member};
use fraction_lines::TableLine;
use wide_fraction::{Frac, Top};

/// Makes the line the starting one of a row's form: its value at the low corner, and its coefficients.
fn put_form_line(line: &mut TableLine, form: &Form, costs: &CostBox, top: Top)
    requires fits { FitsBox costs.now form.now }
    requires few { length costs.now.low < 2 ^ 32 }
    requires width { length line.old ≡ suc (length costs.now.low) }
    ensures line { line.new ≡ whole (value_for_costs form.now costs.now.low) ∷
        map whole form.now.coefficients }
    ensures numbers { AreTableNumbers top line.new }
{
    // For the prover: that `top` has at least 28 bits, so that the line is within it, is known once it is read.
    let _ = top.value();
    line.clear();
    line.set_constant(Frac::whole(corner_value(form, costs)));
    let terms = form.terms();
    for term in terms {
        line.push(term.var, Frac::whole(term.coefficient));
    }
}

/// Makes the line the starting one of a form of the box.
fn put_line(line: &mut TableLine, member: Member, costs: &CostBox, rows: &[Form], top: Top)
    // The member is one of the box and its rows, and all rows fit the box.
    requires form { IsFormOf costs.now rows.now member }
    requires ranges { IsBox (length costs.now.low) costs.now }
    requires fits { All (FitsBox costs.now) rows.now }

    // The line has a column for each variable, of which there are fewer than 2^32.
    requires few { length costs.now.low < 2 ^ 32 }
    requires width { length line.old ≡ suc (length costs.now.low) }

    // It becomes the starting line of the member's form, of numbers of the table.
    ensures line { line.new ≡ starting_line costs.now rows.now member }
    ensures numbers { AreTableNumbers top line.new }
{
    let low = costs.low.as_slice();
    let width = low.len() as u32;
    match member {
        Member::Low(var, _) => {
            let form = UnitForm {
                var,
                constant: 0,
                coefficient: 1,
            };
            put_unit_line(line, width, form, top);
        }
        Member::High(var, bound) => {
            let range = range_of(low[var as usize], bound);
            let form = UnitForm {
                var,
                constant: range,
                coefficient: -1,
            };
            put_unit_line(line, width, form, top);
        }
        Member::Row(row) => put_form_line(line, &rows[row as usize], costs, top),
    }
}

/// Puts other bounds in place of those of a box.
fn put_bounds(bounds: &mut Listed<u16>, news: &[u16])
    requires { length news.now ≡ length bounds.old }
    ensures { bounds.new ≡ news.now }
{
    for var in 0..news.len() {
        bounds.set(var, news[var]);
    }
}

/// Makes the basis that of the forms x - low.
fn put_start(basis: &mut [Member], costs: &CostBox)
    requires long { length basis.old ≡ length costs.now.low }
    requires few { length costs.now.low < 2 ^ 32 }
    ensures { basis.new ≡ starting costs.now }
{
    let low = costs.low.as_slice();
    for var in 0..low.len() {
        basis[var] = Member::Low(var as u32, low[var]);
    }
}

impl Table {
    /// Makes a line that of the starting basis.
    fn start_line(&mut self, line: usize, costs: &CostBox)
        // The table has this box already, and its rows fit it.
        requires costs { self.old.costs ≡ costs.now }
        requires ranges { IsBox (length costs.now.low) costs.now }
        requires fits { All (FitsBox costs.now) self.old.rows.items }

        // There is a line for each form of the table, and this is one of them.
        requires shape { HasShape self.old }
        requires line { line < length self.old.lines.items }

        // It becomes that of its form at the starting basis; nothing else of the table changes.
        ensures lines { self.new.lines.items ≡ slice_set self.old.lines.items line
            (starting_line costs.now self.old.rows.items (member_at self.old line)) }
        ensures shape { HasShape self.new }
        ensures keeps { KeepsAllButLines self.old self.new }
    {
        let member = self.member_at(line);
        let rows = self.rows.as_slice();
        put_line(&mut self.lines[line], member, costs, rows, self.top);
    }

    /// Makes the lines those of the starting basis.
    fn start_lines(&mut self, costs: &CostBox)
        // The table has this box already, its rows fit it, and there is a line for each form.
        requires costs { self.old.costs ≡ costs.now }
        requires ranges { IsBox (length costs.now.low) costs.now }
        requires fits { All (FitsBox costs.now) self.old.rows.items }
        requires shape { HasShape self.old }

        // Each line becomes that of its form at the starting basis; nothing else changes.
        ensures lines { self.new.lines.items ≡ map (starting_line costs.now self.old.rows.items)
            (members_of_box costs.now (length self.old.rows.items)) }
        ensures shape { HasShape self.new }
        ensures keeps { KeepsAllButLines self.old self.new }
    {
        for line in 0..self.lines.len() {
            self.start_line(line, costs);
        }
    }

    /// Starts the table anew for another box: at the basis of the forms x - low, with the rows that it has. It takes no
    /// memory.
    fn restart(&mut self, costs: &CostBox)
        // The new box is one of the table's variables, and the rows fit it.
        requires shape { HasShape self.old }
        requires ranges { IsBox (length self.old.costs.low) costs.now }
        requires fits { All (FitsBox costs.now) self.old.rows.items }

        // The lines are the table at the basis, with room for pivots.
        ensures tableau { IsTableau self.new }
        ensures room { HasRoom self.new }

        // It has the new box, at its starting basis, and the rows that it had.
        ensures costs { self.new.costs ≡ costs.now }
        ensures basis { self.new.basis.items ≡ starting costs.now }
        ensures keeps { KeepsTableLines self.old self.new }
    {
        put_bounds(&mut self.costs.low, costs.low.as_slice());
        put_bounds(&mut self.costs.high, costs.high.as_slice());
        put_start(self.basis.as_mut_slice(), costs);
        self.start_lines(costs);
    }

    /// Moves the table to another box, bound by bound; where a step of that is too wide, it is started anew. It takes
    /// no memory.
    pub fn rebase(&mut self, costs: &CostBox)
        // The lines are the table at the basis, the new box is one of its variables, and the rows fit it.
        requires tableau { IsTableau self.old }
        requires room { HasRoom self.old }
        requires ranges { IsBox (length self.old.costs.low) costs.now }
        requires fits { All (FitsBox costs.now) self.old.rows.items }

        // The lines are the table at the basis again, with room for pivots.
        ensures tableau { IsTableau self.new }
        ensures room { HasRoom self.new }

        // The basis keeps its members, or is the starting one where a step of the move is too wide.
        ensures rebased { IsRebased (held_of self.old Open) costs.now (held_of self.new Open) }
    {
        match self.move_bounds(costs) {
            Ok(()) => {}
            Err(_) => self.restart(costs),
        }
    }
}
