//! The starting basis of a box, and its table.
ghost use Rattle.std.specs.Prelude.{◌≡◌, ℕ, suc, ◌^◌, ◌<◌, ◌≤◌, ◌++◌, [], ◌∷◌, pos, negsuc, ◌-ℤ◌, nat_abs, length, map, slice_index, IfOk, OnOk};
ghost use Rattle.cost_base.specs.Lists.{numbers_from};
ghost use Rattle.whole_numbers.specs.Fractions.{whole};
ghost use Rattle.design_problem.specs.declared.tree.Member.TheVariants.{Low};
ghost use Rattle.design_problem.specs.Basis.{unit};
ghost use Rattle.design_problem.specs.Boxes.{IsBox};
ghost use Rattle.fraction_lines.specs.TableLines.{AreTableNumbers};
ghost use Rattle.fraction_lines.specs.Turns.{AreTableLines};
ghost use Rattle.fraction_table.specs.declared.stage.Stage.TheVariants.{Open};
ghost use Rattle.fraction_table.specs.Tableaus.{starting};
ghost use Rattle.fraction_table.specs.ValidTables.{IsSound, held_of, members_of_box, starting_line};

use crate::table::Table;
use cost_base::{OutOfMemory, push_last};
use design_problem::{CostBox, Member};
use fraction_lines::TableLine;
use std::alloc::Global;
use wide_fraction::{Frac, Top};

/// The forms x - low, by the lower bounds.
pub fn starting_basis(alloc: Global, low: &[u16]) -> Result<Vec<Member>, OutOfMemory>
    requires few { length low.now < 2 ^ 32 }
    ensures { IfOk result (λ basis. basis.items ≡ map (λ v. Low v (slice_index low.now v))
        (numbers_from 0 (length low.now))) }
{
    let mut basis = Vec::new(alloc);
    for (var, bound) in low.iter().enumerate() {
        basis.push(Member::Low(var as u32, *bound))?;
    }
    Ok(basis)
}

/// A form with one coefficient.
#[derive(Clone, Copy)]
pub struct UnitForm {
    /// Its variable.
    pub var: u32,
    /// Its constant.
    pub constant: i64,
    /// The coefficient of its variable.
    pub coefficient: i64,
}

/// Makes the line the starting one of a form with one coefficient: its constant there, and the coefficient in its
/// column.
pub fn put_unit_line(line: &mut TableLine, width: u32, form: UnitForm, top: Top)
    // The line has a column for the form's variable.
    requires width { length line.old ≡ suc width }
    requires var { form.var < width }

    // Constant and coefficient are below 2^27 in size.
    requires constant_small { nat_abs form.constant < 2 ^ 27 }
    requires coefficient_small { nat_abs form.coefficient < 2 ^ 27 }

    // The line has the form's constant, its coefficient in the variable's column, and 0 elsewhere.
    ensures line { line.new ≡ whole form.constant ∷ map whole
        (unit width form.var form.coefficient) }
    ensures numbers { AreTableNumbers top line.new }
{
    // For the prover: that `top` has at least 28 bits, so that the line is within it, is known once it is read.
    let _ = top.value();
    line.clear();
    line.set_constant(Frac::whole(form.constant));
    line.push(form.var, Frac::whole(form.coefficient));
}

/// The starting line of a form with one coefficient: its constant there, and the coefficient in its column.
fn bound_line(alloc: Global, width: u32, form: UnitForm, top: Top) -> Result<TableLine, OutOfMemory>
    requires var { form.var < width }
    requires constant_small { nat_abs form.constant < 2 ^ 27 }
    requires coefficient_small { nat_abs form.coefficient < 2 ^ 27 }
    ensures line { IfOk result (λ line. line ≡ whole form.constant ∷
        map whole (unit width form.var form.coefficient)) }
    ensures numbers { IfOk result (λ line. AreTableNumbers top line) }
{
    let mut line = TableLine::zero(alloc, width)?;
    put_unit_line(&mut line, width, form, top);
    Ok(line)
}

/// Puts the lines of x - low for each of so many variables.
fn push_low_lines(
    alloc: Global,
    width: u32,
    lines: &mut Vec<TableLine>,
    top: Top,
) -> Result<(), OutOfMemory>
    requires numbers { AreTableLines top (suc width) lines.old.items }
    ensures lines { OnOk result (lines.new.items ≡ lines.old.items ++
        map (λ v. whole (pos 0) ∷ map whole (unit width v (pos 1))) (numbers_from 0 width)) }
    ensures numbers { OnOk result (AreTableLines top (suc width) lines.new.items) }
{
    for var in 0..width {
        let form = UnitForm {
            var,
            constant: 0,
            coefficient: 1,
        };
        push_last(lines, bound_line(alloc, width, form, top)?)?;
    }
    Ok(())
}

/// How far the upper bound is above the lower one.
pub fn range_of(low: u16, high: u16) -> i64
    ensures range { result ≡ (pos high -ℤ pos low) }
    ensures small { nat_abs result < 2 ^ 27 }
{
    i64::from(high) - i64::from(low)
}

/// Puts the lines of high - x for each variable.
fn push_high_lines(
    alloc: Global,
    low: &[u16],
    high: &[u16],
    lines: &mut Vec<TableLine>,
    top: Top,
) -> Result<(), OutOfMemory>
    requires same { length high.now ≡ length low.now }
    requires few { length low.now < 2 ^ 32 }
    requires numbers { AreTableLines top (suc (length low.now)) lines.old.items }
    ensures lines { OnOk result (lines.new.items ≡ lines.old.items ++
        map (λ v. whole (pos (slice_index high.now v) -ℤ pos (slice_index low.now v)) ∷
        map whole (unit (length low.now) v (negsuc 0))) (numbers_from 0 (length low.now))) }
    ensures numbers { OnOk result (AreTableLines top (suc (length low.now)) lines.new.items) }
{
    let width = low.len() as u32;
    for var in 0..width {
        let range = range_of(low[var as usize], high[var as usize]);
        let form = UnitForm {
            var,
            constant: range,
            coefficient: -1,
        };
        push_last(lines, bound_line(alloc, width, form, top)?)?;
    }
    Ok(())
}

/// The lines of the box at the starting basis.
pub fn box_lines(alloc: Global, costs: &CostBox, top: Top) -> Result<Vec<TableLine>, OutOfMemory>
    requires ranges { IsBox (length costs.now.low) costs.now }
    requires few { length costs.now.low < 2 ^ 32 }
    ensures lines { IfOk result (λ lines. lines.items ≡ map (starting_line costs.now [])
        (members_of_box costs.now 0)) }
    ensures numbers { IfOk result (λ lines. AreTableLines top (suc (length costs.now.low))
        lines.items) }
{
    let low = costs.low.as_slice();
    let mut lines = Vec::new(alloc);
    push_low_lines(alloc, low.len() as u32, &mut lines, top)?;
    push_high_lines(alloc, low, costs.high.as_slice(), &mut lines, top)?;
    Ok(lines)
}

/// The table of a box without rows, at the basis of the forms x - low.
///
/// # Errors
///
/// `OutOfMemory`.
pub fn starting_table(alloc: Global, costs: &CostBox, top: Top) -> Result<Table, OutOfMemory>
    requires ranges { IsBox (length costs.now.low) costs.now }
    requires few { length costs.now.low < 2 ^ 32 }
    ensures held { IfOk result (λ table. held_of table Open ≡ record
        { top = top; costs = costs.now; rows = []; basis = starting costs.now; stage = Open }) }
    ensures sound { IfOk result (λ table. IsSound table Open) }
{
    let width = costs.low.as_slice().len() as u32;
    let lines = box_lines(alloc, costs, top)?;
    Ok(Table {
        top,
        costs: costs.copy(alloc)?,
        rows: Vec::new(alloc),
        basis: starting_basis(alloc, costs.low.as_slice())?,
        lines,
        quotients: TableLine::zero(alloc, width)?,
        scratch: TableLine::zero(alloc, width)?,
    })
}
