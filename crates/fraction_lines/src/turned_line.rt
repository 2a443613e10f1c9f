//! One line's part in a pivot.
ghost use Rattle.std.specs.Prelude.{◌≡◌, ◌≢◌, suc, ◌<◌, length, map, pos, IfErr, IfOk, OnOk};
ghost use Rattle.design_problem.specs.Basis.{entry};
ghost use Rattle.fraction_lines.specs.TableLines.{AreTableNumbers, IsWideStep};
ghost use Rattle.fraction_lines.specs.Turns.{AreTableLines, IsPivotDivided, IsQuotientStepOf, IsTurnStep, TurnsLines, TurnsWide, turned_by};

use crate::table_line::TableLine;
use std::mem;
use wide_fraction::{Frac, Top, Wide, div, mul};

/// The pivot's column, and the inverse of the pivot's line's entry there.
#[derive(Clone, Copy)]
pub struct PivotColumn {
    /// The column.
    pub column: u32,
    /// 1 over the entry there.
    pub inverse: Frac,
}

/// Turns a line at the pivot's column, by the quotients of the pivot's line, which have 0 there, and the inverse of its
/// entry there. The steps are taken by the places, the constant first, and the pivot's column last; none is taken
/// where the line has 0 in that column. `scratch` is a line of the same width, in which the new line is made.
///
/// # Errors
///
/// `Wide` where one of these steps makes a whole number that passes `top`. Then the line is as before.
pub(crate) fn turn_line(
    line: &mut TableLine,
    pivot: &PivotColumn,
    quotients: &TableLine,
    scratch: &mut TableLine,
    top: Top,
) -> Result<(), Wide>
    // Both lines have the width of the pivot's quotients, and the pivot's column is within it.
    requires pivot { TurnsLines top (length line.old) (suc pivot.now.column) quotients.now
        pivot.now.inverse }
    requires scratch { length scratch.old ≡ length line.old }
    requires numbers { AreTableNumbers top line.old }

    // On Ok the line is turned, and its numbers are those of the table.
    ensures turned { OnOk result (line.new ≡ turned_by line.old quotients.now (suc pivot.now.column)
        pivot.now.inverse) }
    ensures numbers { OnOk result (AreTableNumbers top line.new) }

    // In any case both lines keep their width.
    ensures width { length line.new ≡ length line.old }
    ensures scratch_width { length scratch.new ≡ length scratch.old }

    // On Err the step is one of the turn, and makes a number that passes the top.
    ensures wide { IfErr result
        (λ wide. IsWideStep top (IsTurnStep line.old quotients.now (suc pivot.now.column)
        pivot.now.inverse) wide.step wide.left wide.right) }
{
    if line.lacks(pivot.column) {
        return Ok(());
    }
    let own = line.entry(pivot.column);
    if own.is_zero() {
        return Ok(());
    }
    line.cross(own, quotients, scratch, top)?;
    let entered = mul(own, pivot.inverse, top)?;
    scratch.replace(pivot.column, entered);
    mem::swap(line, scratch);
    Ok(())
}

/// Makes the quotients of the pivot's line by its entry at the pivot's column, with 0 at that column, and gives the
/// inverse of that entry. The steps are taken by the places, the constant first, and the inverse last.
///
/// # Errors
///
/// `Wide` where one of these steps makes a whole number that passes `top`.
pub fn take_quotients(
    line: &TableLine,
    column: u32,
    quotients: &mut TableLine,
    top: Top,
) -> Result<Frac, Wide>
    // The line's entry in the column isn't 0, and `quotients` is as wide as the line.
    requires column { suc column < length line.now }
    requires width { length quotients.old ≡ length line.now }
    requires numbers { AreTableNumbers top line.now }
    requires not_zero { (entry line.now (suc column)).numerator ≢ pos 0 }

    // On Ok the quotients and the inverse are exact; the width stays in any case.
    ensures divided { IfOk result (IsPivotDivided top (suc column) line.now quotients.new) }
    ensures width { length quotients.new ≡ length quotients.old }

    // On Err the step makes a quotient or the inverse, and a number of it passes the top.
    ensures wide { IfErr result (λ wide. IsWideStep top (IsQuotientStepOf line.now (suc column))
        wide.step wide.left wide.right) }
{
    let divisor = line.entry(column);
    line.divide(divisor, column, quotients, top)?;
    div(Frac::whole(1), divisor, top)
}

/// Turns each line in order, as `turn_line` does.
///
/// # Errors
///
/// `Wide` where a step of some line makes a whole number that passes `top`.
pub fn turn_lines(
    lines: &mut [TableLine],
    pivot: &PivotColumn,
    quotients: &TableLine,
    scratch: &mut TableLine,
    top: Top,
) -> Result<(), Wide>
    // The lines have the width of the pivot's quotients, and the pivot's column is within it.
    requires pivot { TurnsLines top (length quotients.now) (suc pivot.now.column) quotients.now
        pivot.now.inverse }
    requires lines { AreTableLines top (length quotients.now) lines.old }
    requires scratch { length scratch.old ≡ length quotients.now }

    // On Ok each line is turned, into numbers of the table; `scratch` keeps its width in any case.
    ensures turned { OnOk result
        (lines.new ≡ map (λ fs. turned_by fs quotients.now (suc pivot.now.column) pivot.now.inverse)
        lines.old) }
    ensures numbers { OnOk result (AreTableLines top (length quotients.now) lines.new) }
    ensures scratch_width { length scratch.new ≡ length scratch.old }

    // On Err the step turns some line, and makes a number that passes the top.
    ensures wide { IfErr result (λ wide. TurnsWide top lines.old quotients.now (suc pivot.now.column)
        pivot.now.inverse wide.step wide.left wide.right) }
{
    for line in lines.iter_mut() {
        turn_line(line, pivot, quotients, scratch, top)?;
    }
    Ok(())
}
