//! The lines of the forms of a box at the basis of its low corner, and the room that they take.
ghost use Rattle.std.specs.Prelude.{◌≡◌, ◌<◌, ◌≤◌, pos, length, map, vec_capacity, IfOk};
ghost use Rattle.cost_base.specs.Lists.{numbers_from};
ghost use Rattle.integer_pivots.specs.UnitLines.{unit_line_of};

use crate::line::Line;
use crate::marked::MarkedNumbers;
use crate::turned_line::Turn;
use cost_base::OutOfMemory;
use std::alloc::Global;

/// A list of zeros.
///
/// # Errors
///
/// `OutOfMemory`.
pub fn zeros(alloc: Global, count: usize) -> Result<Vec<i64>, OutOfMemory>
    ensures { IfOk result (λ list. list.items ≡ map (λ place. pos 0) (numbers_from 0 count)) }
{
    Ok(vec![in alloc; 0; count]?)
}

/// Room for so many columns.
///
/// # Errors
///
/// `OutOfMemory`.
pub fn room_of(alloc: Global, width: usize) -> Result<Vec<usize>, OutOfMemory>
    ensures { IfOk result (λ room. width ≤ vec_capacity room) }
{
    Ok(Vec::with_capacity(alloc, width)?)
}

/// Room for the turns of so many lines.
///
/// # Errors
///
/// `OutOfMemory`.
pub fn no_turns(alloc: Global, width: usize) -> Result<Vec<Turn>, OutOfMemory>
    ensures { IfOk result (λ turns. length turns.items ≡ width) }
{
    let unturned = Turn {
        multiplier: 1,
        factor: 0,
    };
    Ok(vec![in alloc; unturned; width]?)
}

/// The line of a form x - low at the starting basis: 1 in its own column.
fn unit_line(alloc: Global, width: usize, var: usize) -> Result<Line, OutOfMemory>
    requires var { var < width }
    ensures { IfOk result (λ line. line ≡ unit_line_of width var) }
{
    let mut numbers = MarkedNumbers::zeros(alloc, width)?;
    numbers.set(var, 1);
    Ok(Line {
        denominator: 1,
        constant: 0,
        numbers,
        reach: 1,
    })
}

/// The lines of the forms x - low.
///
/// # Errors
///
/// `OutOfMemory`.
pub fn unit_lines(alloc: Global, width: usize) -> Result<Vec<Line>, OutOfMemory>
    ensures { IfOk result (λ lines. lines.items ≡ map (unit_line_of width) (numbers_from 0 width)) }
{
    let mut lines = Vec::new(alloc);
    for var in 0..width {
        lines.push(unit_line(alloc, width, var)?)?;
    }
    Ok(lines)
}

/// A line of zeros.
///
/// # Errors
///
/// `OutOfMemory`.
pub fn zero_line(alloc: Global, width: usize) -> Result<Line, OutOfMemory>
    ensures { IfOk result (λ line. length line.numbers ≡ width) }
{
    Ok(Line {
        denominator: 1,
        constant: 0,
        numbers: MarkedNumbers::zeros(alloc, width)?,
        reach: 0,
    })
}

/// The first variable with a number in each column of the forms x - low: its own.
///
/// # Errors
///
/// `OutOfMemory`.
pub fn unit_leads(alloc: Global, width: usize) -> Result<Vec<usize>, OutOfMemory>
    ensures { IfOk result (λ leads. leads.items ≡ numbers_from 0 width) }
{
    let mut leads = Vec::new(alloc);
    for var in 0..width {
        leads.push(var)?;
    }
    Ok(leads)
}
