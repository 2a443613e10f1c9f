//! The kernel of a box without rows.
ghost use Rattle.std.specs.Prelude.{◌≡◌, ◌^◌, ◌<◌, ◌≤◌, ◌++◌, [], pos, ◌-ℤ◌, length, map, slice_index, vec_capacity, IfOk};
ghost use Rattle.cost_base.specs.Lists.{numbers_from};
ghost use Rattle.design_problem.specs.Boxes.{IsBox};
ghost use Rattle.fraction_table.specs.declared.stage.Stage.TheVariants.{Open};
ghost use Rattle.fraction_table.specs.Tableaus.{starting};
ghost use Rattle.fraction_table.specs.ValidTables.{IsSound, held_of};
ghost use Rattle.integer_pivots.specs.Numbers.{AllWithin};
ghost use Rattle.integer_pivots.specs.UnitLines.{unit_line_of};
ghost use Rattle.integer_pivots.specs.Uses.{uses_in};
ghost use Rattle.table_kernel.specs.Kernels.{IsKernel};
ghost use Rattle.table_kernel.specs.ReadBack.{IsParked};

use crate::Kernel;
use cost_base::OutOfMemory;
use design_problem::CostBox;
use fraction_table::{range_of, starting_table};
use integer_pivots::{
    Line, Turn, Use, empty_uses, no_turns, room_of, unit_leads, unit_lines, zero_line, zeros,
};
use std::alloc::Global;
use wide_fraction::Top;

/// The constants of the forms x - low and high - x at the low corner.
fn bound_constants(alloc: Global, costs: &CostBox) -> Result<Vec<i64>, OutOfMemory>
    requires ranges { IsBox (length costs.now.low) costs.now }
    ensures constants { IfOk result (λ constants. constants.items ≡
        map (λ var. pos 0) (numbers_from 0 (length costs.now.low)) ++
        map (λ var. pos (slice_index costs.now.high var) -ℤ pos (slice_index costs.now.low var))
        (numbers_from 0 (length costs.now.low))) }
    ensures small { IfOk result (λ constants. AllWithin (2 ^ 27) constants.items) }
{
    let low = costs.low.as_slice();
    let high = costs.high.as_slice();
    let mut constants = zeros(alloc, low.len())?;
    for var in 0..low.len() {
        constants.push(range_of(low[var], high[var]))?;
    }
    Ok(constants)
}

/// The lines of the forms x - low, the first variable with a number in each column, and the constants of all forms.
fn numbers_of(
    alloc: Global,
    costs: &CostBox,
) -> Result<(Vec<Line>, Vec<usize>, Vec<i64>), OutOfMemory>
    requires ranges { IsBox (length costs.now.low) costs.now }
    ensures lows { IfOk result (λ made. made.0.items ≡ map (unit_line_of (length costs.now.low))
        (numbers_from 0 (length costs.now.low))) }
    ensures leads { IfOk result (λ made. made.1.items ≡ numbers_from 0 (length costs.now.low)) }
    ensures constants { IfOk result (λ made. made.2.items ≡
        map (λ var. pos 0) (numbers_from 0 (length costs.now.low)) ++
        map (λ var. pos (slice_index costs.now.high var) -ℤ pos (slice_index costs.now.low var))
        (numbers_from 0 (length costs.now.low))) }
    ensures small { IfOk result (λ made. AllWithin (2 ^ 27) made.2.items) }
{
    let width = costs.low.as_slice().len();
    let lows = unit_lines(alloc, width)?;
    let leads = unit_leads(alloc, width)?;
    Ok((lows, leads, bound_constants(alloc, costs)?))
}

/// The uses of no rows, and room for turns, for columns and for the line of an entering form.
fn rooms_of(
    alloc: Global,
    width: usize,
) -> Result<(Vec<Vec<Use>>, Vec<Turn>, Vec<usize>, Line), OutOfMemory>
    ensures uses { IfOk result (λ room. uses_in room.0.items ≡
        map (λ var. []) (numbers_from 0 width)) }
    ensures turns { IfOk result (λ room. length room.1.items ≡ width) }
    ensures left { IfOk result (λ room. width ≤ vec_capacity room.2) }
    ensures entering { IfOk result (λ room. length room.3.numbers ≡ width) }
{
    let uses = empty_uses(alloc, width)?;
    let turns = no_turns(alloc, width)?;
    let left = room_of(alloc, width)?;
    Ok((uses, turns, left, zero_line(alloc, width)?))
}

/// The kernel of a box without rows, at the basis of the forms x - low. Its table has that basis, too. The numbers are
/// within the kernel's bounds where the greatest number of the table is at least 2^126.
///
/// # Errors
///
/// `OutOfMemory`.
pub fn starting_kernel(alloc: Global, costs: &CostBox, top: Top) -> Result<Kernel, OutOfMemory>
    // The box has a range for each variable, and 32 bits number them.
    requires ranges { IsBox (length costs.now.low) costs.now }
    requires few { length costs.now.low < 2 ^ 32 }

    // It holds an open table without rows at the basis of the forms x - low. Its constants are
    // within the kernel's bounds, and all its numbers where the table's greatest number is wide.
    ensures held { IfOk result (λ kernel. held_of kernel.table Open ≡
        record {
          top = top;
          costs = costs.now;
          rows = [];
          basis = starting costs.now;
          stage = Open;
        }) }
    ensures sound { IfOk result (λ kernel. IsSound kernel.table Open) }
    ensures kernel { IfOk result (λ kernel. 2 ^ 126 ≤ top → IsKernel kernel) }
    ensures parked { IfOk result IsParked }
{
    let (lows, leads, constants) = numbers_of(alloc, costs)?;
    let (uses, turns, left, entering) = rooms_of(alloc, costs.low.as_slice().len())?;
    Ok(Kernel {
        table: starting_table(alloc, costs, top)?,
        common: 1,
        lows,
        leads,
        constants,
        uses,
        turns,
        left,
        entering,
    })
}
