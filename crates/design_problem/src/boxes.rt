//! Boxes of costs, and the box of a problem at a cap.
ghost use Rattle.std.specs.Prelude.{◌≡◌, ℕ, ◌≤◌, length, min, map, All, IfOk};
ghost use Rattle.design_problem.specs.Boxes.{IsBox, capped};
ghost use Rattle.design_problem.specs.Rows.{box_of};

use crate::Problem;
use cost_base::{Listed, OutOfMemory};
use std::alloc::Global;

/// A range for each variable, from `low` to `high`, both ends included.
///
/// A box is never empty on a variable. The type doesn't keep that, since a box is cut at one end after the other;
/// each call that makes or takes a box says it (`IsBox`).
#[derive(Drop)]
pub struct CostBox {
    pub low: Listed<u16>,
    pub high: Listed<u16>,
}

impl CostBox {
    /// An equal box.
    ///
    /// # Errors
    ///
    /// `OutOfMemory`.
    pub fn copy(&self, alloc: Global) -> Result<CostBox, OutOfMemory>
        ensures { IfOk result (λ copy. copy ≡ self.now) }
    {
        Ok(CostBox {
            low: self.low.copy(alloc)?,
            high: self.high.copy(alloc)?,
        })
    }
}

/// Each number, or the cap where the number is above it.
fn cut_to(alloc: Global, numbers: &[u16], cap: u16) -> Result<Vec<u16>, OutOfMemory>
    ensures { IfOk result (λ cut. cut.items ≡ map (λ n. min n cap) numbers.now) }
{
    numbers
        .iter()
        .map(|n| (*n).min(cap))
        .collect(alloc)
        .map_err(|_| OutOfMemory)
}

/// The box of these bounds at a cap: each upper bound is the lesser of itself and the cap.
///
/// # Errors
///
/// `OutOfMemory`.
pub fn capped_box(
    alloc: Global,
    low: &[u16],
    high: &[u16],
    cap: u16,
) -> Result<CostBox, OutOfMemory>
    ensures { IfOk result (λ costs. costs ≡ capped (record { low = low.now; high = high.now })
        cap) }
{
    let low = Listed::from_slice(alloc, low)?;
    let high = cut_to(alloc, high, cap)?;
    Ok(CostBox {
        low,
        high: Listed::from_items(high),
    })
}

/// The box of the problem at a cap.
///
/// # Errors
///
/// `OutOfMemory`.
pub fn box_at(alloc: Global, problem: &Problem, cap: u16) -> Result<CostBox, OutOfMemory>
    requires { All (λ low. low ≤ cap) problem.now.low }
    ensures cut { IfOk result (λ costs. costs ≡ capped (box_of problem.now) cap) }
    ensures ranges { IfOk result (λ costs. IsBox (length problem.now.low) costs) }
{
    let costs = capped_box(alloc, problem.low.as_slice(), problem.high.as_slice(), cap)?;
    Ok(costs)
}
