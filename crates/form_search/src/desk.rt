//! The desk: what is kept from box to box; and what may come next at a box.
ghost use Rattle.std.specs.Prelude.{◌≡◌, ◌≢◌, ℕ, ◌^◌, ◌<◌, ◌≤◌, length, slice_index, IfOk};
ghost use Rattle.design_problem.specs.Boxes.{IsBox};
ghost use Rattle.design_problem.specs.declared.tree.Entry.TheVariants.{Halve};
ghost use Rattle.design_problem.specs.Trees.{CutsAt};
ghost use Rattle.form_search.specs.NextEntries.{IsDesk};

use crate::costs_of_points::blank_point;
use crate::watch::Watch;
use area_graph::Point;
use cost_base::OutOfMemory;
use design_problem::{CostBox, CostList, Entry, WideAt};
use std::alloc::Global;
use wide_fraction::Top;

/// What comes next at a box.
#[derive(Drop)]
pub(crate) enum Next {
    /// Forms came into the pool.
    Forms,
    /// Costs of the box are accepted.
    Costs(CostList),
    /// An entry of the tree.
    Entry(Entry),
}

/// What is kept from box to box.
#[derive(Drop)]
pub(crate) struct Desk {
    /// The forms that may say something.
    pub(crate) watch: Watch,
    /// The point that is asked, with a place for each variable.
    pub(crate) point: Point,
    /// The size of the numbers that a step may need.
    pub(crate) top: Top,
}

impl Desk {
    /// At the first box.
    pub(crate) fn start(alloc: Global, costs: &CostBox, top: Top) -> Result<Desk, OutOfMemory>
        requires { length costs.now.high ≡ length costs.now.low }
        ensures { IfOk result (IsDesk top (length costs.now.low)) }
    {
        Ok(Desk {
            watch: Watch::start(alloc, costs)?,
            point: blank_point(alloc, costs.low.as_slice().len())?,
            top,
        })
    }
}

/// The first variable with the greatest range.
fn widest(costs: &CostBox) -> usize
    requires ranges { IsBox (length costs.now.low) costs.now }
    requires wide { costs.now.low ≢ costs.now.high }
    ensures known { result < length costs.now.low }
    ensures wide { slice_index costs.now.low result < slice_index costs.now.high result }
{
    let low = costs.low.as_slice();
    let high = costs.high.as_slice();
    let mut widest = 0;
    let mut width = 0;
    for var in 0..low.len() {
        // For the prover alone: in a box low is at most high, so nothing saturates; a plain `-` would need that here.
        let range = high[var].saturating_sub(low[var]);
        if width < range {
            widest = var;
            width = range;
        }
    }
    widest
}

/// The Halve at the first variable with the greatest range.
pub(crate) fn halved(costs: &CostBox, wide: WideAt) -> Entry
    requires ranges { IsBox (length costs.now.low) costs.now }
    requires few { length costs.now.low < 2 ^ 32 }
    requires more { costs.now.low ≢ costs.now.high }
    ensures { (var value : ℕ) × (result ≡ Halve var value wide) × CutsAt costs.now var value }
{
    let var = widest(costs);
    let low = costs.low.as_slice()[var];
    let high = costs.high.as_slice()[var];
    Entry::Halve {
        var: var as u32,
        value: low + (high - low) / 2,
        wide,
    }
}
