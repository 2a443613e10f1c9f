//! Boxes of one point.
ghost use Rattle.std.specs.Prelude.{◌≡◌, pos, ◌≤ℤ◌, length, All, IfOk, IsTrue, OnOk, ◌↔◌};
ghost use Rattle.design_problem.specs.Boxes.{greatest};
ghost use Rattle.form_search.specs.Calls.{AreInStep, Leaves};
ghost use Rattle.form_search.specs.Points.{IsCostsBox};
ghost use Rattle.form_search.specs.NextEntries.{IsNextOfPoint};

use crate::costs_of_points::{low_costs, put_costs};
use crate::desk::Next;
use crate::propagation::{first_negative, refute_by};
use crate::{Asked, FormPool, FormSource};
use area_graph::Point;
use cost_base::OutOfMemory;
use design_problem::CostBox;

/// Whether the box has one point.
pub(crate) fn is_one_point(costs: &CostBox) -> bool
    ensures { IsTrue result ↔ (costs.now.low ≡ costs.now.high) }
{
    costs.low.as_slice() == costs.high.as_slice()
}

/// Asks the source at a box of one point, where each form of the pool is at least 0.
fn ask_there<S: FormSource>(
    source: &mut S,
    pool: &mut FormPool,
    costs: &CostBox,
    point: &mut Point,
) -> Result<Next, OutOfMemory>
    // The source is in step with the pool, whose forms are at least 0 at the one point of the box.
    requires in_step { AreInStep S.FormSource source.old pool.old }
    requires ranges { IsCostsBox (S.count source.old) costs.now }
    requires one { costs.now.low ≡ costs.now.high }
    requires met { All (λ form. pos 0 ≤ℤ greatest form costs.now) pool.old }
    requires places { length point.old.values ≡ S.count source.old }

    // No Split comes next, and the point keeps a value for each variable.
    ensures next { IfOk result (IsNextOfPoint (S.accepted source.old) pool.old pool.new costs.now) }
    ensures places { length point.new.values ≡ length point.old.values }

    // Only true forms came to the pool, and unless memory is wanting the source is in step with it.
    ensures left { Leaves S.FormSource (OnOk result) source.old source.new pool.old pool.new }
{
    put_costs(point, costs);
    match source.ask(point, pool)? {
        Asked::Nothing => Ok(Next::Costs(low_costs(pool.alloc(), costs)?)),
        Asked::Added => Ok(Next::Forms),
    }
}

/// What comes next at a box of one point: a form refutes it, the source accepts it, or new forms come.
pub(crate) fn at_one_point<S: FormSource>(
    source: &mut S,
    pool: &mut FormPool,
    costs: &CostBox,
    point: &mut Point,
) -> Result<Next, OutOfMemory>
    // The source is in step with the pool, and the box of costs has one point.
    requires in_step { AreInStep S.FormSource source.old pool.old }
    requires ranges { IsCostsBox (S.count source.old) costs.now }
    requires one { costs.now.low ≡ costs.now.high }
    requires places { length point.old.values ≡ S.count source.old }

    // No Split comes next, and the point keeps a value for each variable.
    ensures next { IfOk result (IsNextOfPoint (S.accepted source.old) pool.old pool.new costs.now) }
    ensures places { length point.new.values ≡ length point.old.values }

    // Only true forms came to the pool, and unless memory is wanting the source is in step with it.
    ensures left { Leaves S.FormSource (OnOk result) source.old source.new pool.old pool.new }
{
    match first_negative(pool.as_slice(), costs) {
        Some(row) => Ok(Next::Entry(refute_by(pool.alloc(), row)?)),
        None => ask_there(source, pool, costs, point),
    }
}
