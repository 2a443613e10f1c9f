//! Points and costs.
ghost use Rattle.std.specs.Prelude.{◌≡◌, ℕ, ◌*◌, ◌≤◌, ◌<◌, length, slice_index, All, IfOk, IsTrue, ◌↔◌};
ghost use Rattle.area_graph.specs.Costs.{at_costs};
ghost use Rattle.design_problem.specs.Boxes.{IsInBox, IsPointOf};
ghost use Rattle.form_search.specs.Sources.{SameFor, SameSource, scaled};
ghost use Rattle.form_search.specs.Points.{IsCostsBox, IsIntegralPoint};

use crate::FormSource;
use area_graph::Point;
use cost_base::{Listed, OutOfMemory};
use design_problem::{CostBox, CostList};
use std::alloc::Global;

/// A point with a place for each variable.
pub(crate) fn blank_point(alloc: Global, variables: usize) -> Result<Point, OutOfMemory>
    ensures { IfOk result (λ point. length point.values ≡ variables) }
{
    let values = vec![in alloc; 0u128; variables]?;
    Ok(Point {
        scale: 1,
        values: Listed::from_items(values),
    })
}

/// Puts the lower bounds in place as a point of scale 1.
pub(crate) fn put_costs(point: &mut Point, costs: &CostBox)
    requires { length costs.now.low ≡ length point.old.values }
    ensures { point.new ≡ at_costs costs.now.low }
{
    let low = costs.low.as_slice();
    point.scale = 1;
    for var in 0..low.len() {
        point.values.set(var, u128::from(low[var]));
    }
}

/// Whether every value of the point is whole.
pub(crate) fn is_whole(point: &Point) -> bool
    requires { 0 < point.now.scale }
    ensures { IsTrue result ↔ IsIntegralPoint point.now }
{
    let scale = point.scale;
    point.values.as_slice().iter().all(|x| *x % scale == 0)
}

/// The values over the scale.
pub(crate) fn whole_costs(alloc: Global, point: &Point) -> Result<CostList, OutOfMemory>
    requires scale { 0 < point.now.scale }
    requires most { All (λ x. x ≤ 65535 * point.now.scale) point.now.values }
    requires whole { IsIntegralPoint point.now }
    ensures { IfOk result (λ costs. scaled costs point.now.scale ≡ point.now) }
{
    let scale = point.scale;
    let mut costs = Vec::new(alloc);
    for x in point.values.as_slice() {
        costs.push((*x / scale) as u16)?;
    }
    Ok(CostList::from_items(costs))
}

/// The values themselves.
pub(crate) fn value_costs(alloc: Global, point: &Point) -> Result<CostList, OutOfMemory>
    requires { All (λ x. x ≤ 65535) point.now.values }
    ensures { IfOk result (λ costs. costs ≡ point.now.values) }
{
    let mut costs = Vec::new(alloc);
    for x in point.values.as_slice() {
        costs.push(*x as u16)?;
    }
    Ok(CostList::from_items(costs))
}

/// The same bounds, as costs.
pub(crate) fn low_costs(alloc: Global, costs: &CostBox) -> Result<CostList, OutOfMemory>
    ensures { IfOk result (λ list. list ≡ costs.now.low) }
{
    Ok(CostList::from_items(costs.low.as_slice().to_vec(alloc)?))
}

/// Whether each value, not divided by the scale, is at most the upper bound.
fn is_within(values: &[u128], high: &[u16]) -> bool
    requires { length values.now ≡ length high.now }
    ensures { IsTrue result → (k : ℕ) → k < length high.now → slice_index values.now k ≤
        slice_index high.now k }
{
    values
        .iter()
        .zip(high)
        .all(|(x, bound)| *x <= u128::from(*bound))
}

/// Whether the values, not divided by the scale, lie in the box and are accepted as costs. The point stays as it was.
pub(crate) fn are_values_accepted<S: FormSource>(
    source: &mut S,
    costs: &CostBox,
    point: &mut Point,
) -> bool
    // The point lies in a box of costs from 1 on.
    requires ranges { IsCostsBox (S.count source.old) costs.now }
    requires inside { IsPointOf costs.now point.old }

    // On true the values themselves are costs of the box, and the source accepts them.
    ensures within { IsTrue result → IsInBox costs.now point.old.values }
    ensures accepted { IsTrue result → S.accepted source.old (at_costs point.old.values) }

    // The point is as before, and the source accepts the same points with the same forms.
    ensures point { point.new ≡ point.old }
    ensures in_step { SameFor (S.in_step source.old) (S.in_step source.new) }
    ensures same { SameSource S.count S.accepted S.true_form S.possible_forms source.old
        source.new }
{
    if !is_within(point.values.as_slice(), costs.high.as_slice()) {
        return false;
    }
    let scale = point.scale;
    point.scale = 1;
    let accepted = source.accepts(point);
    point.scale = scale;
    accepted
}
