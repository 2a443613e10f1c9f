//! Costs as points.
ghost use Rattle.std.specs.Prelude.{◌≡◌, [], IfOk};
ghost use Rattle.area_graph.specs.Costs.{at_costs};

use crate::Point;
use cost_base::{Listed, OutOfMemory};
use std::alloc::Global;

/// Costs as a point of scale 1.
///
/// # Errors
///
/// `OutOfMemory`.
pub fn point_of(alloc: Global, costs: &[u16]) -> Result<Point, OutOfMemory>
    ensures { IfOk result (λ point. point ≡ at_costs costs.now) }
{
    let mut values = Vec::new(alloc);
    for cost in costs {
        values.push(u128::from(*cost))?;
    }
    Ok(Point {
        scale: 1,
        values: Listed::from_items(values),
    })
}

/// The point of scale 1 without values, for a graph whose edges have fixed prices alone. Takes no memory.
pub fn empty_point(alloc: Global) -> Point
    ensures { result ≡ at_costs [] }
{
    Point {
        scale: 1,
        values: Listed::new(alloc),
    }
}
