//! The box of a set of variables that are to keep their present costs.
ghost use Rattle.std.specs.Prelude.{◌≡◌, ◌<◌, length, All, IfOk, Option};
ghost use Rattle.design_problem.specs.Boxes.{IsBox};
ghost use Rattle.design_problem.specs.Answers.{whole_box};
ghost use Rattle.least_change.specs.KeptBoxes.{kept_box, pinned, pinned_if};

use crate::question::Question;
use cost_base::OutOfMemory;
use design_problem::{CostBox, box_at, greatest_of};
use std::alloc::Global;

/// Cuts the range of a variable to one cost.
fn pin(costs: &mut CostBox, var: usize, cost: u16)
    requires low { var < length costs.old.low }
    requires high { var < length costs.old.high }
    ensures { costs.new ≡ pinned costs.old var cost }
{
    costs.low.set(var, cost);
    costs.high.set(var, cost);
}

/// Cuts the range of a variable to its present cost, where it has one.
fn pin_if_any(costs: &mut CostBox, var: usize, present: Option<u16>)
    requires low { var < length costs.old.low }
    requires high { var < length costs.old.high }
    ensures { costs.new ≡ pinned_if costs.old var present }
{
    if let Some(cost) = present {
        pin(costs, var, cost);
    }
}

/// The box at the greatest bound.
fn whole_box(alloc: Global, question: &Question) -> Result<CostBox, OutOfMemory>
    ensures cut { IfOk result (λ costs. costs ≡ whole_box question.now.problem) }
    ensures ranges { IfOk result (λ costs. IsBox (length question.now.problem.low) costs) }
{
    question.keeps_conditions();
    let problem = question.problem();
    let cap = greatest_of(problem.high.as_slice());
    box_at(alloc, problem, cap)
}

/// The box of a set: that at the greatest bound, with the range of each member cut to its present cost.
pub(crate) fn kept_box(
    alloc: Global,
    question: &Question,
    kept: &[u32],
) -> Result<CostBox, OutOfMemory>
    requires { All (λ v. v < length question.now.problem.low) kept.now }
    ensures { IfOk result (λ costs. costs ≡ kept_box question.now.problem question.now.present
        kept.now) }
{
    question.keeps_conditions();
    let present = question.present();
    let mut costs = whole_box(alloc, question)?;
    for var in kept {
        let var = *var as usize;
        pin_if_any(&mut costs, var, present[var]);
    }
    Ok(costs)
}
