//! The tests of an optimal answer in their order, each with its refusal: that its lines name the free interfaces, that
//! its costs are of one variable each and within the bounds, its greatest cost, its wanted paths, and its floor.
ghost use Rattle.evidence_checker.specs.declared.fault.CheckFault.TheVariants.{FalseFloor, NotOnlyCheapest, OutOfBounds, UnequalEnds, WrongGreatest};
ghost use Rattle.evidence_checker.specs.declared.fault.CheckFault.TheVariants.{WrongPlaces};
ghost use Rattle.evidence_checker.specs.Numbers.{check_fault_number};
ghost use Rattle.std.specs.Prelude.{◌≡◌, ℕ, ◌≤◌, [], ◌∷◌, length, All, IfOk, IfErr};
ghost use Rattle.design_problem.specs.Answers.{CostLinesOf, GivesCosts};
ghost use Rattle.design_problem.specs.Boxes.{IsInBox};
ghost use Rattle.design_problem.specs.GivenCosts.{costs_given};
ghost use Rattle.design_problem.specs.Rows.{box_of, greatest_cost};
ghost use Rattle.design_problem.specs.declared.answer.Verdict.TheVariants.{Optimal};
ghost use Rattle.evidence_checker.specs.Costs.{IsOnlyAt};
ghost use Rattle.evidence_checker.specs.Refusals.{AtNoPlace, AtFirst, StopsBy};
ghost use Rattle.evidence_checker.specs.Tests.{NamesPlaces, HasUnequalEnds, IsOutside, HasWrongGreatest, IsNotOnly, IsFalseFloor, cost_tests};

use crate::CheckFault;
use crate::costs::{first_outside, first_unequal, names_places};
use crate::paths::first_not_only;
use crate::problem_parts::{high_of, low_of, names_of};
use crate::shape::is_false_floor;
use cost_base::{OutOfMemory, Refusal};
use design_problem::{CostLine, Costs, Floor, Problem, costs_given, greatest_of};
use std::alloc::Global;

/// Tests that the lines name the free interfaces, each once, in their order.
fn check_places(problem: &Problem, lines: &[CostLine]) -> Result<(), Refusal<CheckFault, u64>>
    ensures named { IfOk result (λ _. NamesPlaces problem.now.vars lines.now) }
    ensures first { IfErr result
        (StopsBy (AtNoPlace (check_fault_number WrongPlaces)
        (NamesPlaces problem.now.vars lines.now → ⊥) ∷ [])) }
{
    if names_places(names_of(problem), lines) {
        return Ok(());
    }
    Err(Refusal::at(0, CheckFault::WrongPlaces))
}

/// The costs that the lines give the variables.
fn given(alloc: Global, problem: &Problem, lines: &[CostLine]) -> Result<Vec<u16>, OutOfMemory>
    requires { NamesPlaces problem.now.vars lines.now }
    ensures { IfOk result (λ costs. costs.items ≡ costs_given problem.now lines.now) }
{
    problem.keeps_conditions();
    costs_given(alloc, low_of(problem).len(), names_of(problem), lines)
}

/// Tests that the lines of one variable have one cost.
fn check_ends(
    problem: &Problem,
    lines: &[CostLine],
    costs: &[u16],
) -> Result<(), Refusal<CheckFault, u64>>
    requires named { NamesPlaces problem.now.vars lines.now }
    requires given { costs.now ≡ costs_given problem.now lines.now }
    ensures names { IfOk result (λ _. CostLinesOf costs.now problem.now.vars lines.now) }
    ensures first { IfErr result
        (StopsBy
        (AtFirst (check_fault_number UnequalEnds) (HasUnequalEnds problem.now.vars lines.now) ∷
        [])) }
{
    problem.keeps_conditions();
    match first_unequal(names_of(problem), lines, costs) {
        Some(var) => Err(Refusal::at(u64::from(var), CheckFault::UnequalEnds)),
        None => Ok(()),
    }
}

/// Tests that each cost is within the bounds of its variable.
fn check_bounds(problem: &Problem, costs: &[u16]) -> Result<(), Refusal<CheckFault, u64>>
    requires { length costs.now ≡ length problem.now.low }
    ensures within { IfOk result (λ _. IsInBox (box_of problem.now) costs.now) }
    ensures first { IfErr result
        (StopsBy
        (AtFirst (check_fault_number OutOfBounds)
        (IsOutside problem.now.low problem.now.high costs.now) ∷ [])) }
{
    problem.keeps_conditions();
    match first_outside(low_of(problem), high_of(problem), costs) {
        Some(var) => Err(Refusal::at(u64::from(var), CheckFault::OutOfBounds)),
        None => Ok(()),
    }
}

/// Tests that the claimed, the printed and the true greatest cost are one number.
fn check_greatest(
    greatest: u16,
    printed: u16,
    costs: &[u16],
) -> Result<(), Refusal<CheckFault, u64>>
    ensures same { IfOk result (λ _. (printed ≡ greatest) × (greatest_cost costs.now ≡ greatest)) }
    ensures first { IfErr result
        (StopsBy (AtNoPlace (check_fault_number WrongGreatest)
        (HasWrongGreatest greatest printed costs.now) ∷ [])) }
{
    if printed == greatest && greatest_of(costs) == greatest {
        return Ok(());
    }
    Err(Refusal::at(0, CheckFault::WrongGreatest))
}

/// Tests that each wanted path is the only cheapest among the simple paths of its request.
fn check_paths(
    alloc: Global,
    problem: &Problem,
    costs: &[u16],
) -> Result<(), Refusal<CheckFault, u64>>
    requires { IsInBox (box_of problem.now) costs.now }
    ensures only { IfOk result (λ _. All (IsOnlyAt problem.now.graph costs.now)
        problem.now.requests) }
    ensures first { IfErr result
        (StopsBy (AtFirst (check_fault_number NotOnlyCheapest) (IsNotOnly problem.now costs.now) ∷
        [])) }
{
    match first_not_only(alloc, &problem.graph, problem.requests.as_slice(), costs)? {
        Some(place) => Err(Refusal::at(place, CheckFault::NotOnlyCheapest)),
        None => Ok(()),
    }
}

/// Tests the floor.
fn check_floor(
    problem: &Problem,
    greatest: u16,
    floor: Floor,
) -> Result<(), Refusal<CheckFault, u64>>
    ensures true_floor { IfOk result (λ _. IsFalseFloor problem.now greatest floor → ⊥) }
    ensures first { IfErr result
        (StopsBy (AtNoPlace (check_fault_number FalseFloor)
        (IsFalseFloor problem.now greatest floor) ∷ [])) }
{
    if is_false_floor(problem, greatest, floor) {
        return Err(Refusal::at(0, CheckFault::FalseFloor));
    }
    Ok(())
}

/// Tests the costs and the floor of an optimal answer.
pub(crate) fn check_costs(
    alloc: Global,
    problem: &Problem,
    greatest: u16,
    costs: &Costs,
    floor: Floor,
) -> Result<(), Refusal<CheckFault, u64>>
    ensures gives { IfOk result (λ _. GivesCosts problem.now greatest costs.now) }
    ensures true_floor { IfOk result (λ _. IsFalseFloor problem.now greatest floor → ⊥) }
    ensures first { IfErr result
        (StopsBy (cost_tests problem.now (Optimal greatest) (Some costs.now) floor)) }
{
    let lines = costs.lines.as_slice();
    check_places(problem, lines)?;
    let given = given(alloc, problem, lines)?;
    let values = given.as_slice();
    check_ends(problem, lines, values)?;
    check_bounds(problem, values)?;
    check_greatest(greatest, costs.greatest, values)?;
    check_paths(alloc, problem, values)?;
    check_floor(problem, greatest, floor)
}
