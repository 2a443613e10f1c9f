//! The checker.
ghost use Rattle.evidence_checker.specs.declared.fault.CheckFault.TheVariants.{WrongShape};
ghost use Rattle.evidence_checker.specs.Numbers.{check_fault_number};
ghost use Rattle.std.specs.Prelude.{◌≡◌, [], ◌∷◌, All, IfOk, IfErr};
ghost use Rattle.std.specs.Option.{option_copied};
ghost use Rattle.design_problem.specs.Answers.{IsValid};
ghost use Rattle.design_problem.specs.ProblemLaws.{IsTrueVerdict};
ghost use Rattle.design_problem.specs.Rows.{IsRow};
ghost use Rattle.evidence_checker.specs.Laws.{IsAcceptedAs, RefusesInvalid, CostsHold, ProofHolds};
ghost use Rattle.evidence_checker.specs.Refusals.{AtNoPlace, AtFirstItem, StopsBy};
ghost use Rattle.evidence_checker.specs.Tests.{ShapeOfClaim, HasWrongShape, cost_tests, row_tests, proof_tests, tests};

use crate::cost_tests::check_costs;
use crate::problem_parts::{high_of, low_of};
use crate::rows::forms_of;
use crate::shape::{claimed, fits_claim};
use crate::tree::check_cap_tree;
use crate::{Accepted, CheckFault};
use cost_base::Refusal;
use design_problem::{Answer, CapTree, Costs, Floor, Problem, Row, Verdict};
use std::alloc::Global;

/// Tests that an answer has the parts that its verdict needs, and no others.
fn check_shape(problem: &Problem, answer: &Answer) -> Result<(), Refusal<CheckFault, u64>>
    ensures shape { IfOk result (λ _. ShapeOfClaim problem.now answer.now.verdict answer.now.costs
        answer.now.floor answer.now.proof × (answer.now.undecided ≡ None)) }
    ensures first { IfErr result
        (StopsBy (AtNoPlace (check_fault_number WrongShape) (HasWrongShape problem.now answer.now) ∷
        [])) }
{
    let costs = answer.costs.as_ref();
    let proof = answer.proof.as_ref();
    if fits_claim(problem, answer.verdict, costs, answer.floor, proof)
        && answer.undecided.is_none()
    {
        return Ok(());
    }
    Err(Refusal::at(0, CheckFault::WrongShape))
}

/// Tests the costs and the floor of an optimal answer.
fn check_claim(
    alloc: Global,
    problem: &Problem,
    verdict: Verdict,
    costs: Option<&Costs>,
    floor: Floor,
) -> Result<(), Refusal<CheckFault, u64>>
    ensures holds { IfOk result (λ _. CostsHold problem.now verdict (option_copied costs.entry)
        floor) }
    ensures first { IfErr result
        (StopsBy (cost_tests problem.now verdict (option_copied costs.entry) floor)) }
{
    match (verdict, costs) {
        (Verdict::Optimal(greatest), Some(costs)) => {
            check_costs(alloc, problem, greatest, costs, floor)
        }
        (Verdict::Optimal(_), None) | (Verdict::Impossible | Verdict::Undecided(_), _) => Ok(()),
    }
}

/// Tests the rows, and then the proof over their forms.
fn check_evidence(
    alloc: Global,
    problem: &Problem,
    rows: &[Row],
    proof: Option<&CapTree>,
) -> Result<(), Refusal<CheckFault, u64>>
    ensures rows { IfOk result (λ _. All (IsRow problem.now) rows.now) }
    ensures holds { IfOk result (λ _. ProofHolds problem.now rows.now (option_copied proof.entry)) }
    ensures first { IfErr result
        (StopsBy (AtFirstItem (row_tests problem.now) 0 rows.now ∷
        proof_tests problem.now rows.now (option_copied proof.entry))) }
{
    problem.keeps_conditions();
    let forms = forms_of(alloc, problem, rows)?;
    match proof {
        Some(proof) => check_cap_tree(
            alloc,
            low_of(problem),
            high_of(problem),
            forms.as_slice(),
            proof,
        ),
        None => Ok(()),
    }
}

/// Checks the evidence of an answer to a problem. An answer is accepted exactly where it is valid; else it is refused
/// by the first of the tests that fails.
///
/// # Errors
///
/// `Refused` with the first test that fails and its place, in the order of `CheckFault`: the tests of each row are made
/// row by row, and those of each line of the tree line by line. `OutOfMemory` where memory ran out.
pub fn check(
    alloc: Global,
    problem: &Problem,
    answer: &Answer,
) -> Result<Accepted, Refusal<CheckFault, u64>>
    ensures valid { IfOk result (λ _. IsValid problem.now answer.now) }
    ensures claimed { IfOk result (IsAcceptedAs answer.now.verdict) }
    ensures true_claim { IfOk result (λ _. IsTrueVerdict problem.now answer.now.verdict
        answer.now.costs) }
    ensures first { IfErr result (StopsBy (tests problem.now answer.now)) }
    ensures invalid { IfErr result (RefusesInvalid problem.now answer.now) }
{
    problem.keeps_conditions();
    let accepted = claimed(answer.verdict)?;
    check_shape(problem, answer)?;
    let costs = answer.costs.as_ref();
    check_claim(alloc, problem, answer.verdict, costs, answer.floor)?;
    let rows = answer.rows.as_slice();
    check_evidence(alloc, problem, rows, answer.proof.as_ref())?;
    Ok(accepted)
}
