//! The shape of an answer: which parts stand for which verdict.
ghost use Rattle.evidence_checker.specs.declared.fault.CheckFault.TheVariants.{NothingClaimed};
ghost use Rattle.evidence_checker.specs.Numbers.{check_fault_number};
ghost use Rattle.std.specs.Prelude.{◌≡◌, ◌↔◌, [], ◌∷◌, ◌≤◌, All, IsTrue, IfOk, IfErr};
ghost use Rattle.std.specs.Option.{option_copied};
ghost use Rattle.design_problem.specs.Answers.{greatest_bound};
ghost use Rattle.evidence_checker.specs.Laws.{IsAcceptedAs};
ghost use Rattle.evidence_checker.specs.Refusals.{AtNoPlace, StopsBy};
ghost use Rattle.evidence_checker.specs.Tests.{ClaimsNothing, ShapeOfClaim, ShapeOfLeast, ShapeOfNone, IsFalseFloor};

use crate::{Accepted, CheckFault};
use cost_base::Refusal;
use design_problem::{CapTree, Costs, Floor, Problem, Verdict, greatest_of};

/// What a verdict claims.
pub(crate) fn claimed(verdict: Verdict) -> Result<Accepted, Refusal<CheckFault, u64>>
    ensures claim { IfOk result (IsAcceptedAs verdict) }
    ensures first { IfErr result
        (StopsBy (AtNoPlace (check_fault_number NothingClaimed) (ClaimsNothing verdict) ∷ [])) }
{
    match verdict {
        Verdict::Optimal(greatest) => Ok(Accepted::Optimal(greatest)),
        Verdict::Impossible => Ok(Accepted::Impossible),
        Verdict::Undecided(_) => Err(Refusal::at(0, CheckFault::NothingClaimed)),
    }
}

/// Whether no lower bound is above a cap.
fn fits_cap(problem: &Problem, cap: u16) -> bool
    ensures { IsTrue result ↔ All (λ low. low ≤ cap) problem.now.low }
{
    problem.low.as_slice().iter().all(|low| *low <= cap)
}

/// Whether exactly one of floor and proof stands, and a proof is at the cap below the greatest cost.
fn shows_least(problem: &Problem, greatest: u16, floor: Floor, proof: Option<&CapTree>) -> bool
    ensures { IsTrue result ↔ ShapeOfLeast problem.now greatest floor (option_copied proof.entry) }
{
    match (floor, proof) {
        (Floor::Absent, Some(proof)) => {
            fits_cap(problem, proof.cap) && u32::from(proof.cap) + 1 == u32::from(greatest)
        }
        (Floor::Empty | Floor::Var(_), None) => true,
        (Floor::Absent, None) | (Floor::Empty | Floor::Var(_), Some(_)) => false,
    }
}

/// Whether a proof stands at the greatest bound, and no floor.
fn shows_none(problem: &Problem, floor: Floor, proof: Option<&CapTree>) -> bool
    ensures { IsTrue result ↔ ShapeOfNone problem.now floor (option_copied proof.entry) }
{
    match (floor, proof) {
        (Floor::Absent, Some(proof)) => proof.cap == greatest_of(problem.high.as_slice()),
        (Floor::Absent, None) | (Floor::Empty | Floor::Var(_), _) => false,
    }
}

/// Whether the parts stand that a verdict needs, and no others.
pub(crate) fn fits_claim(
    problem: &Problem,
    verdict: Verdict,
    costs: Option<&Costs>,
    floor: Floor,
    proof: Option<&CapTree>,
) -> bool
    ensures { IsTrue result ↔ ShapeOfClaim problem.now verdict (option_copied costs.entry) floor
        (option_copied proof.entry) }
{
    match (verdict, costs) {
        (Verdict::Optimal(greatest), Some(_)) => shows_least(problem, greatest, floor, proof),
        (Verdict::Impossible, None) => shows_none(problem, floor, proof),
        (Verdict::Optimal(_), None) | (Verdict::Impossible, Some(_)) | (Verdict::Undecided(_), _) =>
            { false }
    }
}

/// Whether a floor is false: its variable has another lower bound than the greatest cost, or there is a
/// variable after all.
pub(crate) fn is_false_floor(problem: &Problem, greatest: u16, floor: Floor) -> bool
    ensures { IsTrue result ↔ IsFalseFloor problem.now greatest floor }
{
    let low = problem.low.as_slice();
    match floor {
        Floor::Absent => false,
        Floor::Empty => !low.is_empty(),
        Floor::Var(var) => low.len() <= var as usize || low[var as usize] != greatest,
    }
}
