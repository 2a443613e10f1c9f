//! The tests of rows, and their forms.
ghost use Rattle.std.specs.Prelude.{◌≡◌, ◌↔◌, ℕ, [], ◌∷◌, Some, length, map, slice_get, All, IsTrue, ◌++◌, IfOk, IfErr, OnOk, MatchOption};
ghost use Rattle.cost_base.specs.Order.{FirstOf};
ghost use Rattle.area_graph.specs.Paths.{IsPathOf};
ghost use Rattle.design_problem.specs.Forms.{IsSmallForm};
ghost use Rattle.design_problem.specs.Problems.{request_ends};
ghost use Rattle.design_problem.specs.Rows.{IsRivalOf, IsRow, forms_of_rows, form_of_row};
ghost use Rattle.evidence_checker.specs.Refusals.{StopsBy, AtFirstItem};
ghost use Rattle.evidence_checker.specs.Numbers.{check_fault_number};
ghost use Rattle.evidence_checker.specs.Tests.{row_tests};
ghost use Rattle.evidence_checker.specs.Routes.{route_tests};

use crate::CheckFault;
use area_graph::{Graph, Path, is_path_of};
use cost_base::{Listed, OutOfMemory, Refusal, push_last};
use design_problem::{Form, Problem, Request, Row, form_of};
use std::alloc::Global;

/// Whether edges are a simple path of a request.
fn is_route(
    alloc: Global,
    graph: &Graph,
    request: &Request,
    edges: &[u32],
) -> Result<bool, OutOfMemory>
    ensures { IfOk result (λ yes. IsTrue yes ↔ IsPathOf graph.now (request_ends request.now)
        edges.now) }
{
    let start = request.path.start;
    let edges = Listed::from_slice(alloc, edges)?;
    let path = Path { start, edges };
    Ok(is_path_of(graph, &path, request.end, request.excluded.as_slice()))
}

/// The first test that edges fail as a rival of a request's path.
fn route_fault(
    alloc: Global,
    graph: &Graph,
    request: &Request,
    edges: &[u32],
) -> Result<Option<CheckFault>, OutOfMemory>
    ensures { IfOk result (λ fault. MatchOption fault
        (IsRivalOf graph.now (Some request.now) edges.now)
        (λ f. FirstOf (route_tests graph.now request.now edges.now) (check_fault_number f))) }
{
    if !is_route(alloc, graph, request, edges)? {
        return Ok(Some(CheckFault::NotAPath));
    }
    if edges == request.path.edges.as_slice() {
        return Ok(Some(CheckFault::NotARival));
    }
    Ok(None)
}

/// The first test that a row fails.
fn row_fault(alloc: Global, problem: &Problem, row: &Row) -> Result<Option<CheckFault>, OutOfMemory>
    ensures { IfOk result (λ fault. MatchOption fault (IsRow problem.now row.now)
        (λ f. FirstOf (row_tests problem.now row.now) (check_fault_number f))) }
{
    match problem.requests.as_slice().get(row.request as usize) {
        Some(request) => route_fault(alloc, &problem.graph, request, row.rival.as_slice()),
        None => Ok(Some(CheckFault::NotAPath)),
    }
}

/// The form of a row.
///
/// For the prover: a call, since the row's test shows that it is a row, and `form_of` requires that it has a route.
fn form_of_rival(alloc: Global, problem: &Problem, row: &Row) -> Result<Form, OutOfMemory>
    requires { IsRow problem.now row.now }
    ensures form { IfOk result (λ form. form ≡ form_of_row problem.now row.now) }
    ensures small { IfOk result (λ form. IsSmallForm (length problem.now.low) form) }
{
    form_of(alloc, problem, row)
}

/// The forms of the rows. The rows are tested in order.
pub(crate) fn forms_of(
    alloc: Global,
    problem: &Problem,
    rows: &[Row],
) -> Result<Vec<Form>, Refusal<CheckFault, u64>>
    ensures rows { IfOk result (λ _. All (IsRow problem.now) rows.now) }
    ensures forms { IfOk result (λ forms. forms.items ≡ forms_of_rows problem.now rows.now) }
    ensures small { IfOk result (λ forms. All (IsSmallForm (length problem.now.low)) forms.items) }
    ensures first { IfErr result (StopsBy (AtFirstItem (row_tests problem.now) 0 rows.now ∷ [])) }
{
    let mut forms = Vec::new(alloc);
    for (index, row) in rows.iter().enumerate() {
        if let Some(fault) = row_fault(alloc, problem, row)? {
            let place = index as u64;
            return Err(Refusal::at(place, fault));
        }
        let form = form_of_rival(alloc, problem, row)?;
        push_last(&mut forms, form)?;
    }
    Ok(forms)
}
