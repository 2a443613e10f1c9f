//! The form of a row.
ghost use Rattle.std.specs.Prelude.{◌≡◌, pos, ◌-ℤ◌, ◌++◌, ◌^◌, ◌<◌, ◌≤◌, false, length, true, All, IfOk};
ghost use Rattle.std.specs.List.Sorted.{IsNonDecreasingBy, IsPermutation};
ghost use Rattle.area_graph.specs.Costs.{IsPriced};
ghost use Rattle.design_problem.specs.Forms.{IsSmallForm};
ghost use Rattle.design_problem.specs.Payments.{payments_of};
ghost use Rattle.design_problem.specs.Rows.{HasRoute, fixed_cost, form_between, form_of_row};

use crate::balance::terms_of_payments;
use crate::payments::{Payment, fixed_sum, note_path};
use crate::{Form, Problem, Row};
use area_graph::Graph;
use cost_base::OutOfMemory;
use std::alloc::Global;

/// The payments of a rival and of the wanted path, in the order of their variables.
fn sorted_payments(
    alloc: Global,
    graph: &Graph,
    wanted: &[u32],
    rival: &[u32],
) -> Result<Vec<Payment>, OutOfMemory>
    requires wanted { All (λ e. e < length graph.now.edges) wanted.now }
    requires rival { All (λ e. e < length graph.now.edges) rival.now }
    ensures same { IfOk result
        (λ sorted. IsPermutation (payments_of graph.now true rival.now ++
        payments_of graph.now false wanted.now) sorted.items) }
    ensures rising { IfOk result (λ sorted. IsNonDecreasingBy (λ p. p.var) sorted.items) }
{
    let mut payments = Vec::new(alloc);
    note_path(&mut payments, graph, rival, true)?;
    note_path(&mut payments, graph, wanted, false)?;
    payments.sort_unstable_by_key(|payment| payment.var);
    Ok(payments)
}

/// What the rival pays in fixed prices, less what the wanted path pays, less 1.
fn constant_of(graph: &Graph, wanted: &[u32], rival: &[u32]) -> i64
    requires wanted_known { All (λ e. e < length graph.now.edges) wanted.now }
    requires wanted_short { length wanted.now < 2 ^ 32 }
    requires rival_known { All (λ e. e < length graph.now.edges) rival.now }
    requires rival_short { length rival.now < 2 ^ 32 }
    ensures { result ≡
        ((pos (fixed_cost graph.now rival.now) -ℤ pos (fixed_cost graph.now wanted.now)) -ℤ pos 1) }
{
    fixed_sum(graph, rival) - fixed_sum(graph, wanted) - 1
}

/// The form cost(rival) - cost(wanted) - 1.
fn form_of_paths(
    alloc: Global,
    graph: &Graph,
    variables: usize,
    wanted: &[u32],
    rival: &[u32],
) -> Result<Form, OutOfMemory>
    // Both paths have edges of the graph, fewer than 2^32.
    requires wanted_known { All (λ e. e < length graph.now.edges) wanted.now }
    requires wanted_short { length wanted.now < 2 ^ 32 }
    requires rival_known { All (λ e. e < length graph.now.edges) rival.now }
    requires rival_short { length rival.now < 2 ^ 32 }

    // Each edge has a fixed price or that of a variable.
    requires priced { All (λ edge. IsPriced variables edge.price) graph.now.edges }
    requires count { variables ≤ 2 ^ 32 }
    ensures { IfOk result (λ form. form ≡ form_between graph.now variables wanted.now rival.now) }
{
    let constant = constant_of(graph, wanted, rival);
    let payments = sorted_payments(alloc, graph, wanted, rival)?;
    let terms = terms_of_payments(alloc, variables, payments.as_slice())?;
    Ok(Form::from_terms(variables, constant, terms))
}

/// The form of a row: cost(rival) - cost(wanted path) - 1, in time in proportion to the two paths times the logarithm
/// of their length. The row's request is one of the problem's, and its rival's edges are a simple path of that request.
///
/// # Errors
///
/// `OutOfMemory`.
pub fn form_of(alloc: Global, problem: &Problem, row: &Row) -> Result<Form, OutOfMemory>
    requires { HasRoute problem.now row.now }
    ensures form { IfOk result (λ form. form ≡ form_of_row problem.now row.now) }
    ensures small { IfOk result (λ form. IsSmallForm (length problem.now.low) form) }
{
    problem.graph.keeps_conditions();
    let wanted = problem.requests.as_slice()[row.request as usize]
        .path
        .edges
        .as_slice();
    let rival = row.rival.as_slice();
    form_of_paths(
        alloc,
        &problem.graph,
        problem.low.as_slice().len(),
        wanted,
        rival,
    )
}
