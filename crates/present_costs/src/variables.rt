//! The present cost of each variable.
ghost use Rattle.std.specs.Prelude.{◌≡◌, ℕ, if◌then◌else◌, map, length, IfOk};
ghost use Rattle.cost_base.specs.Lists.{numbers_from};
ghost use Rattle.area_graph.specs.Area.{edge_at};
ghost use Rattle.path_requests.specs.Meaning.{problem_of};
ghost use Rattle.present_costs.specs.PresentCosts.{costs_of_variable, if_within, present_of_variables};
ghost use Rattle.present_costs.specs.Noted.{noted_with, noted_after, one_noted, noted_within};
ghost use Rattle.design_problem.specs.Rows.{is_var};
ghost use Rattle.present_costs.specs.declared.variables.Noted.{Noted as NotedValue};
ghost use Rattle.present_costs.specs.declared.variables.Noted.TheVariants.{Nothing};

use area_graph::{Graph, Price};
use cost_base::OutOfMemory;
use design_problem::Problem;
use lsdb_build::Lsdb;
use path_requests::present_cost;
use request_reader::RequestFile;
use std::alloc::Global;

/// What is noted of the present costs of a variable's links: none yet, one that all have, or that they differ.
#[derive(Clone, Copy)]
enum Noted {
    Nothing,
    One(u16),
    Several,
}

/// What is noted with one cost more.
fn noted_with(noted: Noted, cost: u16) -> Noted
    ensures { result ≡ noted_with noted cost }
{
    match noted {
        Noted::Nothing => Noted::One(cost),
        Noted::One(first) => {
            if cost == first {
                Noted::One(first)
            } else {
                Noted::Several
            }
        }
        Noted::Several => Noted::Several,
    }
}

/// The price of the link of a number, in the graph of a database. Takes no memory.
pub fn price_of_link(graph: &Graph, number: u32) -> Price
    ensures { result ≡ (edge_at graph.now number).price }
{
    match graph.edges().get(number as usize) {
        Some(edge) => edge.price,
        None => Price::Zero,
    }
}

/// Notes the cost of a link whose price is a variable.
fn note(price: Price, cost: u16, noted: &mut Vec<Noted>)
    ensures { (f : ℕ → NotedValue) (n : ℕ) → noted.old.items ≡ map f (numbers_from 0 n) →
        noted.new.items ≡ map (λ k. if is_var k price then noted_with (f k) cost else f k)
        (numbers_from 0 n) }
{
    match price {
        Price::Var(variable) => {
            let place = variable as usize;
            if place < noted.len() {
                noted[place] = noted_with(noted[place], cost);
            }
        }
        Price::Fixed(_) | Price::Zero => {}
    }
}

/// So many variables of which nothing is noted.
fn nothing_noted(alloc: Global, count: usize) -> Result<Vec<Noted>, OutOfMemory>
    ensures { IfOk result (λ noted. noted.items ≡ map (λ k. Nothing) (numbers_from 0 count)) }
{
    Ok(vec![in alloc; Noted::Nothing; count]?)
}

/// What is noted of each variable after all links: one pass over them.
fn noted_of_links(
    alloc: Global,
    request_file: &RequestFile,
    lsdb: &Lsdb,
    graph: &Graph,
    count: usize,
) -> Result<Vec<Noted>, OutOfMemory>
    requires { graph.now ≡ (problem_of request_file.now lsdb.now).graph }
    ensures { IfOk result (λ noted. noted.items ≡ map (λ k. noted_after Nothing (costs_of_variable
        request_file.now lsdb.now k 0 lsdb.now.links)) (numbers_from 0 count)) }
{
    let mut noted = nothing_noted(alloc, count)?;
    for (i, link) in lsdb.links().iter().enumerate() {
        note(
            price_of_link(graph, i as u32),
            present_cost(request_file, link),
            &mut noted,
        );
    }
    Ok(noted)
}

/// The one cost that is noted, where it lies within bounds.
fn cost_within(noted: Noted, low: u16, high: u16) -> Option<u16>
    ensures { result ≡ if_within low high (one_noted noted) }
{
    match noted {
        Noted::One(cost) => {
            if low <= cost && cost <= high {
                Some(cost)
            } else {
                None
            }
        }
        Noted::Nothing | Noted::Several => None,
    }
}

/// The one cost that is noted of each variable, where it lies within the variable's bounds.
fn costs_within(
    alloc: Global,
    noted: &[Noted],
    low: &[u16],
    high: &[u16],
) -> Result<Vec<Option<u16>>, OutOfMemory>
    requires noted { length noted.now ≡ length low.now }
    requires high { length high.now ≡ length low.now }
    ensures { IfOk result (λ costs. costs.items ≡ map (noted_within low.now high.now noted.now)
        (numbers_from 0 (length low.now))) }
{
    let mut costs = Vec::new(alloc);
    for i in 0..low.len() {
        costs.push(cost_within(noted[i], low[i], high[i]))?;
    }
    Ok(costs)
}

/// The present cost of each variable of a request file's problem: that of its interface, or of both ends of a symmetric
/// link where they are equal. None stands where the ends differ, or where the cost is outside the variable's bounds.
/// One pass over the links and one over the variables.
///
/// # Errors
///
/// `OutOfMemory`.
pub fn present_of_variables(
    alloc: Global,
    request_file: &RequestFile,
    lsdb: &Lsdb,
    problem: &Problem,
) -> Result<Vec<Option<u16>>, OutOfMemory>
    requires { problem.now ≡ problem_of request_file.now lsdb.now }
    ensures { IfOk result (λ costs. costs.items ≡ present_of_variables request_file.now lsdb.now) }
{
    let low = problem.low.as_slice();
    let noted = noted_of_links(alloc, request_file, lsdb, &problem.graph, low.len())?;
    costs_within(alloc, &noted, low, problem.high.as_slice())
}
