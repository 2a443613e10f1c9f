//! Which steps come first and last.
ghost use Rattle.std.specs.Prelude.{◌≡◌, ◌<◌, ◌||◌, ℕ, All, List, IfOk, length, map};
ghost use Rattle.std.specs.List.{list_all};
ghost use Rattle.cost_base.specs.Lists.{numbers_from};
ghost use Rattle.cost_base.specs.Marks.{is_marked};
ghost use Rattle.design_problem.specs.Rows.{is_var};
ghost use Rattle.change_steps.specs.Rollouts.{variables_of_step, step_count};
ghost use Rattle.change_steps.specs.Kinds.{falls_off_held, goes_over, has_kind, kind_of_step, lies_on_held, rises, rises_off_held};
ghost use Rattle.change_steps.specs.Search.{AreHeldMarks};

use crate::rollout::Rollout;
use area_graph::{Graph, Price, edge_of};
use cost_base::{OutOfMemory, mark_within, no_marks};
use std::alloc::Global;

/// When a step is done, by where its variables lie and whether their costs rise.
#[derive(Clone, Copy, PartialEq, Eq)]
pub(crate) enum Kind {
    /// All its variables rise off the held paths: before the steps between.
    First,
    /// Neither first nor last: a safe order has to be looked for.
    Between,
    /// All its variables fall off the held paths: after the steps between.
    Last,
}

/// Whether a kind is another one.
pub(crate) fn is_kind(kind: Kind, other: Kind) -> bool
    ensures { result ≡ has_kind kind other }
{
    match (kind, other) {
        (Kind::First, Kind::First) => true,
        (Kind::Between, Kind::Between) => true,
        (Kind::Last, Kind::Last) => true,
        _ => false,
    }
}

/// Marks the variable of a price, if it is one of those that have marks.
fn mark_price(marks: &mut Vec<bool>, price: Price)
    ensures count { length marks.new.items ≡ length marks.old.items }
    ensures marks { (v : ℕ) → v < length marks.old.items → is_marked marks.new.items v ≡
        (is_marked marks.old.items v || is_var v price) }
{
    match price {
        Price::Var(number) => mark_within(marks, number as usize),
        Price::Fixed(_) | Price::Zero => {}
    }
}

/// Marks the variables that lie on a path besides those that are marked.
fn mark_path(marks: &mut Vec<bool>, graph: &Graph, edges: &[u32])
    requires { All (λ e. e < length graph.now.edges) edges.now }
    ensures count { length marks.new.items ≡ length marks.old.items }
    ensures marks { (v : ℕ) → v < length marks.old.items → is_marked marks.new.items v ≡
        (is_marked marks.old.items v || goes_over graph.now edges.now v) }
{
    for edge in edges {
        mark_price(marks, edge_of(graph, *edge).price);
    }
}

/// A mark for each variable that lies on a held path.
fn mark_held(alloc: Global, rollout: &Rollout, held: &[u32]) -> Result<Vec<bool>, OutOfMemory>
    requires { All (λ k. k < length rollout.now.requests) held.now }
    ensures { IfOk result (λ marks. AreHeldMarks rollout.now held.now marks.items) }
{
    rollout.keeps_conditions();
    let mut marks = no_marks(alloc, rollout.present().len())?;
    for number in held {
        mark_path(
            &mut marks,
            rollout.graph(),
            rollout.request(*number).path.edges.as_slice(),
        );
    }
    Ok(marks)
}

/// Whether the wanted cost of a variable is greater than its present one.
pub(crate) fn variable_rises(rollout: &Rollout, variable: u32) -> bool
    requires { variable < length rollout.now.moves.present }
    ensures { result ≡ rises rollout.now.moves variable }
{
    rollout.keeps_conditions();
    rollout.present()[variable as usize] < rollout.wanted()[variable as usize]
}

/// Whether each variable of a step rises off the held paths.
fn all_rise(rollout: &Rollout, marks: &[bool], variables: &[u32]) -> bool
    requires known { All (λ v. v < length rollout.now.moves.present) variables.now }
    requires count { length marks.now ≡ length rollout.now.moves.present }
    ensures { (held : List ℕ) → AreHeldMarks rollout.now held marks.now →
        result ≡ list_all (rises_off_held rollout.now held) variables.now }
{
    for variable in variables {
        if !variable_rises(rollout, *variable) || marks[*variable as usize] {
            return false;
        }
    }
    true
}

/// Whether each variable of a step falls off the held paths.
fn all_fall(rollout: &Rollout, marks: &[bool], variables: &[u32]) -> bool
    requires known { All (λ v. v < length rollout.now.moves.present) variables.now }
    requires count { length marks.now ≡ length rollout.now.moves.present }
    ensures { (held : List ℕ) → AreHeldMarks rollout.now held marks.now →
        result ≡ list_all (falls_off_held rollout.now held) variables.now }
{
    for variable in variables {
        if variable_rises(rollout, *variable) || marks[*variable as usize] {
            return false;
        }
    }
    true
}

/// When a step is done.
fn kind_of(rollout: &Rollout, marks: &[bool], step: usize) -> Kind
    requires step { step < step_count rollout.now }
    requires count { length marks.now ≡ length rollout.now.moves.present }
    ensures { (held : List ℕ) → AreHeldMarks rollout.now held marks.now →
        result ≡ kind_of_step rollout.now held step }
{
    rollout.keeps_conditions();
    let variables = rollout.variables(step);
    if all_rise(rollout, marks, variables) {
        Kind::First
    } else if all_fall(rollout, marks, variables) {
        Kind::Last
    } else {
        Kind::Between
    }
}

/// When each step is done.
pub(crate) fn kinds_of(
    alloc: Global,
    rollout: &Rollout,
    held: &[u32],
) -> Result<Vec<Kind>, OutOfMemory>
    requires { All (λ k. k < length rollout.now.requests) held.now }
    ensures { IfOk result (λ kinds. kinds.items ≡ map (kind_of_step rollout.now held.now)
        (numbers_from 0 (step_count rollout.now))) }
{
    let marks = mark_held(alloc, rollout, held)?;
    let mut kinds = Vec::new(alloc);
    for step in 0..rollout.step_count() {
        kinds.push(kind_of(rollout, &marks, step))?;
    }
    Ok(kinds)
}
