//! The text of `steps`.
ghost use Rattle.std.specs.Prelude.{◌≡◌, [], ◌∷◌, ◌++◌, codes, slice_index, IfOk, OnOk};
ghost use Rattle.text_lines.specs.Lines.{with_ends};
ghost use Rattle.line_builder.specs.Words.{with_words};
ghost use Rattle.change_steps.specs.Rollouts.{variables_of_step};
ghost use Rattle.change_commands.specs.Steps.{barrier_word, held_line, link_of_step, outcome_lines};
ghost use Rattle.change_commands.specs.Steps.{step_line, step_name, step_words, steps_lines, steps_text, stuck_line, stuck_lines};

use change_steps::{Barrier, Blocked, Moves, Outcome, Steps, Stuck};
use command_words::StepUnit;
use cost_base::OutOfMemory;
use line_builder::{LineBuilder, push_count_line, push_line};
use printed_parts::counted_head;
use std::alloc::Global;
use wanted_paths::Names;

/// Whose names and costs stand in the lines of steps, and what one step is.
#[derive(Clone, Copy)]
struct StepNames<'a> {
    by: StepUnit,
    names: &'a Names<'a>,
    moves: &'a Moves,
}

/// The links of a step.
fn links_of_step(moves: &Moves, step: usize) -> &[u32]
    ensures { result.now ≡ variables_of_step moves.now step }
{
    match moves.steps.as_slice().get(step) {
        Some(links) => links.as_slice(),
        None => &[],
    }
}

/// The first link of a step.
fn link_of_step(moves: &Moves, step: usize) -> u32
    ensures { result ≡ link_of_step moves.now step }
{
    match links_of_step(moves, step).first() {
        Some(link) => *link,
        None => 0,
    }
}

/// The cost of a link among the costs of all.
fn cost_of_link(costs: &[u16], link: u32) -> u16
    ensures { result ≡ slice_index costs.now link }
{
    match costs.get(link as usize) {
        Some(cost) => *cost,
        None => 0,
    }
}

/// Adds the words that name a step, each behind a space.
fn push_step_name(line: &mut LineBuilder, of: StepNames, step: usize) -> Result<(), OutOfMemory>
    ensures { OnOk result (line.new ≡ with_words line.old
        (step_name of.entry.by of.entry.names.now of.entry.moves.now step)) }
{
    let link = link_of_step(of.moves, step);
    line.word(of.names.link_router(link))?;
    match of.by {
        StepUnit::Line => line.word(of.names.link_interface(link)),
        StepUnit::Router => Ok(()),
    }
}

/// Adds the present and the wanted cost of a step's link, each behind a space.
fn push_costs_of_step(line: &mut LineBuilder, moves: &Moves, step: usize) -> Result<(), OutOfMemory>
    ensures { OnOk result (line.new ≡ with_words line.old
        (step_words StepUnit.Line moves.now step)) }
{
    let link = link_of_step(moves, step);
    let present = cost_of_link(moves.present.as_slice(), link);
    let wanted = cost_of_link(moves.wanted.as_slice(), link);
    line.number(u128::from(present))?;
    line.number(u128::from(wanted))
}

/// Adds the words of what a step does, each behind a space.
fn push_step_words(line: &mut LineBuilder, of: StepNames, step: usize) -> Result<(), OutOfMemory>
    ensures { OnOk result (line.new ≡ with_words line.old
        (step_words of.entry.by of.entry.moves.now step)) }
{
    match of.by {
        StepUnit::Line => push_costs_of_step(line, of.moves, step),
        StepUnit::Router => line.number(links_of_step(of.moves, step).len() as u128),
    }
}

/// The line of a step by its number among the lines.
fn step_line(
    alloc: Global,
    of: StepNames,
    number: usize,
    step: usize,
) -> Result<LineBuilder, OutOfMemory>
    ensures { IfOk result (λ line. line ≡ step_line of.entry.by of.entry.names.now
        of.entry.moves.now number step) }
{
    let mut line = LineBuilder::new(alloc, b"step")?;
    line.number(number as u128)?;
    push_step_name(&mut line, of, step)?;
    push_step_words(&mut line, of, step)?;
    Ok(line)
}

/// Adds the line of a step by its number among the lines.
fn push_step(
    alloc: Global,
    text: &mut Vec<u8>,
    of: StepNames,
    number: usize,
    step: usize,
) -> Result<(), OutOfMemory>
    ensures { OnOk result (text.new.items ≡ text.old.items ++ with_ends
        (step_line of.entry.by of.entry.names.now of.entry.moves.now number step ∷ [])) }
{
    let line = step_line(alloc, of, number, step)?;
    line.end_in(text)
}

/// Adds the lines of steps.
fn push_steps(
    alloc: Global,
    text: &mut Vec<u8>,
    of: StepNames,
    order: &[usize],
) -> Result<(), OutOfMemory>
    ensures { OnOk result (text.new.items ≡ text.old.items ++ with_ends
        (steps_lines of.entry.by of.entry.names.now of.entry.moves.now order.now)) }
{
    push_count_line(alloc, text, b"steps", order.len() as u64)?;
    for (number, step) in order.iter().enumerate() {
        push_step(alloc, text, of, number, *step)?;
    }
    Ok(())
}

/// Adds the word of what is in the way of a step, behind a space.
fn push_barrier(line: &mut LineBuilder, barrier: Barrier) -> Result<(), OutOfMemory>
    ensures { OnOk result (line.new ≡ line.old ++ 32 ∷ barrier_word barrier) }
{
    match barrier {
        Barrier::Path(path) => line.number(u128::from(path)),
        Barrier::Untested => line.word(b"untested"),
    }
}

/// The line of a step that can't follow.
fn stuck_line(alloc: Global, of: StepNames, blocked: Blocked) -> Result<LineBuilder, OutOfMemory>
    ensures { IfOk result (λ line. line ≡ stuck_line of.entry.by of.entry.names.now
        of.entry.moves.now blocked) }
{
    let mut line = LineBuilder::new(alloc, b"stuck")?;
    push_step_name(&mut line, of, blocked.step)?;
    push_barrier(&mut line, blocked.by)?;
    Ok(line)
}

/// Adds the line of a step that can't follow.
fn push_blocked(
    alloc: Global,
    text: &mut Vec<u8>,
    of: StepNames,
    blocked: Blocked,
) -> Result<(), OutOfMemory>
    ensures { OnOk result (text.new.items ≡ text.old.items ++ with_ends
        (stuck_line of.entry.by of.entry.names.now of.entry.moves.now blocked ∷ [])) }
{
    let line = stuck_line(alloc, of, blocked)?;
    line.end_in(text)
}

/// Adds the lines of how far a search came.
fn push_stuck(
    alloc: Global,
    text: &mut Vec<u8>,
    of: StepNames,
    stuck: &Stuck,
) -> Result<(), OutOfMemory>
    ensures { OnOk result (text.new.items ≡ text.old.items ++ with_ends
        (stuck_lines of.entry.by of.entry.names.now of.entry.moves.now stuck.now)) }
{
    push_steps(alloc, text, of, stuck.done.as_slice())?;
    for blocked in stuck.blocked.as_slice() {
        push_blocked(alloc, text, of, *blocked)?;
    }
    Ok(())
}

/// The first lines, up to that of the held paths.
fn head_of(alloc: Global, verdict: &[u8], held: &[u32]) -> Result<Vec<u8>, OutOfMemory>
    ensures { IfOk result
        (λ text. text.items ≡ with_ends (codes "ospfcost steps 1" ∷ verdict.now ∷
        held_line held.now ∷ [])) }
{
    counted_head(alloc, b"ospfcost steps 1", verdict, b"held", held)
}

/// The text up to its last line.
fn text_of_outcome(
    alloc: Global,
    of: StepNames,
    held: &[u32],
    outcome: &Outcome,
) -> Result<Vec<u8>, OutOfMemory>
    ensures { IfOk result
        (λ text. text.items ≡ with_ends (codes "ospfcost steps 1" ∷
        outcome_lines of.entry.by of.entry.names.now of.entry.moves.now held.now outcome.now)) }
{
    match outcome {
        Outcome::Order(order) => {
            let mut text = head_of(alloc, b"verdict order", held)?;
            push_steps(alloc, &mut text, of, order.as_slice())?;
            Ok(text)
        }
        Outcome::NoOrder(stuck) => {
            let mut text = head_of(alloc, b"verdict none", held)?;
            push_stuck(alloc, &mut text, of, stuck)?;
            Ok(text)
        }
        Outcome::Undecided(stuck) => {
            let mut text = head_of(alloc, b"verdict undecided", held)?;
            push_stuck(alloc, &mut text, of, stuck)?;
            Ok(text)
        }
    }
}

/// The text of what was found of steps.
///
/// # Errors
///
/// `OutOfMemory`.
pub(crate) fn text_of_steps(
    alloc: Global,
    by: StepUnit,
    names: &Names,
    moves: &Moves,
    steps: &Steps,
) -> Result<Vec<u8>, OutOfMemory>
    ensures { IfOk result (λ text. text.items ≡ steps_text by names.now moves.now steps.now) }
{
    let of = StepNames { by, names, moves };
    let mut text = text_of_outcome(alloc, of, steps.held.as_slice(), &steps.outcome)?;
    push_line(&mut text, b"end")?;
    Ok(text)
}
