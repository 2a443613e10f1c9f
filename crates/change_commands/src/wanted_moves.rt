//! The steps that the cost lines of a text make of the present costs.
ghost use Rattle.std.specs.Prelude.{◌≡◌, ℕ, ◌<◌, ◌≤◌, ◌++◌, true, List, [], ◌∷◌, None, Some, length, map, slice_index, slice_set, All, IfOk, OnOk, MatchResult};
ghost use Rattle.std.specs.List.{cons_option};
ghost use Rattle.change_commands.specs.WantedMoves.{first_line_fault, if_some, line_fault, link_of_line, links_of_router, moved_links, moves_between};
ghost use Rattle.change_commands.specs.WantedMoves.{router_steps, steps_of, with_lines};
ghost use Rattle.change_commands.specs.SeenLinks.{AreSeen};
ghost use Rattle.cost_base.specs.Lists.{numbers_from};

use change_steps::Moves;
use command_words::StepUnit;
use cost_base::{Listed, OutOfMemory, no_marks, push_if};
use design_problem::CostLine;
use sections_reader::CostsFault;
use std::alloc::Global;
use wanted_paths::Names;

/// Puts a line's cost into the place of its link, and marks that; or tells what is wrong with the line.
#[tactic(auto, using(crate::proofs::WantedMoveLaws::line_faults))]
fn take_line(
    names: &Names,
    line: &CostLine,
    costs: &mut Vec<u16>,
    seen: &mut Vec<bool>,
) -> Result<(), CostsFault>
    requires costs { length costs.old.items ≡ length names.now.links }
    requires seen { length seen.old.items ≡ length names.now.links }
    ensures { (before : List ℕ) → AreSeen before seen.old.items →
        MatchResult result (λ _. (line_fault names.now before line.now ≡ None) ×
        (costs.new.items ≡ slice_set costs.old.items (link_of_line names.now line.now)
        line.now.cost) ×
        (seen.new.items ≡ slice_set seen.old.items (link_of_line names.now line.now) true) ×
        (link_of_line names.now line.now < length names.now.links))
        (λ fault. line_fault names.now before line.now ≡ Some fault) }
{
    let found = names.find_interface(line.router.as_bytes(), line.interface.as_bytes());
    let Some(link) = found else {
        return Err(CostsFault::NoInterface);
    };
    let place = link as usize;
    if seen[place] {
        return Err(CostsFault::LineTwice);
    }
    seen[place] = true;
    costs[place] = line.cost;
    Ok(())
}

/// The costs of the links, with those of the lines in their places; or what is wrong with the first faulty line.
pub(crate) fn wanted_costs(
    alloc: Global,
    names: &Names,
    present: &[u16],
    lines: &[CostLine],
) -> Result<Result<Vec<u16>, CostsFault>, OutOfMemory>
    requires { length present.now ≡ length names.now.links }
    ensures { IfOk result (λ wanted. MatchResult wanted (λ costs.
        (first_line_fault names.now lines.now ≡ None) ×
        (costs.items ≡ with_lines names.now present.now lines.now))
        (λ fault. first_line_fault names.now lines.now ≡ Some fault)) }
{
    let mut costs = Vec::from_slice(alloc, present)?;
    let mut seen = no_marks(alloc, present.len())?;
    for line in lines {
        match take_line(names, line, &mut costs, &mut seen) {
            Ok(()) => {}
            Err(fault) => return Ok(Err(fault)),
        }
    }
    Ok(Ok(costs))
}

/// The links whose wanted cost isn't the present one, in order.
fn moved_links(
    alloc: Global,
    names: &Names,
    present: &[u16],
    wanted: &[u16],
) -> Result<Vec<u32>, OutOfMemory>
    requires present { length present.now ≡ length names.now.links }
    requires wanted { length wanted.now ≡ length names.now.links }
    ensures { IfOk result (λ moved. moved.items ≡ moved_links present.now wanted.now) }
{
    let mut moved = Vec::new(alloc);
    let count = names.links().len() as u32;
    for link in 0..count {
        let place = link as usize;
        push_if(&mut moved, link, wanted[place] != present[place])?;
    }
    Ok(moved)
}

/// A step for each link.
fn steps_by_line(alloc: Global, moved: &[u32]) -> Result<Vec<Listed<u32>>, OutOfMemory>
    ensures { IfOk result (λ steps. steps.items ≡ map (λ l. l ∷ []) moved.now) }
{
    let mut steps = Vec::new(alloc);
    for link in moved {
        let step = Listed::from_slice(alloc, &[*link])?;
        steps.push(step)?;
    }
    Ok(steps)
}

/// The links of a router among some.
fn links_of_router(
    alloc: Global,
    names: &Names,
    moved: &[u32],
    router: u32,
) -> Result<Vec<u32>, OutOfMemory>
    ensures { IfOk result (λ links. links.items ≡ links_of_router names.now.links moved.now
        router) }
{
    let mut links = Vec::new(alloc);
    for link in moved {
        push_if(&mut links, *link, names.router_of(*link) == router)?;
    }
    Ok(links)
}

/// Adds a step of links, if there are any.
fn push_links(steps: &mut Vec<Listed<u32>>, links: Vec<u32>) -> Result<(), OutOfMemory>
    ensures { OnOk result (steps.new.items ≡ steps.old.items ++
        cons_option (if_some links.items) []) }
{
    if links.is_empty() {
        return Ok(());
    }
    steps.push(Listed::from_items(links))?;
    Ok(())
}

/// A step for each router that has such links.
fn steps_by_router(
    alloc: Global,
    names: &Names,
    moved: &[u32],
) -> Result<Vec<Listed<u32>>, OutOfMemory>
    ensures { IfOk result (λ steps. steps.items ≡ router_steps names.now.links moved.now
        (numbers_from 0 (length names.now.routers))) }
{
    let mut steps = Vec::new(alloc);
    let count = names.routers().len() as u32;
    for router in 0..count {
        let links = links_of_router(alloc, names, moved, router)?;
        push_links(&mut steps, links)?;
    }
    Ok(steps)
}

/// The steps between costs.
fn steps_of(
    alloc: Global,
    by: StepUnit,
    names: &Names,
    moved: &[u32],
) -> Result<Vec<Listed<u32>>, OutOfMemory>
    ensures { IfOk result (λ steps. steps.items ≡ steps_of by names.now moved.now) }
{
    match by {
        StepUnit::Line => steps_by_line(alloc, moved),
        StepUnit::Router => steps_by_router(alloc, names, moved),
    }
}

/// The steps from the present costs to the wanted ones.
fn steps_between(
    alloc: Global,
    by: StepUnit,
    names: &Names,
    present: &[u16],
    wanted: &[u16],
) -> Result<Vec<Listed<u32>>, OutOfMemory>
    requires present { length present.now ≡ length names.now.links }
    requires wanted { length wanted.now ≡ length names.now.links }
    ensures { IfOk result (λ steps. steps.items ≡ steps_of by names.now
        (moved_links present.now wanted.now)) }
{
    let moved = moved_links(alloc, names, present, wanted)?;
    steps_of(alloc, by, names, moved.as_slice())
}

/// For the prover alone: keeps that each cost has 16 bits; takes no time and changes nothing.
fn keeps_bits(costs: &[u16])
    ensures { (k : ℕ) → k < length costs.now → slice_index costs.now k ≤ 65535 }
{
    let _ = costs;
}

/// The moves from the present costs to the wanted ones, line by line or router by router.
pub(crate) fn moves_to(
    alloc: Global,
    by: StepUnit,
    names: &Names,
    present: Vec<u16>,
    wanted: Vec<u16>,
) -> Result<Moves, OutOfMemory>
    requires present { length present.items ≡ length names.now.links }
    requires wanted { length wanted.items ≡ length names.now.links }
    requires above { All (λ cost. 0 < cost) present.items }
    requires positive { All (λ cost. 0 < cost) wanted.items }
    ensures { IfOk result (λ moves. moves ≡ moves_between by names.now present.items wanted.items) }
{
    keeps_bits(present.as_slice());
    keeps_bits(wanted.as_slice());
    let steps = steps_between(alloc, by, names, present.as_slice(), wanted.as_slice())?;
    Ok(Moves {
        present: Listed::from_items(present),
        wanted: Listed::from_items(wanted),
        steps: Listed::from_items(steps),
    })
}
