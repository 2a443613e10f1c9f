//! The cost lines of one router.
ghost use Rattle.std.specs.Prelude.{◌≡◌, IfOk, OnOk};
ghost use Rattle.evidence_commands.specs.Rewrites.{AddsLine, last_lines, own_lines};

use cost_base::{Name, OutOfMemory};
use design_problem::{CostLine, cost_line};
use std::alloc::Global;
use text_lines::Names;

/// The lines of a router; where one interface has several, the last one.
pub(crate) fn last_lines(
    alloc: Global,
    router: &Name,
    lines: &[CostLine],
) -> Result<Vec<CostLine>, OutOfMemory>
    ensures { IfOk result (λ own. own.items ≡ last_lines (own_lines router.now lines.now)) }
{
    let mut seen = Names::new(alloc);
    let mut last = Vec::new(alloc);
    let mut left = lines;
    while let Some((line, before)) = left.split_last() {
        if line.router.as_bytes() == router.as_bytes() {
            add_line(alloc, &mut last, &mut seen, line)?;
        }
        left = before;
    }
    last.reverse();
    Ok(last)
}

/// Adds a line of an interface that has none yet.
fn add_line<'a>(
    alloc: Global,
    last: &mut Vec<CostLine>,
    seen: &mut Names<'a>,
    line: &'a CostLine,
) -> Result<(), OutOfMemory>
    ensures { OnOk result (AddsLine last.old.items last.new.items seen.old seen.new line.now) }
{
    let interface = line.interface.as_bytes();
    if seen.add(interface)? {
        last.push(cost_line(alloc, line.router.as_bytes(), interface, line.cost)?)?;
    }
    Ok(())
}
