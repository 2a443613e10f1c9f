//! The stage of the costs, with the floor behind them.
ghost use Rattle.std.specs.Prelude.{◌≡◌, [], ◌∷◌, ◌++◌, List, None, Some, All, MatchOption, MatchResult};
ghost use Rattle.std.specs.Option.{option_copied};
ghost use Rattle.design_problem.specs.Text.{cost_lines, costs_lines, FitsCostLine, FitsCosts, floor_line};
ghost use Rattle.design_problem.specs.declared.answer.CostLine.{CostLine};
ghost use Rattle.answer_lines.specs.Grammar.{TextPlace, Next, AtCosts, AtSections, AtFloor, AtRows};
ghost use Rattle.answer_lines.specs.Places.{LacksLawful};
ghost use Rattle.evidence_reader.specs.Sections.{LacksCost};
ghost use Rattle.evidence_reader.specs.Stops.{StopsReader};
ghost use Rattle.answer_lines.specs.Going.{Goes};
ghost use Rattle.evidence_reader.specs.Stages.{costs_head_line, behind_costs_head};

use crate::fault::AnswerFault;
use crate::faults::fault_at;
use crate::stage_sections::read_sections;
use answer_lines::{TextLeft, floor_next, number_after};
use begun_lines::{begins_costs, begins_floor, begins_section};
use cost_base::{Listed, Refusal};
use design_problem::{Costs, Floor};
use std::alloc::Global;

/// The costs and the floor of an answer.
#[derive(Drop)]
pub(crate) struct CostsPart {
    pub(crate) costs: Option<Costs>,
    pub(crate) floor: Floor,
}

/// What the line that costs begin with says.
#[derive(Clone, Copy)]
enum CostsHead {
    /// There are none.
    NoCosts,
    /// The greatest one.
    Greatest(u16),
}

/// The costs and the floor, and the text behind them.
///
/// # Errors
///
/// - `Refused` where one of their lines is at fault.
/// - `OutOfMemory` where a growth was refused.
pub(crate) fn read_costs(
    alloc: Global,
    text: TextLeft<'_>,
) -> Result<(CostsPart, TextLeft<'_>), Refusal<AnswerFault>>
    ensures { MatchResult result (λ r. FitsCosts r.0.costs × Goes AtCosts text.entry
        (costs_lines r.0.costs ++ floor_line r.0.floor ∷ []) AtRows r.1)
        (StopsReader AtCosts text.entry) }
{
    let (head, rest) = costs_head(text)?;
    match head {
        CostsHead::NoCosts => no_costs(rest),
        CostsHead::Greatest(greatest) => some_costs(alloc, greatest, rest),
    }
}

/// What the line that costs begin with says, where it has to be the next.
fn costs_head(text: TextLeft<'_>) -> Result<(CostsHead, TextLeft<'_>), Refusal<AnswerFault>>
    ensures { MatchResult result (λ r. Goes AtCosts text.entry (costs_head_line r.0 ∷ [])
        (behind_costs_head r.0) r.1) (StopsReader AtCosts text.entry) }
{
    match costs_head_next(text) {
        Some(found) => Ok(found),
        None => Err(fault_at(text, begins_costs(text.left))),
    }
}

/// What the line that costs begin with says, where it is the next.
fn costs_head_next(text: TextLeft<'_>) -> Option<(CostsHead, TextLeft<'_>)>
    ensures { MatchOption result (LacksLawful AtCosts text.entry.left.now)
        (λ r. Goes AtCosts text.entry (costs_head_line r.0 ∷ []) (behind_costs_head r.0) r.1) }
{
    let (line, rest) = text.line()?;
    let head = costs_head_of(line)?;
    Some((head, rest))
}

/// What a line that costs begin with says.
fn costs_head_of(line: &[u8]) -> Option<CostsHead>
    ensures { MatchOption result ((next : TextPlace) → Next AtCosts line.now next → ⊥)
        (λ head. Next AtCosts line.now (behind_costs_head head) ×
        (line.now ≡ costs_head_line head)) }
{
    if line == b"costs none".as_slice() {
        return Some(CostsHead::NoCosts);
    }
    let greatest = number_after(line, b"costs ", 65_535)?;
    Some(CostsHead::Greatest(greatest as u16))
}

/// The floor, where there are no costs.
fn no_costs(text: TextLeft<'_>) -> Result<(CostsPart, TextLeft<'_>), Refusal<AnswerFault>>
    ensures { MatchResult result (λ r. (r.0.costs ≡ None) × Goes AtFloor text.entry
        (floor_line r.0.floor ∷ []) AtRows r.1) (StopsReader AtFloor text.entry) }
{
    match floor_next(text) {
        Some((floor, rest)) => Ok((CostsPart { costs: None, floor }, rest)),
        None => Err(fault_at(text, begins_floor(text.left))),
    }
}

/// The costs of this greatest one, and the floor.
fn some_costs(
    alloc: Global,
    greatest: u16,
    text: TextLeft<'_>,
) -> Result<(CostsPart, TextLeft<'_>), Refusal<AnswerFault>>
    ensures { MatchResult result (λ r. (lines : List CostLine) ×
        (r.0.costs ≡ Some (record { greatest = greatest; lines = lines })) ×
        All FitsCostLine lines × Goes (AtSections None None) text.entry
        (cost_lines None lines ++ floor_line r.0.floor ∷ []) AtRows r.1)
        (StopsReader (AtSections None None) text.entry) }
{
    let (sections, rest) = read_sections(alloc, text)?;
    let (floor, rest) = floor_behind(rest, sections.router)?;
    let costs = Costs {
        greatest,
        lines: Listed::from_items(sections.lines),
    };
    Ok((
        CostsPart {
            costs: Some(costs),
            floor,
        },
        rest,
    ))
}

/// The floor behind the last cost line, whose router this is, where no further cost line stands.
fn floor_behind<'a>(
    text: TextLeft<'a>,
    before: Option<&'a [u8]>,
) -> Result<(Floor, TextLeft<'a>), Refusal<AnswerFault>>
    requires { LacksCost None (option_copied before) text.left.now }
    ensures { MatchResult result (λ r. Goes (AtSections None (option_copied before.entry))
        text.entry (floor_line r.0 ∷ []) AtRows r.1)
        (StopsReader (AtSections None (option_copied before.entry)) text.entry) }
{
    match floor_next(text) {
        Some(found) => Ok(found),
        None => Err(fault_at(text, begins_section(text.left, before))),
    }
}
