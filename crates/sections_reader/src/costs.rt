//! The costs of a text that is no answer's, and the line that ends them.
ghost use Rattle.std.specs.Prelude.{◌≡◌, ℕ, List, [], ◌∷◌, ◌++◌, All, None, Some, MatchOption, MatchResult};
ghost use Rattle.std.specs.Option.{option_copied};
ghost use Rattle.design_problem.specs.Text.{cost_lines, FitsCostLine};
ghost use Rattle.answer_lines.specs.Grammar.{TextPlace, Next, AtOtherCosts, AtSections, AtSectionsEnd, AtUnread, IsSectionsEnd, inner_ends};
ghost use Rattle.answer_lines.specs.Going.{Goes};
ghost use Rattle.answer_lines.specs.Places.{LacksLawful};
ghost use Rattle.evidence_reader.specs.Sections.{LacksCost};
ghost use Rattle.evidence_reader.specs.Stops.{StopsReader};
ghost use Rattle.sections_reader.specs.Stages.{behind_costs_head_of, costs_head_of};
ghost use Rattle.sections_reader.specs.Texts.{FitLines, other_costs_lines};

use answer_lines::{OtherText, TextLeft, number_after};
use begun_lines::{begins_other_costs, begins_other_section, begins_sections_end};
use cost_base::{Listed, Refusal};
use design_problem::CostLine;
use evidence_reader::{AnswerFault, fault_at, read_sections};
use std::alloc::Global;

/// The cost lines, where there are costs, and the text behind the line that ends them.
///
/// # Errors
///
/// - `Refused` where one of their lines is at fault.
/// - `OutOfMemory` where a growth was refused.
pub(crate) fn read_other_costs(
    alloc: Global,
    text: TextLeft<'_>,
    of: OtherText,
) -> Result<(Option<Listed<CostLine>>, TextLeft<'_>), Refusal<AnswerFault>>
    ensures { MatchResult result (λ r. (number : ℕ) × (behind : List ℕ) × FitLines r.0 ×
        IsSectionsEnd of behind × Goes (AtOtherCosts of) text.entry
        (other_costs_lines of number r.0 ++ behind ∷ []) (AtUnread (inner_ends of)) r.1)
        (StopsReader (AtOtherCosts of) text.entry) }
{
    let (number, rest) = costs_head_at(text, of)?;
    match number {
        None => {
            let rest = end_at(rest, of)?;
            Ok((None, rest))
        }
        Some(_) => {
            let (lines, rest) = sections_to_end(alloc, rest, of)?;
            Ok((Some(lines), rest))
        }
    }
}

/// The number that the line before the costs says, None where there are none, and the text behind that line.
fn costs_head_at(
    text: TextLeft<'_>,
    of: OtherText,
) -> Result<(Option<u32>, TextLeft<'_>), Refusal<AnswerFault>>
    ensures { MatchResult result (λ r. Goes (AtOtherCosts of) text.entry (costs_head_of of r.0 ∷ [])
        (behind_costs_head_of of r.0) r.1) (StopsReader (AtOtherCosts of) text.entry) }
{
    match costs_head_next(text, of) {
        Some(found) => Ok(found),
        None => Err(fault_at(text, begins_other_costs(text.left, of))),
    }
}

/// The number that the line before the costs says, where that line is the next.
fn costs_head_next(text: TextLeft<'_>, of: OtherText) -> Option<(Option<u32>, TextLeft<'_>)>
    ensures { MatchOption result (LacksLawful (AtOtherCosts of) text.entry.left.now)
        (λ r. Goes (AtOtherCosts of) text.entry (costs_head_of of r.0 ∷ [])
        (behind_costs_head_of of r.0) r.1) }
{
    let (line, rest) = text.line()?;
    let number = costs_head(line, of)?;
    Some((number, rest))
}

/// The number that a line before costs says.
fn costs_head(line: &[u8], of: OtherText) -> Option<Option<u32>>
    ensures { MatchOption result ((next : TextPlace) → Next (AtOtherCosts of) line.now next → ⊥)
        (λ number. Next (AtOtherCosts of) line.now (behind_costs_head_of of number) ×
        (line.now ≡ costs_head_of of number)) }
{
    if line == of.no_costs() {
        return Some(None);
    }
    let greatest = u128::from(of.greatest_of_costs());
    let number = number_after(line, of.costs_front(), greatest)?;
    Some(Some(number as u32))
}

/// The cost lines, and the text behind the line that ends them.
fn sections_to_end(
    alloc: Global,
    text: TextLeft<'_>,
    of: OtherText,
) -> Result<(Listed<CostLine>, TextLeft<'_>), Refusal<AnswerFault>>
    ensures { MatchResult result (λ r. (behind : List ℕ) × All FitsCostLine r.0 ×
        IsSectionsEnd of behind × Goes (AtSections (Some of) None) text.entry
        (cost_lines None r.0 ++ behind ∷ []) (AtUnread (inner_ends of)) r.1)
        (StopsReader (AtSections (Some of) None) text.entry) }
{
    let (sections, rest) = read_sections(alloc, text)?;
    let rest = end_behind(rest, sections.router, of)?;
    Ok((Listed::from_items(sections.lines), rest))
}

/// The text behind the line that ends the sections, behind the last cost line, whose router this is.
fn end_behind<'a>(
    text: TextLeft<'a>,
    before: Option<&'a [u8]>,
    of: OtherText,
) -> Result<TextLeft<'a>, Refusal<AnswerFault>>
    requires { LacksCost (Some of) (option_copied before) text.left.now }
    ensures { MatchResult result (λ rest. (behind : List ℕ) × IsSectionsEnd of behind ×
        Goes (AtSections (Some of) (option_copied before.entry)) text.entry (behind ∷ [])
        (AtUnread (inner_ends of)) rest)
        (StopsReader (AtSections (Some of) (option_copied before.entry)) text.entry) }
{
    match end_next(text, of) {
        Some(rest) => Ok(rest),
        None => Err(fault_at(text, begins_other_section(text.left, before, of))),
    }
}

/// The text behind the line that ends the sections, where there are none.
fn end_at(text: TextLeft<'_>, of: OtherText) -> Result<TextLeft<'_>, Refusal<AnswerFault>>
    ensures { MatchResult result (λ rest. (behind : List ℕ) × IsSectionsEnd of behind ×
        Goes (AtSectionsEnd of) text.entry (behind ∷ []) (AtUnread (inner_ends of)) rest)
        (StopsReader (AtSectionsEnd of) text.entry) }
{
    match end_next(text, of) {
        Some(rest) => Ok(rest),
        None => Err(fault_at(text, begins_sections_end(text.left, of))),
    }
}

/// The text behind the line that ends the sections, where it is the next.
fn end_next(text: TextLeft<'_>, of: OtherText) -> Option<TextLeft<'_>>
    ensures { MatchOption result (LacksLawful (AtSectionsEnd of) text.entry.left.now)
        (λ rest. (behind : List ℕ) × IsSectionsEnd of behind ×
        Goes (AtSectionsEnd of) text.entry (behind ∷ []) (AtUnread (inner_ends of)) rest) }
{
    let (line, rest) = text.line()?;
    if of.ends_sections(line) {
        Some(rest)
    } else {
        None
    }
}
