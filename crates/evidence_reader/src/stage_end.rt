//! The stage of the end: the lines behind the trees, and nothing behind them.
ghost use Rattle.std.specs.Prelude.{ℕ, zero, [], ◌∷◌, MatchResult, codes};
ghost use Rattle.answer_lines.specs.Grammar.{AtTree, AtEnd, AfterEnd};
ghost use Rattle.answer_lines.specs.Lawful.{IsRead};
ghost use Rattle.design_problem.specs.Text.{end_lines};
ghost use Rattle.evidence_reader.specs.Stops.{StopsReader};
ghost use Rattle.answer_lines.specs.Going.{Goes};

use crate::fault::AnswerFault;
use crate::faults::{fault_at, nothing_left};
use answer_lines::TextLeft;
use begun_lines::{begins_end, begins_wide};
use cost_base::Refusal;
use evidence_text::TreePart;

/// The end of the text behind the undecided tree.
///
/// # Errors
///
/// `Refused` where one of the last lines is at fault, or something stands behind them.
pub(crate) fn read_end(text: TextLeft<'_>) -> Result<(), Refusal<AnswerFault>>
    ensures { MatchResult result (λ _. (after : ℕ) × IsRead (AtTree TreePart.Undecided zero zero)
        text.entry.read text.entry.left.now end_lines AfterEnd after [])
        (StopsReader (AtTree TreePart.Undecided zero zero) text.entry) }
{
    let wide = wide_line(text)?;
    let end = end_line(wide)?;
    nothing_left(end)
}

/// The text behind the line of the wide part.
fn wide_line(text: TextLeft<'_>) -> Result<TextLeft<'_>, Refusal<AnswerFault>>
    ensures { MatchResult result (λ rest. Goes (AtTree TreePart.Undecided zero zero) text.entry
        (codes "wide none" ∷ []) AtEnd rest) (StopsReader (AtTree TreePart.Undecided zero zero)
        text.entry) }
{
    match text.behind(b"wide none") {
        Some(rest) => Ok(rest),
        None => Err(fault_at(text, begins_wide(text.left))),
    }
}

/// The text behind the `end` line.
fn end_line(text: TextLeft<'_>) -> Result<TextLeft<'_>, Refusal<AnswerFault>>
    ensures { MatchResult result (λ rest. Goes AtEnd text.entry (codes "end" ∷ []) AfterEnd rest)
        (StopsReader AtEnd text.entry) }
{
    match text.behind(b"end") {
        Some(rest) => Ok(rest),
        None => Err(fault_at(text, begins_end(text.left))),
    }
}
