//! The lines before the costs: the heads of a text, and its verdict.
ghost use Rattle.std.specs.Prelude.{ℕ, List, [], ◌∷◌, ◌++◌, MatchOption, MatchResult};
ghost use Rattle.answer_lines.specs.Grammar.{AtOtherHead, AtOtherVerdict, AtOtherCosts, other_head, behind_other_head, IsOtherVerdict};
ghost use Rattle.answer_lines.specs.Going.{Goes};
ghost use Rattle.answer_lines.specs.Places.{LacksLawful};
ghost use Rattle.evidence_reader.specs.Stops.{StopsReader};
ghost use Rattle.sections_reader.specs.Stages.{heads_of};
ghost use Rattle.sections_reader.specs.Texts.{top_lines};

use answer_lines::{OtherText, TextLeft};
use begun_lines::{begins_other_head, begins_other_verdict};
use cost_base::Refusal;
use evidence_reader::{AnswerFault, answer_head, fault_at};

/// The text behind the verdict.
///
/// # Errors
///
/// `Refused` where a head or the verdict is at fault.
pub(crate) fn read_top(
    text: TextLeft<'_>,
    of: OtherText,
) -> Result<TextLeft<'_>, Refusal<AnswerFault>>
    ensures { MatchResult result (λ rest. (verdict : List ℕ) ×
        Goes (AtOtherHead of) text.entry (top_lines of verdict) (AtOtherCosts of) rest)
        (StopsReader (AtOtherHead of) text.entry) }
{
    let behind = read_heads(text, of)?;
    verdict_at(behind, of)
}

/// The text behind its head, and behind that of the answer inside.
fn read_heads(text: TextLeft<'_>, of: OtherText) -> Result<TextLeft<'_>, Refusal<AnswerFault>>
    ensures { MatchResult result (Goes (AtOtherHead of) text.entry (heads_of of)
        (AtOtherVerdict of)) (StopsReader (AtOtherHead of) text.entry) }
{
    let behind = head_at(text, of)?;
    match of {
        OtherText::Total => answer_head(behind),
        OtherText::Spread | OtherText::Change => Ok(behind),
    }
}

/// The text behind its first line.
fn head_at(text: TextLeft<'_>, of: OtherText) -> Result<TextLeft<'_>, Refusal<AnswerFault>>
    ensures { MatchResult result (Goes (AtOtherHead of) text.entry (other_head of ∷ [])
        (behind_other_head of)) (StopsReader (AtOtherHead of) text.entry) }
{
    match text.behind(of.head()) {
        Some(rest) => Ok(rest),
        None => Err(fault_at(text, begins_other_head(text.left, of))),
    }
}

/// The text behind the verdict, whose line has to be the next.
fn verdict_at(text: TextLeft<'_>, of: OtherText) -> Result<TextLeft<'_>, Refusal<AnswerFault>>
    ensures { MatchResult result (λ rest. (verdict : List ℕ) ×
        Goes (AtOtherVerdict of) text.entry (verdict ∷ []) (AtOtherCosts of) rest)
        (StopsReader (AtOtherVerdict of) text.entry) }
{
    match verdict_next(text, of) {
        Some(rest) => Ok(rest),
        None => Err(fault_at(text, begins_other_verdict(text.left, of))),
    }
}

/// The text behind the verdict, where its line is the next.
fn verdict_next(text: TextLeft<'_>, of: OtherText) -> Option<TextLeft<'_>>
    ensures { MatchOption result (LacksLawful (AtOtherVerdict of) text.entry.left.now)
        (λ rest. (verdict : List ℕ) × Goes (AtOtherVerdict of) text.entry (verdict ∷ [])
        (AtOtherCosts of) rest) }
{
    let (line, rest) = text.line()?;
    if of.is_verdict(line) {
        Some(rest)
    } else {
        None
    }
}
