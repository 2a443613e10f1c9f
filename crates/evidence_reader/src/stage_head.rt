//! The stage of the head: the first line and the verdict.
ghost use Rattle.std.specs.Prelude.{[], ◌∷◌, MatchResult};
ghost use Rattle.answer_lines.specs.Grammar.{AtHead, AtVerdict, AtCosts, AtInnerHead, AtOtherVerdict, answer_head};
ghost use Rattle.answer_lines.specs.declared.other_text.OtherText.TheVariants as other;
ghost use Rattle.design_problem.specs.Text.{head_lines, verdict_line};
ghost use Rattle.evidence_reader.specs.Stops.{StopsReader};
ghost use Rattle.answer_lines.specs.Going.{Goes};

use crate::fault::AnswerFault;
use crate::faults::fault_at;
use answer_lines::{TextLeft, verdict_next};
use begun_lines::{begins_head, begins_verdict};
use cost_base::Refusal;
use design_problem::Verdict;

/// The verdict, and the text behind its line.
///
/// # Errors
///
/// `Refused` where the first line or the verdict is at fault.
pub(crate) fn read_head(text: TextLeft<'_>) -> Result<(Verdict, TextLeft<'_>), Refusal<AnswerFault>>
    ensures { MatchResult result (λ r. Goes AtHead text.entry (head_lines r.0) AtCosts r.1)
        (StopsReader AtHead text.entry) }
{
    let behind = answer_head(text)?;
    verdict_at(behind)
}

/// The text behind the first line of an answer, which may stand inside another text.
///
/// # Errors
///
/// `Refused` where that line isn't the next.
pub fn answer_head(text: TextLeft<'_>) -> Result<TextLeft<'_>, Refusal<AnswerFault>>
    ensures own { MatchResult result (λ rest. Goes AtHead text.entry (answer_head ∷ []) AtVerdict
        rest) (StopsReader AtHead text.entry) }
    ensures inner { MatchResult result (λ rest. Goes AtInnerHead text.entry (answer_head ∷ [])
        (AtOtherVerdict other.Total) rest) (StopsReader AtInnerHead text.entry) }
{
    match text.behind(b"ospfcost answer 1") {
        Some(rest) => Ok(rest),
        None => Err(fault_at(text, begins_head(text.left))),
    }
}

/// The verdict, where its line has to be the next.
fn verdict_at(text: TextLeft<'_>) -> Result<(Verdict, TextLeft<'_>), Refusal<AnswerFault>>
    ensures { MatchResult result (λ r. Goes AtVerdict text.entry (verdict_line r.0 ∷ []) AtCosts
        r.1) (StopsReader AtVerdict text.entry) }
{
    match verdict_next(text) {
        Some(found) => Ok(found),
        None => Err(fault_at(text, begins_verdict(text.left))),
    }
}
