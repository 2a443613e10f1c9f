//! The lines that nobody reads, up to the last line `end`.
ghost use Rattle.std.specs.Prelude.{ℕ, List, [], MatchResult};
ghost use Rattle.answer_lines.specs.Grammar.{AtUnread, AfterEnd, behind_end, inner_ends};
ghost use Rattle.answer_lines.specs.Going.{Goes};
ghost use Rattle.answer_lines.specs.Lawful.{IsRead};
ghost use Rattle.evidence_reader.specs.Stops.{StopsReader};

use answer_lines::{OtherText, TextLeft};
use cost_base::Refusal;
use evidence_reader::{AnswerFault, fault_at, nothing_left};

/// The end of the text: its last line `end`, and nothing behind that.
///
/// # Errors
///
/// `Refused` where the text ends before that line, or something stands behind it.
pub(crate) fn pass_unread(text: TextLeft<'_>, of: OtherText) -> Result<(), Refusal<AnswerFault>>
    ensures { MatchResult result (λ _. (unread : List (List ℕ)) × (after : ℕ) ×
        IsRead (AtUnread (inner_ends of)) text.entry.read text.entry.left.now unread AfterEnd after
        []) (StopsReader (AtUnread (inner_ends of)) text.entry) }
{
    match of {
        OtherText::Total => {
            let inner = pass_end(text)?;
            pass_last(inner)
        }
        OtherText::Spread | OtherText::Change => pass_last(text),
    }
}

/// The end of the text, where no further line `end` stands before the last one.
fn pass_last(text: TextLeft<'_>) -> Result<(), Refusal<AnswerFault>>
    ensures { MatchResult result (λ _. (unread : List (List ℕ)) × (after : ℕ) ×
        IsRead (AtUnread 0) text.entry.read text.entry.left.now unread AfterEnd after [])
        (StopsReader (AtUnread 0) text.entry) }
{
    let behind = pass_end(text)?;
    nothing_left(behind)
}

/// The text behind its next line `end`.
fn pass_end(text: TextLeft<'_>) -> Result<TextLeft<'_>, Refusal<AnswerFault>>
    ensures { (more : ℕ) → MatchResult result (λ rest. (unread : List (List ℕ)) ×
        Goes (AtUnread more) text.entry unread (behind_end more) rest)
        (StopsReader (AtUnread more) text.entry) }
{
    let mut left = text;
    loop {
        let Some((line, rest)) = left.any_line() else {
            return Err(fault_at(left, true));
        };
        if line == b"end".as_slice() {
            return Ok(rest);
        }
        left = rest;
    }
}
