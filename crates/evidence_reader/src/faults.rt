//! What is wrong with a text where no lawful line stands first.
ghost use Rattle.std.specs.Prelude.{◌≡◌, ◌≢◌, [], IsTrue, ◌↔◌, IfErr, MatchResult};
ghost use Rattle.answer_lines.specs.Grammar.{TextPlace, AfterEnd};
ghost use Rattle.evidence_reader.specs.Refusals.{IsFault};
ghost use Rattle.answer_lines.specs.Places.{LacksLawful, BeginsLawful};
ghost use Rattle.evidence_reader.specs.Stops.{StopsReader};

use crate::fault::AnswerFault;
use answer_lines::TextLeft;
use cost_base::Refusal;
use text_lines::cut;

/// The refusal of a text where no lawful line stands first, of which it is known whether a lawful line begins with it.
pub fn fault_at(text: TextLeft<'_>, begins: bool) -> Refusal<AnswerFault>
    ensures stops { (place : TextPlace) → place ≢ AfterEnd → LacksLawful place text.entry.left.now →
        (IsTrue begins ↔ BeginsLawful place text.entry.left.now) →
        StopsReader place text.entry result }
    ensures told { result ≢ Refusal.OutOfMemory }
{
    Refusal::at(text.read + 1, fault_kind(text.left, begins))
}

/// Whether a line is at fault or the end of the text comes too early.
fn fault_kind(rest: &[u8], begins: bool) -> AnswerFault
    ensures { (place : TextPlace) → place ≢ AfterEnd → LacksLawful place rest.now →
        (IsTrue begins ↔ BeginsLawful place rest.now) → IsFault place rest.now result }
{
    match cut(rest, b'\n') {
        Some(_) => AnswerFault::BadAnswerLine,
        None => {
            if rest.is_empty() || begins {
                AnswerFault::EarlyEnd
            } else {
                AnswerFault::BadAnswerLine
            }
        }
    }
}

/// Nothing stands behind the `end` line.
///
/// # Errors
///
/// `Refused` where something does.
pub fn nothing_left(text: TextLeft<'_>) -> Result<(), Refusal<AnswerFault>>
    ensures end { MatchResult result (λ _. text.entry.left.now ≡ [])
        (StopsReader AfterEnd text.entry) }
    ensures told { IfErr result (λ stop. stop ≢ Refusal.OutOfMemory) }
{
    if text.left.is_empty() {
        Ok(())
    } else {
        Err(Refusal::at(text.read + 1, AnswerFault::AfterEnd))
    }
}
