//! Reading the lines of an answer that have at most one number.
ghost use Rattle.std.specs.Prelude.{◌≡◌, ◌≢◌, ℕ, ◌+◌, ◌<◌, List, [], ◌∷◌, MatchOption, MatchResult, codes};
ghost use Rattle.design_problem.specs.AnswerRanges.{IsIndex, IsCost, IsRowNumber, BoundsVerdict, BoundsFloor};
ghost use Rattle.design_problem.specs.Text.{verdict_line, floor_line, rows_line};
ghost use Rattle.evidence_text.specs.Parts.{tree_line};
ghost use Rattle.answer_lines.specs.Grammar.{AtHead, AtVerdict, AtCosts, AtFloor, AtSections, AtRows, AtRow, AtTree, AtEnd, AfterEnd};
ghost use Rattle.answer_lines.specs.Places.{LacksLawful};
ghost use Rattle.answer_lines.specs.Going.{Goes};

use crate::text_left::TextLeft;
use crate::words::{Pieces, number_after};
use design_problem::{Floor, Verdict};
use evidence_text::{TreePart, part_word};

/// The verdict that a line says.
pub(crate) fn verdict_of(line: &[u8]) -> Option<Verdict>
    ensures { MatchOption result ((verdict : Verdict) → BoundsVerdict verdict →
        line.now ≢ verdict_line verdict) (λ verdict. BoundsVerdict verdict ×
        (line.now ≡ verdict_line verdict)) }
{
    if line == b"verdict impossible".as_slice() {
        return Some(Verdict::Impossible);
    }
    if let Some(greatest) = number_after(line, b"verdict optimal ", 65_535) {
        return Some(Verdict::Optimal(greatest as u16));
    }
    let cap = number_after(line, b"verdict undecided budget ", 65_535)?;
    Some(Verdict::Undecided(cap as u16))
}

/// The floor that a line says.
pub fn floor_of(line: &[u8]) -> Option<Floor>
    ensures { MatchOption result ((floor : Floor) → BoundsFloor floor → line.now ≢ floor_line floor)
        (λ floor. BoundsFloor floor × (line.now ≡ floor_line floor)) }
{
    if line == b"floor none".as_slice() {
        return Some(Floor::Absent);
    }
    if line == b"floor empty".as_slice() {
        return Some(Floor::Empty);
    }
    let var = number_after(line, b"floor ", 4_294_967_295)?;
    Some(Floor::Var(var as u32))
}

/// The verdict, where its line is the next, and the text behind it.
pub fn verdict_next(text: TextLeft<'_>) -> Option<(Verdict, TextLeft<'_>)>
    ensures { MatchOption result (LacksLawful AtVerdict text.entry.left.now)
        (λ r. BoundsVerdict r.0 × Goes AtVerdict text.entry (verdict_line r.0 ∷ []) AtCosts r.1) }
{
    let (line, rest) = text.line()?;
    let verdict = verdict_of(line)?;
    Some((verdict, rest))
}

/// The floor behind `costs none`, where its line is the next, and the text behind it.
pub fn floor_next(text: TextLeft<'_>) -> Option<(Floor, TextLeft<'_>)>
    ensures { MatchOption result (LacksLawful AtFloor text.entry.left.now)
        (λ r. BoundsFloor r.0 × Goes AtFloor text.entry (floor_line r.0 ∷ []) AtRows r.1) }
{
    let (line, rest) = text.line()?;
    let floor = floor_of(line)?;
    Some((floor, rest))
}

/// How many rows there are, where the line of that is the next, and the text behind it.
pub fn rows_next(text: TextLeft<'_>) -> Option<(u64, TextLeft<'_>)>
    ensures { MatchOption result (LacksLawful AtRows text.entry.left.now)
        (λ r. Goes AtRows text.entry (rows_line r.0 ∷ []) (AtRow r.0) r.1) }
{
    let (line, rest) = text.line()?;
    let count = number_after(line, b"rows ", 18_446_744_073_709_551_615)?;
    Some((count as u64, rest))
}

/// The cap of a tree, and how many lines it has, as the head of this part says.
pub fn tree_head_of(line: &[u8], part: TreePart) -> Option<(u16, u32)>
    ensures { MatchOption result ((cap count : ℕ) → IsCost cap → IsIndex count →
        line.now ≢ tree_line part cap count) (λ r. line.now ≡ tree_line part r.0 r.1) }
{
    let numbers = Pieces::new(line).behind(part_word(part))?;
    let (cap, behind) = numbers.number(65_535)?;
    let (count, rest) = behind.number(4_294_967_295)?;
    if rest.is_done() {
        Some((cap as u16, count as u32))
    } else {
        None
    }
}
