//! Tree lines of an answer that are begun.
ghost use Rattle.std.specs.Prelude.{◌≡◌, ◌≢◌, ℕ, suc, ◌+◌, ◌<◌, ◌≤◌, ◌∷◌, ◌++◌, List, MatchOption, IsTrue, ◌↔◌, length};
ghost use Rattle.cost_base.specs.Decimal.{decimal};
ghost use Rattle.design_problem.specs.declared.tree.Member.{Member};
ghost use Rattle.design_problem.specs.AnswerRanges.{BoundsMember};
ghost use Rattle.design_problem.specs.Text.{side_word, step_word, member_words};
ghost use Rattle.text_lines.specs.Numbers.{split};
ghost use Rattle.evidence_text.specs.declared.TreePart.{TreePart};
ghost use Rattle.answer_lines.specs.Grammar.{AtTree};
ghost use Rattle.answer_lines.specs.Places.{BeginsLawful};
ghost use Rattle.begun_lines.specs.BegunLines.{Becomes, Then, Alone, IsCoprimeInRange, IsNumberInRange, IsSide, IsStepWord, IsEitherStep, IsLaterStep, rows_from, multiplier_range};
ghost use Rattle.begun_lines.specs.BegunLines.{LeafWords, ParentWords, PartingWords, SplitWords, BoundWords, TightenWords, PartsWords, RefuteWords, RowWords};
ghost use Rattle.begun_lines.specs.BegunLines.{EndWords, MemberWords, MembersWords, BasisWords, HalveWords, EntryWords};

use crate::begun::Begun;
use crate::numbers::Numbers;
use answer_lines::{
    GREATEST_MULTIPLIER, GREATEST_ROW, GREATEST_VALUE, GREATEST_VAR, LONGEST, Pieces, member_of,
    part_of,
};
use design_problem::{Side, StepName};
use evidence_text::{side_word, step_word};

/// The numbers of variables.
const VARS: Numbers = Numbers {
    least: 0,
    greatest: GREATEST_VAR,
    coprime_to: 1,
};
/// The bounds.
const VALUES: Numbers = Numbers {
    least: 0,
    greatest: GREATEST_VALUE,
    coprime_to: 1,
};
/// The numbers of rows.
const ROWS: Numbers = Numbers {
    least: 0,
    greatest: GREATEST_ROW,
    coprime_to: 1,
};
/// The multipliers.
const MULTIPLIERS: Numbers = Numbers {
    least: 1,
    greatest: GREATEST_MULTIPLIER,
    coprime_to: 1,
};

/// Whether a lawful tree line begins with these bytes.
pub fn begins_entry(rest: &[u8]) -> bool
    ensures { (part : TreePart) (places left : ℕ) →
        (IsTrue result ↔ BeginsLawful (AtTree part (suc places) (suc left)) rest.now) }
{
    match LONGEST.checked_sub(rest.len()) {
        Some(room) => becomes_entry(Begun { text: rest, room }),
        None => false,
    }
}

/// Whether a begun line may become an entry.
fn becomes_entry(line: Begun<'_>) -> bool
    ensures { IsTrue result ↔ Becomes EntryWords line.entry }
{
    becomes_leaf(line) || becomes_parent(line)
}

/// Whether a begun line may become an entry without a subtree.
fn becomes_leaf(line: Begun<'_>) -> bool
    ensures { IsTrue result ↔ Becomes LeafWords line.entry }
{
    becomes_refute(line) || line.last_name(b"open")
}

/// Whether a begun line may become an entry with subtrees.
fn becomes_parent(line: Begun<'_>) -> bool
    ensures { IsTrue result ↔ Becomes ParentWords line.entry }
{
    becomes_tighten(line) || becomes_parting(line)
}

/// Whether a begun line may become an entry with two subtrees.
fn becomes_parting(line: Begun<'_>) -> bool
    ensures { IsTrue result ↔ Becomes PartingWords line.entry }
{
    becomes_split(line) || becomes_halve(line)
}

/// Whether a begun line may become a `split`.
fn becomes_split(line: Begun<'_>) -> bool
    ensures { IsTrue result ↔ Becomes SplitWords line.entry }
{
    let Some(at_var) = line.name(b"split") else {
        return false;
    };
    let Some(at_value) = at_var.number(VARS) else {
        return false;
    };
    at_value.last_number(VALUES)
}

/// Whether a begun line may become a `tighten`.
fn becomes_tighten(line: Begun<'_>) -> bool
    ensures { IsTrue result ↔ Becomes TightenWords line.entry }
{
    let Some(at_var) = line.name(b"tighten") else {
        return false;
    };
    let Some(at_side) = at_var.number(VARS) else {
        return false;
    };
    goes_on_with_sides(at_side)
}

/// Whether a `tighten` line may go on with a side.
fn goes_on_with_sides(line: Begun<'_>) -> bool
    ensures { IsTrue result ↔ Becomes (Then IsSide BoundWords) line.entry }
{
    goes_on_with_side(line, Side::Low) || goes_on_with_side(line, Side::High)
}

/// Whether a `tighten` line may go on with this side.
fn goes_on_with_side(line: Begun<'_>, side: Side) -> bool
    ensures { IsTrue result ↔ Becomes (Then (λ w. w ≡ side_word side) BoundWords) line.entry }
{
    let Some(at_value) = line.name(side_word(side)) else {
        return false;
    };
    let Some(at_row) = at_value.number(VALUES) else {
        return false;
    };
    at_row.last_number(ROWS)
}

/// Whether a begun line may become a `refute`.
fn becomes_refute(line: Begun<'_>) -> bool
    ensures { IsTrue result ↔ Becomes RefuteWords line.entry }
{
    match line.name(b"refute") {
        Some(at_parts) => goes_on_with_parts(at_parts),
        None => false,
    }
}

/// Whether a `refute` line may go on with rows and multipliers.
fn goes_on_with_parts(line: Begun<'_>) -> bool
    ensures { IsTrue result ↔ Becomes (PartsWords 0) line.entry }
{
    let mut text = line.text;
    let mut least: u128 = 0;
    while let Some((row, rest)) = behind_part(text) {
        if u128::from(row) < least {
            return false;
        }
        least = u128::from(row) + 1;
        text = rest;
    }
    ends_with_part(
        Begun {
            text,
            room: line.room,
        },
        least,
    )
}

/// The row of the next two words, and the text behind them, where there is one.
fn behind_part(text: &[u8]) -> Option<(u64, &[u8])>
    ensures { MatchOption result ((row m : ℕ) (rest : List ℕ) → IsCoprimeInRange (rows_from 0) row →
        IsCoprimeInRange multiplier_range m → split 32 text.now ≢
        decimal row ∷ decimal m ∷ split 32 rest) (λ r. (m : ℕ) ×
        IsCoprimeInRange (rows_from 0) r.0 × IsCoprimeInRange multiplier_range m ×
        (split 32 text.now ≡ decimal r.0 ∷ decimal m ∷ split 32 r.1.now)) }
{
    let ((row, _), rest) = part_of(Pieces::new(text))?;
    let behind = rest.text()?;
    Some((row, behind))
}

/// Whether a `refute` line may end with a row from this one on, and its multiplier.
fn ends_with_part(line: Begun<'_>, least: u128) -> bool
    ensures { IsTrue result ↔
        Becomes
        (Then (IsNumberInRange (rows_from least)) (Alone (IsNumberInRange multiplier_range)))
        line.entry }
{
    let rows = Numbers {
        least,
        greatest: GREATEST_ROW,
        coprime_to: 1,
    };
    match line.number(rows) {
        Some(at_multiplier) => at_multiplier.last_number(MULTIPLIERS),
        None => false,
    }
}

/// Whether a begun line may become a `halve`.
fn becomes_halve(line: Begun<'_>) -> bool
    ensures { IsTrue result ↔ Becomes HalveWords line.entry }
{
    let Some(at_var) = line.name(b"halve") else {
        return false;
    };
    let Some(at_value) = at_var.number(VARS) else {
        return false;
    };
    let Some(at_step) = at_value.number(VALUES) else {
        return false;
    };
    goes_on_with_steps(at_step)
}

/// Whether a `halve` line may go on with a step.
fn goes_on_with_steps(line: Begun<'_>) -> bool
    ensures { IsTrue result ↔ Becomes (Then IsStepWord BasisWords) line.entry }
{
    goes_on_with_either(line, StepName::Add, StepName::Sub) || goes_on_with_later_steps(line)
}

/// Whether a `halve` line may go on with one of the last four steps.
fn goes_on_with_later_steps(line: Begun<'_>) -> bool
    ensures { IsTrue result ↔ Becomes (Then IsLaterStep BasisWords) line.entry }
{
    goes_on_with_either(line, StepName::Mul, StepName::Div)
        || goes_on_with_either(line, StepName::Lcm, StepName::Scale)
}

/// Whether a `halve` line may go on with one of two steps.
fn goes_on_with_either(line: Begun<'_>, first: StepName, second: StepName) -> bool
    ensures { IsTrue result ↔ Becomes (Then (IsEitherStep first second) BasisWords) line.entry }
{
    goes_on_with_step(line, first) || goes_on_with_step(line, second)
}

/// Whether a `halve` line may go on with this step.
fn goes_on_with_step(line: Begun<'_>, step: StepName) -> bool
    ensures { IsTrue result ↔ Becomes (Then (λ w. w ≡ step_word step) BasisWords) line.entry }
{
    let Some(at_left) = line.name(step_word(step)) else {
        return false;
    };
    let Some(at_right) = at_left.ratio() else {
        return false;
    };
    let Some(at_basis) = at_right.ratio() else {
        return false;
    };
    goes_on_with_members(at_basis)
}

/// Whether a `halve` line may go on with the members of a basis.
fn goes_on_with_members(line: Begun<'_>) -> bool
    ensures { IsTrue result ↔ Becomes MembersWords line.entry }
{
    let mut text = line.text;
    while let Some(rest) = behind_member(text) {
        text = rest;
    }
    ends_with_member(Begun {
        text,
        room: line.room,
    })
}

/// The text behind the next member of a basis, where there is one.
fn behind_member(text: &[u8]) -> Option<&[u8]>
    ensures { MatchOption result ((member : Member) (rest : List ℕ) → BoundsMember member →
        split 32 text.now ≢ member_words member ++ split 32 rest)
        (λ rest. (member : Member) × BoundsMember member ×
        (split 32 text.now ≡ member_words member ++ split 32 rest.now)) }
{
    let (_, rest) = member_of(Pieces::new(text))?;
    rest.text()
}

/// Whether a `halve` line may end with a member of a basis.
fn ends_with_member(line: Begun<'_>) -> bool
    ensures { IsTrue result ↔ Becomes MemberWords line.entry }
{
    ends_with_row(line) || ends_with_bounds(line)
}

/// Whether a `halve` line may end with the member of a bound.
fn ends_with_bounds(line: Begun<'_>) -> bool
    ensures { IsTrue result ↔ Becomes (Then IsSide EndWords) line.entry }
{
    ends_with_bound(line, Side::Low) || ends_with_bound(line, Side::High)
}

/// Whether a `halve` line may end with the member of a row.
fn ends_with_row(line: Begun<'_>) -> bool
    ensures { IsTrue result ↔ Becomes RowWords line.entry }
{
    match line.name(b"row") {
        Some(at_row) => at_row.last_number(ROWS),
        None => false,
    }
}

/// Whether a `halve` line may end with the member of a bound at this side.
fn ends_with_bound(line: Begun<'_>, side: Side) -> bool
    ensures { IsTrue result ↔ Becomes (Then (λ w. w ≡ side_word side) EndWords) line.entry }
{
    let Some(at_var) = line.name(side_word(side)) else {
        return false;
    };
    let Some(at_value) = at_var.number(VARS) else {
        return false;
    };
    at_value.last_number(VALUES)
}
