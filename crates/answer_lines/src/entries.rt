//! Reading the tree lines of an answer.
ghost use Rattle.std.specs.Prelude.{◌≡◌, ◌≢◌, ℕ, ◌+◌, ◌<◌, ◌≤◌, ◌^◌, List, [], ◌∷◌, ◌++◌, All, AllPairs, MatchOption, IfOk, IsTrue, false, codes, length};
ghost use Rattle.std.specs.Prelude.{slice_index_or};
ghost use Rattle.cost_base.specs.Decimal.{decimal};
ghost use Rattle.cost_base.specs.declared.StepName.{StepName};
ghost use Rattle.design_problem.specs.declared.tree.Side.{Side};
ghost use Rattle.design_problem.specs.declared.tree.Member.{Member};
ghost use Rattle.design_problem.specs.declared.tree.Entry.{Entry};
ghost use Rattle.design_problem.specs.AnswerRanges.{IsIndex, IsCost, IsRowNumber, BoundsMember, BoundsParts, BoundsEntry};
ghost use Rattle.design_problem.specs.Text.{side_word, step_word, member_words, members_words, multiplier_words, entry_line, FitsEntry};
ghost use Rattle.text_lines.specs.Numbers.{split};
ghost use Rattle.cost_base.specs.declared.Ratio.{Ratio};
ghost use Rattle.answer_lines.specs.declared.entries.HalveFront.{HalveFront};
ghost use Rattle.answer_lines.specs.Fronts.{IsHalveFront, front_words};
ghost use Rattle.design_problem.specs.Text.{ratio_word, IsPrintedRatio};
ghost use Rattle.answer_lines.specs.Words.{words_left, SaysEntry, SaysNoEntry};

use crate::ratios::ratio_of;
use crate::words::Pieces;
use cost_base::{Listed, OutOfMemory};
use design_problem::{Entry, Member, Multipliers, Ratio, Side, StepName, WideAt};
use std::alloc::Global;

/// The greatest number of a variable.
pub const GREATEST_VAR: u128 = 4_294_967_295;
/// The greatest number of a row.
pub const GREATEST_ROW: u128 = 18_446_744_073_709_551_615;
/// The greatest bound of a range, or cap: that of an interface's cost.
pub const GREATEST_VALUE: u128 = 65_535;
/// The greatest multiplier, of 31 digits.
pub const GREATEST_MULTIPLIER: u128 = 9_999_999_999_999_999_999_999_999_999_999;

/// The entry that a line says.
///
/// # Errors
///
/// `OutOfMemory` where a growth was refused.
pub fn entry_of(alloc: Global, line: &[u8]) -> Result<Option<Entry>, OutOfMemory>
    ensures { IfOk result (λ found. MatchOption found ((entry : Entry) → BoundsEntry entry →
        FitsEntry entry → line.now ≢ entry_line entry) (λ entry. BoundsEntry entry ×
        FitsEntry entry × (line.now ≡ entry_line entry))) }
{
    entry_of_words(alloc, line)
}

/// The entry that the words of a line say.
fn entry_of_words(alloc: Global, line: &[u8]) -> Result<Option<Entry>, OutOfMemory>
    ensures { IfOk result (λ found. MatchOption found (SaysNoEntry (split 32 line.now))
        (λ entry. SaysEntry (split 32 line.now) entry)) }
{
    let words = Pieces::new(line);
    if let Some(rest) = words.behind(b"tighten") {
        return Ok(tighten_of(rest));
    }
    if let Some(rest) = words.behind(b"split") {
        return Ok(split_of(rest));
    }
    if let Some(rest) = words.behind(b"halve") {
        return halve_of(alloc, rest);
    }
    if let Some(rest) = words.behind(b"refute") {
        return refute_of(alloc, rest);
    }
    Ok(undone_of(words))
}

/// The entry of `open`.
fn undone_of(words: Pieces<'_>) -> Option<Entry>
    ensures { MatchOption result (words_left words.entry ≢ codes "open" ∷ [])
        (λ entry. SaysEntry (words_left words.entry) entry) }
{
    let rest = words.behind(b"open")?;
    if rest.is_done() {
        Some(Entry::Undone)
    } else {
        None
    }
}

/// The entry with these words behind `split`.
fn split_of(words: Pieces<'_>) -> Option<Entry>
    ensures { MatchOption result (SaysNoEntry (codes "split" ∷ words_left words.entry))
        (λ entry. SaysEntry (codes "split" ∷ words_left words.entry) entry) }
{
    let (var, behind_var) = words.number(GREATEST_VAR)?;
    let value = last_number(behind_var, GREATEST_VALUE)?;
    Some(Entry::Split {
        var: var as u32,
        value: value as u16,
    })
}

/// The entry with these words behind `tighten`.
fn tighten_of(words: Pieces<'_>) -> Option<Entry>
    ensures { MatchOption result (SaysNoEntry (codes "tighten" ∷ words_left words.entry))
        (λ entry. SaysEntry (codes "tighten" ∷ words_left words.entry) entry) }
{
    let (var, behind_var) = words.number(GREATEST_VAR)?;
    let (side, behind_side) = side_of(behind_var)?;
    let (value, behind_value) = behind_side.number(GREATEST_VALUE)?;
    let row = last_number(behind_value, GREATEST_ROW)?;
    Some(Entry::Tighten {
        var: var as u32,
        side,
        value: value as u16,
        row: row as u64,
    })
}

/// The number that is the last word.
fn last_number(words: Pieces<'_>, greatest: u128) -> Option<u128>
    ensures { MatchOption result ((n : ℕ) → n ≤ greatest → words_left words.entry ≢ decimal n ∷ [])
        (λ n. (n ≤ greatest) × (words_left words.entry ≡ decimal n ∷ [])) }
{
    let (number, rest) = words.number(greatest)?;
    if rest.is_done() { Some(number) } else { None }
}

/// The side that is the next word, and the words behind it.
fn side_of(words: Pieces<'_>) -> Option<(Side, Pieces<'_>)>
    ensures { MatchOption result ((side : Side) (rest : List (List ℕ)) →
        words_left words.entry ≢ side_word side ∷ rest) (λ r.
        words_left words.entry ≡ side_word r.0 ∷ words_left r.1) }
{
    if let Some(rest) = words.behind(b"low") {
        return Some((Side::Low, rest));
    }
    let rest = words.behind(b"high")?;
    Some((Side::High, rest))
}

/// The entry with these words behind `refute`.
fn refute_of(alloc: Global, words: Pieces<'_>) -> Result<Option<Entry>, OutOfMemory>
    ensures { IfOk result
        (λ found. MatchOption found (SaysNoEntry (codes "refute" ∷ words_left words.entry))
        (λ entry. SaysEntry (codes "refute" ∷ words_left words.entry) entry)) }
{
    if words.is_done() {
        return Ok(None);
    }
    let Some(parts) = parts_of(alloc, words)? else {
        return Ok(None);
    };
    Ok(Some(Entry::Refute {
        parts: Multipliers::from_items(parts),
    }))
}

/// The rows with their multipliers that words say.
fn parts_of(alloc: Global, words: Pieces<'_>) -> Result<Option<Vec<(u64, u128)>>, OutOfMemory>
    ensures { IfOk result (λ found. MatchOption found ((ps : List (ℕ × ℕ)) → BoundsParts ps →
        All (λ part. part.1 < 10 ^ 31) ps → words_left words.entry ≢ multiplier_words ps)
        (λ ps. BoundsParts ps.items × All (λ part. part.1 < 10 ^ 31) ps.items ×
        (words_left words.entry ≡ multiplier_words ps.items))) }
{
    let mut parts = Vec::new(alloc);
    let mut left = words;
    while !left.is_done() {
        let Some((part, rest)) = part_of(left) else {
            return Ok(None);
        };
        if !rises(parts.as_slice(), part.0) {
            return Ok(None);
        }
        parts.push(part)?;
        left = rest;
    }
    Ok(Some(parts))
}

/// The row with its multiplier that the next two words say, and the words behind them.
pub fn part_of(words: Pieces<'_>) -> Option<((u64, u128), Pieces<'_>)>
    ensures { MatchOption result ((row m : ℕ) (rest : List (List ℕ)) → IsRowNumber row → 0 < m →
        m < 10 ^ 31 → words_left words.entry ≢ decimal row ∷ decimal m ∷ rest)
        (λ r. IsRowNumber r.0.0 × (0 < r.0.1) × (r.0.1 < 10 ^ 31) ×
        (words_left words.entry ≡ decimal r.0.0 ∷ decimal r.0.1 ∷ words_left r.1)) }
{
    let (row, behind_row) = words.number(GREATEST_ROW)?;
    let (multiplier, rest) = behind_row.number(GREATEST_MULTIPLIER)?;
    if multiplier == 0 {
        None
    } else {
        Some(((row as u64, multiplier), rest))
    }
}

/// Whether a row comes behind all rows of parts.
fn rises(parts: &[(u64, u128)], row: u64) -> bool
    requires { AllPairs (λ a b. a.0 < b.0) parts.now }
    ensures rise { IsTrue result → (k : ℕ) (d : ℕ × ℕ) → k < length parts.now →
        (slice_index_or parts.now k d).0 < row }
    ensures fall { result ≡ false → (k : ℕ) × (k < length parts.now) ×
        ((d : ℕ × ℕ) → row ≤ (slice_index_or parts.now k d).0) }
{
    match parts.last() {
        Some(last) => last.0 < row,
        None => true,
    }
}

/// What a `halve` line says before its basis.
#[derive(Clone, Copy)]
struct HalveFront {
    var: u32,
    value: u16,
    step: StepName,
    left: Ratio,
    right: Ratio,
}

/// The entry with these words behind `halve`.
fn halve_of(alloc: Global, words: Pieces<'_>) -> Result<Option<Entry>, OutOfMemory>
    ensures { IfOk result
        (λ found. MatchOption found (SaysNoEntry (codes "halve" ∷ words_left words.entry))
        (λ entry. SaysEntry (codes "halve" ∷ words_left words.entry) entry)) }
{
    let Some((front, rest)) = halve_front(words) else {
        return Ok(None);
    };
    if rest.is_done() {
        return Ok(None);
    }
    let Some(basis) = members_of(alloc, rest)? else {
        return Ok(None);
    };
    Ok(Some(Entry::Halve {
        var: front.var,
        value: front.value,
        wide: WideAt {
            step: front.step,
            left: front.left,
            right: front.right,
            basis: Listed::from_items(basis),
        },
    }))
}

/// What the words behind `halve` say before the basis, and the words behind that.
fn halve_front(words: Pieces<'_>) -> Option<(HalveFront, Pieces<'_>)>
    ensures { MatchOption result ((front : HalveFront) (rest : List (List ℕ)) → IsHalveFront front →
        words_left words.entry ≢ front_words front rest) (λ r. IsHalveFront r.0 ×
        (words_left words.entry ≡ front_words r.0 (words_left r.1))) }
{
    let (var, behind_var) = words.number(GREATEST_VAR)?;
    let (value, behind_value) = behind_var.number(GREATEST_VALUE)?;
    let (step, behind_step) = step_of(behind_value)?;
    let (left, behind_left) = next_ratio(behind_step)?;
    let (right, rest) = next_ratio(behind_left)?;
    Some((
        HalveFront {
            var: var as u32,
            value: value as u16,
            step,
            left,
            right,
        },
        rest,
    ))
}

/// The fraction that is the next word, and the words behind it.
fn next_ratio(words: Pieces<'_>) -> Option<(Ratio, Pieces<'_>)>
    ensures { MatchOption result ((q : Ratio) (rest : List (List ℕ)) → IsPrintedRatio q →
        words_left words.entry ≢ ratio_word q ∷ rest) (λ r. IsPrintedRatio r.0 ×
        (words_left words.entry ≡ ratio_word r.0 ∷ words_left r.1)) }
{
    let (word, rest) = words.word()?;
    let ratio = ratio_of(word)?;
    Some((ratio, rest))
}

/// The step that is the next word, and the words behind it.
fn step_of(words: Pieces<'_>) -> Option<(StepName, Pieces<'_>)>
    ensures { MatchOption result ((step : StepName) (rest : List (List ℕ)) →
        words_left words.entry ≢ step_word step ∷ rest) (λ r.
        words_left words.entry ≡ step_word r.0 ∷ words_left r.1) }
{
    let (word, rest) = words.word()?;
    let step = step_named(word)?;
    Some((step, rest))
}

/// The step of a name.
fn step_named(word: &[u8]) -> Option<StepName>
    ensures { MatchOption result ((step : StepName) → word.now ≢ step_word step)
        (λ step. word.now ≡ step_word step) }
{
    match word {
        b"add" => Some(StepName::Add),
        b"sub" => Some(StepName::Sub),
        b"mul" => Some(StepName::Mul),
        b"div" => Some(StepName::Div),
        b"lcm" => Some(StepName::Lcm),
        b"scale" => Some(StepName::Scale),
        _ => None,
    }
}

/// The members of a basis that words say.
fn members_of(alloc: Global, words: Pieces<'_>) -> Result<Option<Vec<Member>>, OutOfMemory>
    ensures { IfOk result (λ found. MatchOption found ((ms : List Member) → All BoundsMember ms →
        words_left words.entry ≢ members_words ms) (λ ms. All BoundsMember ms.items ×
        (words_left words.entry ≡ members_words ms.items))) }
{
    let mut members = Vec::new(alloc);
    let mut left = words;
    while !left.is_done() {
        let Some((member, rest)) = member_of(left) else {
            return Ok(None);
        };
        members.push(member)?;
        left = rest;
    }
    Ok(Some(members))
}

/// The member of a basis that the next words say, and the words behind them.
pub fn member_of(words: Pieces<'_>) -> Option<(Member, Pieces<'_>)>
    ensures { MatchOption result ((member : Member) (rest : List (List ℕ)) → BoundsMember member →
        words_left words.entry ≢ member_words member ++ rest)
        (λ r. BoundsMember r.0 × (words_left words.entry ≡ member_words r.0 ++ words_left r.1)) }
{
    if let Some(numbers) = words.behind(b"row") {
        let (row, rest) = numbers.number(GREATEST_ROW)?;
        return Some((Member::Row(row as u64), rest));
    }
    let (side, numbers) = side_of(words)?;
    let (bound, rest) = bound_of(side, numbers)?;
    Some((bound, rest))
}

/// The member of a bound of a variable, whose side is known, and the words behind it.
fn bound_of(side: Side, words: Pieces<'_>) -> Option<(Member, Pieces<'_>)>
    ensures { MatchOption result ((var value : ℕ) (rest : List (List ℕ)) → IsIndex var →
        IsCost value → words_left words.entry ≢ decimal var ∷ decimal value ∷ rest)
        (λ r. BoundsMember r.0 × (side_word side ∷ words_left words.entry ≡
        member_words r.0 ++ words_left r.1)) }
{
    let (var, behind_var) = words.number(GREATEST_VAR)?;
    let (value, rest) = behind_var.number(GREATEST_VALUE)?;
    let var = var as u32;
    let value = value as u16;
    match side {
        Side::Low => Some((Member::Low(var, value), rest)),
        Side::High => Some((Member::High(var, value), rest)),
    }
}
