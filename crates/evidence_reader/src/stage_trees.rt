//! The stage of a part with a tree.
ghost use Rattle.std.specs.Prelude.{◌≡◌, ℕ, zero, suc, ◌+◌, ◌-◌, ◌<◌, ◌≤◌, [], ◌∷◌, All, MatchOption, MatchResult, IfOk, IsTrue, ◌↔◌, length, map};
ghost use Rattle.design_problem.specs.Text.{entry_line, tree_lines, FitsEntry, FitsTree};
ghost use Rattle.design_problem.specs.Trees.{subtree_count};
ghost use Rattle.answer_lines.specs.Grammar.{TextPlace, IsPartNext, AtTree};
ghost use Rattle.evidence_text.specs.Parts.{part_word};
ghost use Rattle.answer_lines.specs.Places.{LacksLawful, BeginsLawful};
ghost use Rattle.evidence_reader.specs.Stops.{StopsReader};
ghost use Rattle.answer_lines.specs.Going.{Goes};
ghost use Rattle.evidence_reader.specs.Stages.{before_part, part_head_line, behind_part_head};

use crate::fault::AnswerFault;
use crate::faults::fault_at;
use answer_lines::{TextLeft, entry_of, tree_head_of};
use begun_lines::{begins_entry, begins_open, begins_proof};
use cost_base::{OutOfMemory, Refusal};
use design_problem::{CapTree, Entry, Tree};
use evidence_text::{TreePart, no_tree_line};
use std::alloc::Global;

/// What the line that a part with a tree begins with says.
#[derive(Clone, Copy)]
enum PartHead {
    /// There is no tree.
    NoTree,
    /// The cap of the tree, and how many lines it has.
    TreeHead(u16, u32),
}

/// The tree of a part, if it has one, and the text behind it.
///
/// # Errors
///
/// - `Refused` where one of its lines is at fault.
/// - `OutOfMemory` where a growth was refused.
pub(crate) fn read_tree(
    alloc: Global,
    part: TreePart,
    text: TextLeft<'_>,
) -> Result<(Option<CapTree>, TextLeft<'_>), Refusal<AnswerFault>>
    ensures { MatchResult result (λ r. FitsTree r.0 × Goes (before_part part) text.entry
        (tree_lines (part_word part) r.0) (AtTree part zero zero) r.1)
        (StopsReader (before_part part) text.entry) }
{
    let (head, rest) = part_head(part, text)?;
    match head {
        PartHead::NoTree => Ok((None, rest)),
        PartHead::TreeHead(cap, count) => {
            let (tree, rest) = tree_behind(alloc, count, rest)?;
            Ok((Some(CapTree { cap, tree }), rest))
        }
    }
}

/// What the line that a part begins with says, where it has to be the next.
fn part_head(
    part: TreePart,
    text: TextLeft<'_>,
) -> Result<(PartHead, TextLeft<'_>), Refusal<AnswerFault>>
    ensures { MatchResult result (λ r. Goes (before_part part) text.entry
        (part_head_line part r.0 ∷ []) (behind_part_head part r.0) r.1)
        (StopsReader (before_part part) text.entry) }
{
    match part_head_next(part, text) {
        Some(found) => Ok(found),
        None => Err(fault_at(text, begins_part(part, text.left))),
    }
}

/// Whether the first line of a part begins with this.
fn begins_part(part: TreePart, rest: &[u8]) -> bool
    ensures { IsTrue result ↔ BeginsLawful (before_part part) rest.now }
{
    match part {
        TreePart::Proof => begins_proof(rest),
        TreePart::Undecided => begins_open(rest),
    }
}

/// What the line that a part begins with says, where it is the next.
fn part_head_next(part: TreePart, text: TextLeft<'_>) -> Option<(PartHead, TextLeft<'_>)>
    ensures { MatchOption result (LacksLawful (before_part part) text.entry.left.now)
        (λ r. Goes (before_part part) text.entry (part_head_line part r.0 ∷ [])
        (behind_part_head part r.0) r.1) }
{
    let (line, rest) = text.line()?;
    let head = part_head_of(part, line)?;
    Some((head, rest))
}

/// What a line that a part begins with says.
fn part_head_of(part: TreePart, line: &[u8]) -> Option<PartHead>
    ensures { MatchOption result ((next : TextPlace) → IsPartNext part line.now next → ⊥)
        (λ head. IsPartNext part line.now (behind_part_head part head) ×
        (line.now ≡ part_head_line part head)) }
{
    if line == no_tree_line(part) {
        return Some(PartHead::NoTree);
    }
    let (cap, count) = tree_head_of(line, part)?;
    Some(PartHead::TreeHead(cap, count))
}

/// The tree of so many lines behind the first line of its part, and the text behind it.
fn tree_behind(
    alloc: Global,
    count: u32,
    text: TextLeft<'_>,
) -> Result<(Tree, TextLeft<'_>), Refusal<AnswerFault>>
    ensures { (part : TreePart) → MatchResult result (λ r. (length r.0 ≡ count) ×
        All FitsEntry r.0 × Goes (AtTree part 1 count) text.entry (map entry_line r.0)
        (AtTree part zero zero) r.1) (StopsReader (AtTree part 1 count) text.entry) }
{
    let mut entries = Vec::new(alloc);
    let mut places = 1;
    let mut left = text;
    for _ in 0..count {
        let (entry, rest) = entry_at(alloc, places, left)?;
        places = places - 1 + subtree_count(&entry);
        entries.push(entry)?;
        left = rest;
    }
    if places == 0 {
        Ok((Tree::from_items(entries), left))
    } else {
        Err(fault_at(left, false))
    }
}

/// How many subtrees an entry has.
fn subtree_count(entry: &Entry) -> u64
    ensures count { result ≡ subtree_count entry.now }
    ensures few { result ≤ 2 }
{
    match entry {
        Entry::Tighten { .. } => 1,
        Entry::Split { .. } | Entry::Halve { .. } => 2,
        Entry::Refute { .. } | Entry::Undone => 0,
    }
}

/// The entry whose line has to be the next in a tree with so many open places, and the text behind it.
fn entry_at(
    alloc: Global,
    places: u64,
    text: TextLeft<'_>,
) -> Result<(Entry, TextLeft<'_>), Refusal<AnswerFault>>
    ensures { (part : TreePart) (left : ℕ) → MatchResult result
        (λ r. (0 < places) × FitsEntry r.0 × Goes (AtTree part places (suc left)) text.entry
        (entry_line r.0 ∷ []) (AtTree part (subtree_count r.0 + (places - 1)) left) r.1)
        (StopsReader (AtTree part places (suc left)) text.entry) }
{
    if places == 0 {
        return Err(fault_at(text, false));
    }
    entry_in_place(alloc, text)
}

/// The entry whose line has to be the next at an open place, and the text behind it.
fn entry_in_place(
    alloc: Global,
    text: TextLeft<'_>,
) -> Result<(Entry, TextLeft<'_>), Refusal<AnswerFault>>
    ensures { (part : TreePart) (places left : ℕ) → MatchResult result
        (λ r. FitsEntry r.0 × Goes (AtTree part (suc places) (suc left)) text.entry
        (entry_line r.0 ∷ []) (AtTree part (subtree_count r.0 + places) left) r.1)
        (StopsReader (AtTree part (suc places) (suc left)) text.entry) }
{
    let found = entry_next(alloc, text)?;
    match found {
        Some(found) => Ok(found),
        None => Err(fault_at(text, begins_entry(text.left))),
    }
}

/// The entry whose line is the next at an open place, and the text behind it.
fn entry_next(
    alloc: Global,
    text: TextLeft<'_>,
) -> Result<Option<(Entry, TextLeft<'_>)>, OutOfMemory>
    ensures { IfOk result (λ found. (part : TreePart) (places left : ℕ) →
        MatchOption found (LacksLawful (AtTree part (suc places) (suc left)) text.entry.left.now)
        (λ r. FitsEntry r.0 × Goes (AtTree part (suc places) (suc left)) text.entry
        (entry_line r.0 ∷ []) (AtTree part (subtree_count r.0 + places) left) r.1)) }
{
    let Some((line, rest)) = text.line() else {
        return Ok(None);
    };
    let Some(entry) = entry_of(alloc, line)? else {
        return Ok(None);
    };
    Ok(Some((entry, rest)))
}
