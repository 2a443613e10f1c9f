//! The parts of an answer's text behind a text.
ghost use Rattle.std.specs.Prelude.{◌≡◌, ◌++◌, None, Some, IfOk, OnOk};
ghost use Rattle.std.specs.Option.{option_copied};
ghost use Rattle.design_problem.specs.Text.{text, cost_lines, costs_lines, tree_lines, rows_lines};
ghost use Rattle.text_lines.specs.Lines.{with_ends};
ghost use Rattle.evidence_text.specs.Lines.{AreShort};
ghost use Rattle.evidence_text.specs.Parts.{part_word};

use crate::line_buffer::LineBuffer;
use crate::put_parts::{put_capped_tree, put_cost_lines};
use crate::text_buffer::TextBuffer;
use crate::{TreePart, put_answer, put_costs, put_rows, put_tree};
use cost_base::OutOfMemory;
use design_problem::{Answer, CapTree, CostLine, Costs, Row, Tree};
use std::alloc::Global;
use std::mem::replace;

/// The text of an answer.
///
/// # Errors
///
/// `OutOfMemory`.
pub fn text_of_answer(alloc: Global, answer: &Answer) -> Result<Vec<u8>, OutOfMemory>
    ensures { IfOk result (λ bytes. bytes.items ≡ text answer.now) }
{
    let mut buffer = TextBuffer::from_bytes(Vec::new(alloc));
    let put = put_answer(answer, &mut buffer);
    buffer.whole(put)
}

/// Adds the lines of costs at the end, as the text of an answer has them.
///
/// # Errors
///
/// `OutOfMemory`.
pub fn push_costs(
    alloc: Global,
    text: &mut Vec<u8>,
    costs: Option<&Costs>,
) -> Result<(), OutOfMemory>
    requires { AreShort (costs_lines (option_copied costs)) }
    ensures { OnOk result (text.new.items ≡ text.old.items ++ with_ends
        (costs_lines (option_copied costs.entry))) }
{
    let mut buffer = TextBuffer::from_bytes(replace(text, Vec::new(alloc)));
    let put = put_costs(costs, &mut buffer);
    *text = buffer.whole(put)?;
    Ok(())
}

/// Adds cost lines at the end, as the text of an answer has them behind their count.
///
/// # Errors
///
/// `OutOfMemory`.
pub fn push_cost_lines(
    alloc: Global,
    text: &mut Vec<u8>,
    lines: &[CostLine],
) -> Result<(), OutOfMemory>
    requires { AreShort (cost_lines None lines.now) }
    ensures { OnOk result (text.new.items ≡ text.old.items ++ with_ends
        (cost_lines None lines.now)) }
{
    let mut buffer = TextBuffer::from_bytes(replace(text, Vec::new(alloc)));
    let put = put_cost_lines(lines, &mut buffer);
    *text = buffer.whole(put)?;
    Ok(())
}

/// Adds the lines of rows at the end, as the text of an answer has them.
///
/// # Errors
///
/// `OutOfMemory`.
pub fn push_rows(alloc: Global, text: &mut Vec<u8>, rows: &[Row]) -> Result<(), OutOfMemory>
    requires { AreShort (rows_lines rows.now) }
    ensures { OnOk result (text.new.items ≡ text.old.items ++ with_ends (rows_lines rows.now)) }
{
    let mut buffer = TextBuffer::from_bytes(replace(text, Vec::new(alloc)));
    let put = put_rows(rows, &mut buffer);
    *text = buffer.whole(put)?;
    Ok(())
}

/// Adds the lines of a tree at the end, as the text of an answer has them in this part.
///
/// # Errors
///
/// `OutOfMemory`.
pub fn push_tree(
    alloc: Global,
    text: &mut Vec<u8>,
    part: TreePart,
    tree: Option<&CapTree>,
) -> Result<(), OutOfMemory>
    requires { AreShort (tree_lines (part_word part) (option_copied tree)) }
    ensures { OnOk result (text.new.items ≡ text.old.items ++ with_ends
        (tree_lines (part_word part) (option_copied tree.entry))) }
{
    let mut buffer = TextBuffer::from_bytes(replace(text, Vec::new(alloc)));
    let put = put_tree(part, tree, &mut buffer);
    *text = buffer.whole(put)?;
    Ok(())
}

/// Adds the lines of a tree over the box at a cap at the end, as the text of an answer has them in this part.
///
/// # Errors
///
/// `OutOfMemory`.
pub fn push_capped_tree(
    alloc: Global,
    text: &mut Vec<u8>,
    part: TreePart,
    cap: u16,
    tree: &Tree,
) -> Result<(), OutOfMemory>
    requires { AreShort
        (tree_lines (part_word part) (Some (record { cap = cap; tree = tree.now }))) }
    ensures { OnOk result (text.new.items ≡ text.old.items ++ with_ends
        (tree_lines (part_word part) (Some (record { cap = cap; tree = tree.now })))) }
{
    let mut buffer = TextBuffer::from_bytes(replace(text, Vec::new(alloc)));
    let mut line = LineBuffer::new();
    let put = put_capped_tree(part, cap, tree, &mut line, &mut buffer);
    *text = buffer.whole(put)?;
    Ok(())
}

/// Adds the lines of rows at the end, and behind them those of a tree, as the text of an answer has them in this part.
///
/// # Errors
///
/// `OutOfMemory`.
pub fn push_evidence(
    alloc: Global,
    text: &mut Vec<u8>,
    rows: &[Row],
    part: TreePart,
    tree: &CapTree,
) -> Result<(), OutOfMemory>
    requires rows { AreShort (rows_lines rows.now) }
    requires tree { AreShort (tree_lines (part_word part) (Some tree.now)) }
    ensures { OnOk result (text.new.items ≡ text.old.items ++ with_ends
        (rows_lines rows.now ++ tree_lines (part_word part) (Some tree.now))) }
{
    push_rows(alloc, text, rows)?;
    push_tree(alloc, text, part, Some(tree))
}
