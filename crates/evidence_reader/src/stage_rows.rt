//! The stage of the rows.
ghost use Rattle.std.specs.Prelude.{◌≡◌, ℕ, zero, suc, [], ◌∷◌, MatchResult, IfOk, MatchOption, length, map};
ghost use Rattle.design_problem.specs.Text.{row_line, rows_line, rows_lines};
ghost use Rattle.answer_lines.specs.Grammar.{AtRows, AtRow};
ghost use Rattle.answer_lines.specs.Places.{LacksLawful};
ghost use Rattle.evidence_reader.specs.Stops.{StopsReader};
ghost use Rattle.answer_lines.specs.Going.{Goes};

use crate::fault::AnswerFault;
use crate::faults::fault_at;
use answer_lines::{TextLeft, row_of, rows_next};
use begun_lines::{begins_row, begins_rows};
use cost_base::{OutOfMemory, Refusal};
use design_problem::Row;
use std::alloc::Global;

/// The rows, and the text behind them.
///
/// # Errors
///
/// - `Refused` where their number or one of them is at fault.
/// - `OutOfMemory` where a growth was refused.
pub(crate) fn read_rows(
    alloc: Global,
    text: TextLeft<'_>,
) -> Result<(Vec<Row>, TextLeft<'_>), Refusal<AnswerFault>>
    ensures { MatchResult result (λ r. Goes AtRows text.entry (rows_lines r.0.items) (AtRow zero)
        r.1) (StopsReader AtRows text.entry) }
{
    let (count, rest) = rows_count(text)?;
    each_row(alloc, rest, count)
}

/// How many rows there are, where the line of that has to be the next.
fn rows_count(text: TextLeft<'_>) -> Result<(u64, TextLeft<'_>), Refusal<AnswerFault>>
    ensures { MatchResult result (λ r. Goes AtRows text.entry (rows_line r.0 ∷ []) (AtRow r.0) r.1)
        (StopsReader AtRows text.entry) }
{
    match rows_next(text) {
        Some(found) => Ok(found),
        None => Err(fault_at(text, begins_rows(text.left))),
    }
}

/// So many rows, and the text behind them.
fn each_row(
    alloc: Global,
    text: TextLeft<'_>,
    count: u64,
) -> Result<(Vec<Row>, TextLeft<'_>), Refusal<AnswerFault>>
    ensures { MatchResult result (λ r. (length r.0.items ≡ count) ×
        Goes (AtRow count) text.entry (map row_line r.0.items) (AtRow zero) r.1)
        (StopsReader (AtRow count) text.entry) }
{
    let mut rows = Vec::new(alloc);
    let mut left = text;
    for _ in 0..count {
        let (row, rest) = row_at(alloc, left)?;
        rows.push(row)?;
        left = rest;
    }
    Ok((rows, left))
}

/// The row whose line has to be the next.
fn row_at(alloc: Global, text: TextLeft<'_>) -> Result<(Row, TextLeft<'_>), Refusal<AnswerFault>>
    ensures { (left : ℕ) →
        MatchResult result (λ r. Goes (AtRow (suc left)) text.entry (row_line r.0 ∷ []) (AtRow left)
        r.1) (StopsReader (AtRow (suc left)) text.entry) }
{
    let found = row_next(alloc, text)?;
    match found {
        Some(found) => Ok(found),
        None => Err(fault_at(text, begins_row(text.left))),
    }
}

/// The row whose line is the next, if there is one.
fn row_next(alloc: Global, text: TextLeft<'_>) -> Result<Option<(Row, TextLeft<'_>)>, OutOfMemory>
    ensures { IfOk result (λ found. (left : ℕ) → MatchOption found
        (LacksLawful (AtRow (suc left)) text.entry.left.now)
        (λ r. Goes (AtRow (suc left)) text.entry (row_line r.0 ∷ []) (AtRow left) r.1)) }
{
    let Some((line, rest)) = text.line() else {
        return Ok(None);
    };
    let Some(row) = row_of(alloc, line)? else {
        return Ok(None);
    };
    Ok(Some((row, rest)))
}
