//! Reading the rows of an answer.
ghost use Rattle.std.specs.Prelude.{◌≡◌, ◌≢◌, ℕ, ◌+◌, ◌<◌, ◌≤◌, List, [], ◌∷◌, All, MatchOption, IfOk, map, length};
ghost use Rattle.cost_base.specs.Decimal.{decimal};
ghost use Rattle.design_problem.specs.declared.form.Row.{Row};
ghost use Rattle.design_problem.specs.AnswerRanges.{IsIndex, BoundsRow};
ghost use Rattle.design_problem.specs.Text.{row_line};
ghost use Rattle.answer_lines.specs.Words.{words_left};

use crate::words::Pieces;
use cost_base::{Listed, OutOfMemory};
use design_problem::Row;
use std::alloc::Global;

/// The row that a line says.
///
/// # Errors
///
/// `OutOfMemory` where a growth was refused.
pub fn row_of(alloc: Global, line: &[u8]) -> Result<Option<Row>, OutOfMemory>
    ensures { IfOk result (λ found. MatchOption found ((row : Row) → BoundsRow row →
        line.now ≢ row_line row) (λ row. BoundsRow row × (line.now ≡ row_line row))) }
{
    let Some(numbers) = Pieces::new(line).behind(b"row") else {
        return Ok(None);
    };
    let Some((request, edges)) = numbers.number(4_294_967_295) else {
        return Ok(None);
    };
    let Some(edges) = numbers_of(alloc, edges)? else {
        return Ok(None);
    };
    Ok(Some(Row {
        request: request as u32,
        rival: Listed::from_items(edges),
    }))
}

/// The numbers that words say, each at most 4294967295.
fn numbers_of(alloc: Global, words: Pieces<'_>) -> Result<Option<Vec<u32>>, OutOfMemory>
    ensures { IfOk result (λ found. MatchOption found ((ns : List ℕ) → All IsIndex ns →
        words_left words.entry ≢ map decimal ns)
        (λ ns. (words_left words.entry ≡ map decimal ns.items) × All IsIndex ns.items)) }
{
    let mut numbers = Vec::new(alloc);
    let mut left = words;
    while !left.is_done() {
        let Some((number, rest)) = left.number(4_294_967_295) else {
            return Ok(None);
        };
        numbers.push(number as u32)?;
        left = rest;
    }
    Ok(Some(numbers))
}
