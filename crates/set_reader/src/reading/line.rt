//! The statements of a file of sets.
ghost use Rattle.std.specs.Prelude.{◌≡◌, ◌++◌, ◌∷◌, [], IfOk, OnOk};
ghost use Rattle.text_lines.specs.Lines.{words};
ghost use Rattle.set_reader.specs.SetLines as definition;
ghost use Rattle.set_reader.specs.SetLines.{numbers_by_words};
ghost use Rattle.set_reader.specs.ReadingSteps.{HasSeveral};

use crate::reading::statement::Statement;
use cost_base::{Listed, OutOfMemory};
use std::alloc::Global;
use text_lines::{first_word, number};

/// The first word of a statement.
const SET: &[u8] = b"set";

/// The greatest number of ten digits.
const GREATEST: u64 = 9_999_999_999;

/// What a statement says, by its first word and the text behind it.
pub(crate) fn statement_of(
    alloc: Global,
    word: &[u8],
    rest: &[u8],
) -> Result<Statement, OutOfMemory>
    ensures said { IfOk result (λ said. said ≡ definition.set_statement_by word.now
        (words rest.now)) }
    ensures several { IfOk result HasSeveral }
{
    if word == SET {
        set_line(alloc, rest)
    } else {
        Ok(Statement::Off)
    }
}

/// `set I J ..`, without its first word.
fn set_line(alloc: Global, rest: &[u8]) -> Result<Statement, OutOfMemory>
    ensures said { IfOk result (λ said. said ≡ definition.set_line (words rest.now)) }
    ensures several { IfOk result HasSeveral }
{
    match read_numbers(alloc, rest)? {
        Some(numbers) if numbers.as_slice().len() >= 2 => Ok(Statement::Numbers(numbers)),
        _ => Ok(Statement::Off),
    }
}

/// The numbers of a text's words, of at most ten digits each; None exactly where a word is no such number.
fn read_numbers(alloc: Global, text: &[u8]) -> Result<Option<Listed<u64>>, OutOfMemory>
    ensures { IfOk result (λ numbers. numbers ≡ numbers_by_words (words text.now)) }
{
    let mut numbers = Vec::new(alloc);
    let mut left = text;
    while let Some((word, rest)) = first_word(left) {
        let Some(read) = number(word, GREATEST) else {
            return Ok(None);
        };
        numbers.push(read)?;
        left = rest;
    }
    Ok(Some(Listed::from_items(numbers)))
}
