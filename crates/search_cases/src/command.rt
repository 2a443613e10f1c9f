//! The lines of a script.

use cost_base::Listed;
use design_problem::{CostBox, Form};
use std::alloc::{AllocError, Global};
use std::str::SplitWhitespace;

/// What a line asks for.
#[derive(Drop)]
pub enum Command {
    /// `box BITS LOW-HIGH ..`: a tableau of numbers of so many bits, over these ranges.
    Start(u32, CostBox),
    /// `row CONSTANT COEFFICIENT ..`: one more row.
    Row(Form),
    /// `move LOW-HIGH ..`: other ranges.
    Move(CostBox),
    /// `solve`: the least point, or the multipliers that refute the box.
    Solve,
    /// `basis`: the members of the basis.
    Basis,
    /// `search NODES ADVISOR ..`: a search of the box for costs at which each row is at least 0, with a
    /// budget and advisors.
    Search(u64, Vec<i64>),
    /// Anything else is a comment.
    Comment,
}

/// The ranges of these words, those that are none left out.
fn ranges(alloc: Global, words: &mut SplitWhitespace<'_>) -> Result<CostBox, AllocError> {
    let mut low = Vec::new(alloc);
    let mut high = Vec::new(alloc);
    for word in words {
        if let Some((least, most)) = word.split_once('-') {
            if let (Ok(least), Ok(most)) = (least.parse::<u16>(), most.parse::<u16>()) {
                low.push(least)?;
                high.push(most)?;
            }
        }
    }
    Ok(CostBox {
        low: Listed::from_items(low),
        high: Listed::from_items(high),
    })
}

/// The numbers of these words, those that are none left out.
fn numbers(alloc: Global, words: &mut SplitWhitespace<'_>) -> Result<Vec<i64>, AllocError> {
    let mut numbers = Vec::new(alloc);
    for word in words {
        if let Ok(number) = word.parse::<i64>() {
            numbers.push(number)?;
        }
    }
    Ok(numbers)
}

/// The number of the next word, or 0.
fn number(words: &mut SplitWhitespace<'_>) -> i64 {
    match words.next() {
        Some(word) => word.parse::<i64>().unwrap_or(0),
        None => 0,
    }
}

/// One more row with this constant and these coefficients.
fn row(alloc: Global, constant: i64, coefficients: &[i64]) -> Result<Command, AllocError> {
    if coefficients.len() > 1 << 32 {
        return Ok(Command::Comment);
    }
    match Form::from_coefficients(alloc, constant, coefficients) {
        Ok(form) => Ok(Command::Row(form)),
        Err(_) => Err(AllocError),
    }
}

/// What the line asks for.
pub(crate) fn read_command(alloc: Global, line: &str) -> Result<Command, AllocError> {
    let mut words = line.split_whitespace();
    let Some(first) = words.next() else {
        return Ok(Command::Comment);
    };
    match first {
        "box" => {
            let bits = u32::try_from(number(&mut words)).unwrap_or(0);
            Ok(Command::Start(bits, ranges(alloc, &mut words)?))
        }
        "row" => {
            let constant = number(&mut words);
            row(alloc, constant, numbers(alloc, &mut words)?.as_slice())
        }
        "move" => Ok(Command::Move(ranges(alloc, &mut words)?)),
        "solve" => Ok(Command::Solve),
        "basis" => Ok(Command::Basis),
        "search" => {
            let nodes = u64::try_from(number(&mut words)).unwrap_or(0);
            Ok(Command::Search(nodes, numbers(alloc, &mut words)?))
        }
        _ => Ok(Command::Comment),
    }
}
