//! Whether bytes begin the line of a row, which names any number of edges.
ghost use Rattle.std.specs.Prelude.{◌≡◌, ◌⊎◌, ℕ, suc, List, IsTrue, ◌↔◌, codes};
ghost use Rattle.answer_lines.specs.Words.{words_left};
ghost use Rattle.answer_lines.specs.Grammar.{AtRow};
ghost use Rattle.answer_lines.specs.Places.{BeginsLawful};
ghost use Rattle.begun_lines.specs.Begun.{BeginsNumber, IsLineOfRow, IsShortRow, BeginsEdge, AreNumberWords};

use crate::fronts::begins_number;
use answer_lines::{LONGEST, Pieces};

/// Whether these bytes begin the line of a row that has at most 65,536 bytes.
pub fn begins_row(rest: &[u8]) -> bool
    ensures { (left : ℕ) → (IsTrue result ↔ BeginsLawful (AtRow (suc left)) rest.now) }
{
    begins_number_or_row(rest) || begins_edge(rest)
}

/// Whether these bytes begin the first number of a row, or are the line of a row that has at most 65,536 bytes.
fn begins_number_or_row(rest: &[u8]) -> bool
    ensures { IsTrue result ↔ (BeginsNumber rest.now (codes "row ") 4294967295 ⊎
        IsShortRow rest.now) }
{
    begins_number(rest, b"row ", 4_294_967_295) || is_short_row(rest)
}

/// Whether this is the line of a row that has at most 65,536 bytes.
fn is_short_row(line: &[u8]) -> bool
    ensures { IsTrue result ↔ IsShortRow line.now }
{
    line.len() <= LONGEST && is_row(line)
}

/// Whether these bytes are the line of a row and a space, with room for one more edge.
fn begins_edge(rest: &[u8]) -> bool
    ensures { IsTrue result ↔ BeginsEdge rest.now }
{
    if rest.len() >= LONGEST {
        return false;
    }
    match rest.strip_suffix(b" ".as_slice()) {
        Some(line) => is_row(line),
        None => false,
    }
}

/// Whether this is the line of a row.
fn is_row(line: &[u8]) -> bool
    ensures { IsTrue result ↔ IsLineOfRow line.now }
{
    match Pieces::new(line).behind(b"row") {
        Some(numbers) => !numbers.is_done() && are_numbers(numbers),
        None => false,
    }
}

/// Whether these words are numbers, each at most 4294967295.
fn are_numbers(words: Pieces<'_>) -> bool
    ensures { IsTrue result ↔ AreNumberWords (words_left words.entry) }
{
    let mut left = words;
    while !left.is_done() {
        let Some((_, rest)) = left.number(4_294_967_295) else {
            return false;
        };
        left = rest;
    }
    true
}
