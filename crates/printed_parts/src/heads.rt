//! The first lines of texts.
ghost use Rattle.std.specs.Prelude.{◌≡◌, [], ◌∷◌, IfOk};
ghost use Rattle.text_lines.specs.Lines.{with_ends};
ghost use Rattle.printed_parts.specs.SharedParts.{counted_line};

use cost_base::OutOfMemory;
use line_builder::{LineBuilder, head_lines};
use std::alloc::Global;

/// The first lines of a text: the one that tells its kind, that of its verdict, and one of a word, how many numbers
/// follow, and the numbers.
///
/// # Errors
///
/// `OutOfMemory`.
pub fn counted_head(
    alloc: Global,
    kind: &[u8],
    verdict: &[u8],
    word: &[u8],
    numbers: &[u32],
) -> Result<Vec<u8>, OutOfMemory>
    ensures { IfOk result
        (λ text. text.items ≡ with_ends (kind.now ∷ verdict.now ∷
        counted_line word.now numbers.now ∷ [])) }
{
    let line = LineBuilder::of_count(alloc, word, numbers.len() as u64, numbers)?;
    let mut text = head_lines(alloc, kind, verdict)?;
    line.end_in(&mut text)?;
    Ok(text)
}
