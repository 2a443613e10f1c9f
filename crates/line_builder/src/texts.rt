//! Lines behind a text, and addresses.
ghost use Rattle.std.specs.Prelude.{◌≡◌, [], ◌∷◌, ◌++◌, IfOk, OnOk};
ghost use Rattle.std.specs.List.{join_with_byte};
ghost use Rattle.cost_base.specs.Decimal.{decimal};
ghost use Rattle.text_lines.specs.Lines.{with_ends};
ghost use Rattle.line_builder.specs.Words.{dotted_quad};

use crate::line::LineBuilder;
use cost_base::OutOfMemory;
use std::alloc::Global;
use text_lines::{push_bytes, push_number};

/// Adds an address or a router ID as a dotted quad at the end.
///
/// # Errors
///
/// `OutOfMemory`.
pub fn push_quad(text: &mut Vec<u8>, address: u32) -> Result<(), OutOfMemory>
    ensures { OnOk result (text.new.items ≡ text.old.items ++ dotted_quad address) }
{
    push_number(text, u128::from(address / 16_777_216))?;
    push_bytes(text, b".")?;
    push_number(text, u128::from(address / 65_536 % 256))?;
    push_bytes(text, b".")?;
    push_number(text, u128::from(address / 256 % 256))?;
    push_bytes(text, b".")?;
    push_number(text, u128::from(address % 256))
}

/// Adds a line with its LF at the end.
///
/// # Errors
///
/// `OutOfMemory`.
pub fn push_line(text: &mut Vec<u8>, line: &[u8]) -> Result<(), OutOfMemory>
    ensures { OnOk result (text.new.items ≡ text.old.items ++ with_ends (line.now ∷ [])) }
{
    push_bytes(text, line)?;
    push_bytes(text, b"\n")
}

/// Adds the line of a word and a count at the end.
///
/// # Errors
///
/// `OutOfMemory`.
pub fn push_count_line(
    alloc: Global,
    text: &mut Vec<u8>,
    word: &[u8],
    count: u64,
) -> Result<(), OutOfMemory>
    ensures { OnOk result (text.new.items ≡ text.old.items ++ with_ends
        (join_with_byte 32 (word.now ∷ decimal count ∷ []) ∷ [])) }
{
    let line = LineBuilder::of_count(alloc, word, count, &[])?;
    line.end_in(text)
}

/// The first lines of a text: the one that tells its kind, and that of its verdict.
///
/// # Errors
///
/// `OutOfMemory`.
pub fn head_lines(alloc: Global, kind: &[u8], verdict: &[u8]) -> Result<Vec<u8>, OutOfMemory>
    ensures { IfOk result (λ text. text.items ≡ with_ends (kind.now ∷ verdict.now ∷ [])) }
{
    let mut text = Vec::new(alloc);
    push_line(&mut text, kind)?;
    push_line(&mut text, verdict)?;
    Ok(text)
}
