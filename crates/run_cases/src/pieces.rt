//! Texts made of pieces.

use std::alloc::{AllocError, Global};

/// Adds lines `from` to `to` of a text, counted from 1, each with its LF.
pub(crate) fn push_lines(
    into: &mut Vec<u8>,
    text: &[u8],
    from: usize,
    to: usize,
) -> Result<(), AllocError> {
    let lines = text.split_inclusive(|byte| *byte == b'\n');
    for line in lines.take(to).skip(from.saturating_sub(1)) {
        into.extend_from_slice(line)?;
    }
    Ok(())
}

/// Adds a text with a number in place of each `#`.
fn push_with(
    alloc: Global,
    into: &mut Vec<u8>,
    text: &[u8],
    number: u64,
) -> Result<(), AllocError> {
    let digits = format!(in alloc; "{number}")?;
    for byte in text {
        if *byte == b'#' {
            into.extend_from_slice(digits.as_bytes())?;
        } else {
            into.push(*byte)?;
        }
    }
    Ok(())
}

/// Adds a text once for each number from `from` to `to`, with the number in place of each `#`.
pub(crate) fn push_numbered(
    alloc: Global,
    into: &mut Vec<u8>,
    text: &[u8],
    from: u64,
    to: u64,
) -> Result<(), AllocError> {
    for number in from..=to {
        push_with(alloc, into, text, number)?;
    }
    Ok(())
}
