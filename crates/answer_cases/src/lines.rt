//! Lines of an answer that are read one by one.

use answer_lines::{
    TextLeft, entry_of, floor_next, floor_of, name_after, row_of, rows_next, tree_head_of,
    verdict_next,
};
use cost_base::OutOfMemory;
use evidence_text::TreePart;
use std::alloc::{AllocError, Global};

/// The verdict, the floor and the count of rows at the head of a text without costs, and the line behind them.
fn heads(text: TextLeft<'_>, alloc: Global) -> Result<Option<String>, AllocError> {
    let Some((verdict, text)) = verdict_next(text) else {
        return Ok(None);
    };
    let Some((floor, text)) = floor_next(text) else {
        return Ok(None);
    };
    let Some((count, text)) = rows_next(text) else {
        return Ok(None);
    };
    let next = text.line().is_some();
    let told = format!(in alloc;
        ": {verdict:?}, floor {floor:?}, {count} rows, another line {next}"
    )?;
    Ok(Some(told))
}

/// `heads`: the heads of the last text.
pub(crate) fn heads_text(alloc: Global, bytes: &[u8]) -> Result<String, AllocError> {
    if bytes.len() > 100_000 {
        return String::from_str(alloc, ": too long");
    }
    match heads(TextLeft::new(bytes), alloc)? {
        Some(told) => Ok(told),
        None => String::from_str(alloc, ": none"),
    }
}

/// Whether a line is an entry.
fn is_entry(alloc: Global, line: &[u8]) -> Result<bool, OutOfMemory> {
    Ok(entry_of(alloc, line)?.is_some())
}

/// Whether a line is a row.
fn is_row(alloc: Global, line: &[u8]) -> Result<bool, OutOfMemory> {
    Ok(row_of(alloc, line)?.is_some())
}

/// Whether a line was read.
fn told(alloc: Global, is_read: Result<bool, OutOfMemory>) -> Result<String, OutOfMemory> {
    let told = if is_read? { ": read" } else { ": not read" };
    Ok(String::from_str(alloc, told)?)
}

/// What is answered to a line that asks what a line says: `floor LINE`, `proof LINE` and `router LINE`.
fn said_text(alloc: Global, kind: &str, line: &[u8]) -> Result<String, AllocError> {
    match kind {
        "floor" => format!(in alloc; ": {:?}", floor_of(line)),
        "proof" => format!(in alloc; ": {:?}", tree_head_of(line, TreePart::Proof)),
        "router" => match name_after(line, b"router ") {
            Some(name) => format!(in alloc; ": {}", name.escape_ascii()),
            None => String::from_str(alloc, ": none"),
        },
        _ => String::from_str(alloc, ""),
    }
}

/// What is answered to a line that asks of a line: `entry LINE` and `row LINE`, or what it says.
pub(crate) fn line_text(alloc: Global, kind: &str, line: &[u8]) -> Result<String, OutOfMemory> {
    match kind {
        "entry" => told(alloc, is_entry(alloc, line)),
        "row" => told(alloc, is_row(alloc, line)),
        _ => Ok(said_text(alloc, kind, line)?),
    }
}
