//! Lines of an answer that are begun.

use begun_lines::{
    begins_cost, begins_costs, begins_end, begins_entry, begins_exit, begins_floor, begins_head,
    begins_interface, begins_open, begins_proof, begins_row, begins_rows, begins_section,
    begins_verdict, begins_wide,
};
use case_scripts::bytes_of;
use std::alloc::{AllocError, Global};

/// Whether bytes begin a lawful line of a kind. `section-of-A` is a section behind one of the router `A`.
fn begins(kind: &str, line: &[u8]) -> bool {
    match kind {
        "head" => begins_head(line),
        "verdict" => begins_verdict(line),
        "costs" => begins_costs(line),
        "section" => begins_section(line, None),
        "section-of-A" => begins_section(line, Some(b"A".as_slice())),
        "interface" => begins_interface(line),
        "cost" => begins_cost(line),
        "exit" => begins_exit(line),
        "floor" => begins_floor(line),
        "rows" => begins_rows(line),
        "row" => begins_row(line),
        "proof" => begins_proof(line),
        "open" => begins_open(line),
        "entry" => begins_entry(line),
        "wide" => begins_wide(line),
        "end" => begins_end(line),
        _ => false,
    }
}

/// `begun KIND TEXT`: whether a text begins a lawful line of a kind.
pub(crate) fn begun_text(alloc: Global, rest: &str) -> Result<String, AllocError> {
    let (kind, text) = rest.split_once(' ').unwrap_or((rest, ""));
    let line = bytes_of(alloc, text)?;
    let told = if begins(kind, line.as_slice()) {
        ": yes"
    } else {
        ": no"
    };
    String::from_str(alloc, told)
}

/// `longest`: whether a `router` line of 65,536 bytes begins a section behind one of the router `A`, and behind one of
/// the same router.
pub(crate) fn longest_text(alloc: Global) -> Result<String, AllocError> {
    let mut longest = b"router ".as_slice().to_vec(alloc)?;
    longest.resize(65_536, b'A')?;
    let line = longest.as_slice();
    let behind_other = begins_section(line, Some(b"A".as_slice()));
    let behind_same = begins_section(line, line.get(7..));
    format!(in alloc; ": {behind_other} {behind_same}")
}
