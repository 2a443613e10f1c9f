//! Reads a request file.
ghost use Rattle.std.specs.Prelude.{◌≡◌, ◌-◌, ◌^◌, ◌<◌, None, length, IfOk, IfErr};
ghost use Rattle.text_lines.specs.LineFaults.{TellsFault};
ghost use Rattle.request_reader.specs.Reading.{asked_by, request_fault};

mod line;
mod path;
mod reader;
mod statement;

use crate::{RequestFault, RequestFile};
use cost_base::Refusal;
use reader::Reader;
use std::alloc::Global;
use text_lines::{TextKind, read_statements};

/// Reads a request file. A line has at most 65,536 bytes. Blank lines and comments are passed, and indentation has no
/// meaning. The first other line is `ospfcost request 1`, and one of the rest is `area X`. There are at
/// most 10,000 paths.
///
/// # Errors
///
/// - `Refused` with the first faulty line: `BadRequestLine` where the line is off the table of lines, too long, a
///   second `area` or `default-cost`, or not the header where that has to stand; `BadBounds` where the bounds of a
///   `free` line cross or aren't from 1 to 65535; `TooManyPaths` at the 10,001st path. A missing header or area is
///   refused as `BadRequestLine` behind the last line.
/// - `OutOfMemory` where there is no memory.
pub fn read_request_file(alloc: Global, bytes: &[u8]) -> Result<RequestFile, Refusal<RequestFault>>
    requires few { length bytes.now < 2 ^ 32 - 1 }
    ensures made { IfOk result (λ r. (request_fault bytes.now ≡ None) × (r ≡ asked_by bytes.now)) }
    ensures refused { IfErr result (TellsFault (request_fault bytes.now)) }
{
    let kind = TextKind {
        word: b"request",
        bad_line: RequestFault::BadRequestLine,
    };
    let mut reader = Reader::new(alloc);
    let lines = read_statements(alloc, &mut reader, &kind, bytes)?;
    reader.finish(lines)
}
