//! Reads a file of sets.
ghost use Rattle.std.specs.Prelude.{◌≡◌, ◌-◌, ◌^◌, ◌<◌, None, length, IfOk, IfErr};
ghost use Rattle.text_lines.specs.LineFaults.{TellsFault};
ghost use Rattle.set_reader.specs.SpreadSets.{AreSetsOf};
ghost use Rattle.set_reader.specs.Reading.{set_fault, AreSaid};

mod line;
mod members;
mod reader;
mod statement;

use crate::{SetFault, Sets};
use cost_base::Refusal;
use design_problem::Problem;
use reader::Reader;
use std::alloc::Global;
use text_lines::{TextKind, read_statements};

/// Reads a file of sets. A line has at most 65,536 bytes. Blank lines and comments are passed, and indentation has no
/// meaning. The first other line is `ospfcost spread 1`, and each of the rest is `set I J ..` with the numbers of at
/// least two wanted paths of the problem, counted from 0.
///
/// # Errors
///
/// `Refused` with the first faulty line: `BadSetLine` where the line is no such line or too long, or not the header
/// where that has to stand; `WrongSet` where a number is no path's or stands in this set or an earlier one already,
/// where a member has other ends than the first or the edges of an earlier one, or where its request excludes an edge.
/// A missing header is refused as `BadSetLine` behind the last line. `OutOfMemory` where there is no memory.
pub fn read_sets(alloc: Global, bytes: &[u8], problem: &Problem) -> Result<Sets, Refusal<SetFault>>
    requires few { length bytes.now < 2 ^ 32 - 1 }
    ensures made { IfOk result (λ sets. (set_fault problem.now bytes.now ≡ None) ×
        AreSaid bytes.now sets) }
    ensures lawful { IfOk result (AreSetsOf problem.now) }
    ensures refused { IfErr result (TellsFault (set_fault problem.now bytes.now)) }
{
    let kind = TextKind {
        word: b"spread",
        bad_line: SetFault::BadSetLine,
    };
    let mut reader = Reader::new(alloc, problem)?;
    read_statements(alloc, &mut reader, &kind, bytes)?;
    Ok(reader.into_sets())
}
