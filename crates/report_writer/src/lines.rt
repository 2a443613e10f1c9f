//! The lines that a run writes beside an answer.
ghost use Rattle.std.specs.Prelude.{◌≡◌, IfOk};
ghost use Rattle.report_writer.specs.Texts.{refused_line, read_fault_line};

use cost_base::OutOfMemory;
use line_builder::LineBuilder;
use std::alloc::Global;

/// The line `refused NUMBER FILE PLACE`.
pub(crate) fn refused_line_of(
    alloc: Global,
    number: u8,
    file: &str,
    line: u32,
) -> Result<Vec<u8>, OutOfMemory>
    ensures { IfOk result
        (λ text. text.items ≡
        refused_line (record { number = number; file = file.now; line = line })) }
{
    let mut words = LineBuilder::new(alloc, b"refused")?;
    words.number(u128::from(number))?;
    words.word(file.as_bytes())?;
    words.number(u128::from(line))?;
    words.ended()
}

/// The line `read fault FILE`.
pub(crate) fn read_fault_line_of(alloc: Global, file: &str) -> Result<Vec<u8>, OutOfMemory>
    ensures { IfOk result (λ text. text.items ≡ read_fault_line (file.now)) }
{
    let mut line = LineBuilder::new(alloc, b"read fault")?;
    line.word(file.as_bytes())?;
    line.ended()
}
