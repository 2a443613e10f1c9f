//! The lines that tell that an answer was accepted.
ghost use Rattle.std.specs.Prelude.{◌≡◌, IfOk};
ghost use Rattle.evidence_commands.specs.Checks.{accepted_line};

use cost_base::OutOfMemory;
use evidence_checker::Accepted;
use line_builder::LineBuilder;
use std::alloc::Global;

/// The line `accepted optimal K`.
fn optimal_line_of(alloc: Global, greatest: u16) -> Result<Vec<u8>, OutOfMemory>
    ensures { IfOk result (λ text. text.items ≡ accepted_line (Accepted.Optimal greatest)) }
{
    let mut line = LineBuilder::new(alloc, b"accepted optimal")?;
    line.number(u128::from(greatest))?;
    line.ended()
}

/// The line `accepted impossible`.
fn impossible_line_of(alloc: Global) -> Result<Vec<u8>, OutOfMemory>
    ensures { IfOk result (λ text. text.items ≡ accepted_line Accepted.Impossible) }
{
    LineBuilder::new(alloc, b"accepted impossible")?.ended()
}

/// The line that tells what was accepted.
pub(crate) fn accepted_line_of(alloc: Global, accepted: Accepted) -> Result<Vec<u8>, OutOfMemory>
    ensures { IfOk result (λ text. text.items ≡ accepted_line accepted) }
{
    match accepted {
        Accepted::Optimal(greatest) => optimal_line_of(alloc, greatest),
        Accepted::Impossible => impossible_line_of(alloc),
    }
}
