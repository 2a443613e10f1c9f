//! Why a text with costs or evidence is refused.
ghost use Rattle.std.specs.Prelude.{◌≡◌, IfOk};
ghost use Rattle.report_writer.specs.Rejections.{IsRejectionOf};
ghost use Rattle.report_writer.specs.Texts.{rejected_line};

use cost_base::{Fault, OutOfMemory, Refusal};
use line_builder::LineBuilder;
use std::alloc::Global;

/// A rejection of a file with costs or evidence: the number of a fault of its text or of a test, and the place.
#[derive(Clone, Copy, Debug, PartialEq, Eq)]
pub struct Rejection {
    /// The number of the refusal.
    pub number: u8,
    /// Its place: a line of the text, counted from 1, or where the test was met.
    pub place: u64,
}

impl Rejection {
    /// The rejection for a fault at a place.
    pub fn at<F: Fault>(place: u64, fault: F) -> Rejection
        ensures { result ≡ record { number = F.numbered fault; place = place } }
    {
        Rejection {
            number: fault.number(),
            place,
        }
    }
}

/// The rejection of a file that is refused, whose place is as wide as that of the refusal or wider.
///
/// # Errors
///
/// `OutOfMemory`: that is what the refusal says.
pub fn rejection_of<F: Fault, P: Into<u64>>(
    refusal: Refusal<F, P>,
) -> Result<Rejection, OutOfMemory>
    ensures { IfOk result (IsRejectionOf F.numbered P.converts refusal) }
{
    match refusal {
        Refusal::Refused { fault, place } => Ok(Rejection::at(place.into(), fault)),
        Refusal::OutOfMemory => Err(OutOfMemory),
    }
}

/// The line `rejected NUMBER PLACE`.
pub(crate) fn rejected_line_of(alloc: Global, rejection: Rejection) -> Result<Vec<u8>, OutOfMemory>
    ensures { IfOk result (λ text. text.items ≡ rejected_line rejection) }
{
    let mut line = LineBuilder::new(alloc, b"rejected")?;
    line.number(u128::from(rejection.number))?;
    line.number(u128::from(rejection.place))?;
    line.ended()
}
