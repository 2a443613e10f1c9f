//! Why a file of sets isn't taken.
ghost use Rattle.set_reader.specs.FaultNumbers.{set_fault_number};

use cost_base::Fault;

/// Why a line of a file of sets is refused.
#[derive(Clone, Copy, Debug, PartialEq, Eq)]
pub enum SetFault {
    /// The line is no `set` line, or there is no header.
    BadSetLine,
    /// A number is no path's or stands in a set already, a member has other ends than the first or the edges of an
    /// earlier one, or a member's request excludes an edge.
    WrongSet,
}

impl Fault for SetFault {
    ghost numbered = { set_fault_number };

    fn number(self) -> u8 {
        match self {
            SetFault::BadSetLine => 71,
            SetFault::WrongSet => 72,
        }
    }
}
