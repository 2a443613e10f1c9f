//! Why a request file isn't taken.
ghost use Rattle.request_reader.specs.FaultNumbers.{request_fault_number};

use cost_base::Fault;

/// Why a line of a request file is refused.
#[derive(Clone, Copy, Debug, PartialEq, Eq)]
pub enum RequestFault {
    /// The line is off the table of lines, or there is no header or no area.
    BadRequestLine,
    /// The bounds of a `free` line aren't from 1 to 65535, or they cross.
    BadBounds,
    /// The path lines are too many.
    TooManyPaths,
}

impl Fault for RequestFault {
    ghost numbered = { request_fault_number };

    fn number(self) -> u8 {
        match self {
            RequestFault::BadRequestLine => 20,
            RequestFault::BadBounds => 25,
            RequestFault::TooManyPaths => 27,
        }
    }
}
