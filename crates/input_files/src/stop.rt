//! What ends the reading of files.
ghost use Rattle.std.specs.Prelude.{◌≡◌};
ghost use Rattle.input_files.specs.FaultNumbers.{file_fault_number};
ghost use Rattle.input_files.specs.Stops.{refusal_stop, said_or_stop};

use cost_base::{Fault, OutOfMemory, Refusal};

/// Why a file is refused whose bytes nobody reads.
#[derive(Clone, Copy, Debug, PartialEq, Eq)]
pub enum FileFault {
    /// The file is longer than files of its kind may be.
    TooLong,
}

impl Fault for FileFault {
    ghost numbered = { file_fault_number };

    fn number(self) -> u8 {
        match self {
            FileFault::TooLong => 9,
        }
    }
}

/// Why files weren't read to their end.
#[derive(Clone, Copy)]
pub enum Stop<'a> {
    /// The input is refused.
    Refused {
        /// The number of the first fault.
        number: u8,
        /// The file that it is in.
        file: &'a str,
        /// The line, counted from 1; 0 where the fault is of no line.
        line: u32,
    },
    /// The shelf failed to hand out a file.
    ReadFault {
        /// The file.
        file: &'a str,
    },
    /// Want of memory.
    OutOfMemory,
}

impl<'a> From<OutOfMemory> for Stop<'a> {
    ghost use Rattle.std.specs.Prelude.{◌≡◌};
    ghost use Rattle.input_files.specs.declared.stop.Stop.TheVariants.{OutOfMemory};

    ghost from_gives = { λ _ stop. stop ≡ OutOfMemory };

    fn from(_error: OutOfMemory) -> Stop<'a> {
        Stop::OutOfMemory
    }
}

/// The stop of a file that is refused by itself: the place of its fault is a line, or stands in place of one.
pub fn stop_of<F: Fault>(refusal: Refusal<F>, file: &str) -> Stop<'_>
    ensures { result ≡ refusal_stop F.numbered refusal file.entry }
{
    match refusal {
        Refusal::Refused { fault, place } => Stop::Refused {
            number: fault.number(),
            file,
            line: place,
        },
        Refusal::OutOfMemory => Stop::OutOfMemory,
    }
}

/// What a file says, or the stop of its refusal.
///
/// # Errors
///
/// `Stop`: that of the refusal.
pub fn said_or_stop<T, F: Fault>(said: Result<T, Refusal<F>>, file: &str) -> Result<T, Stop<'_>>
    ensures { result ≡ said_or_stop F.numbered said file.entry }
{
    match said {
        Ok(said) => Ok(said),
        Err(refusal) => Err(stop_of(refusal, file)),
    }
}
