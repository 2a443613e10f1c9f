//! Why a live file is refused.
ghost use Rattle.live_reader.specs.FaultNumbers.{live_fault_number};

use cost_base::Fault;
use lsa_bytes::LsaFault;

/// Why a live file is refused.
#[derive(Clone, Copy, Debug, PartialEq, Eq)]
pub enum LiveFault {
    /// The text isn't JSON, or arrays and objects nest deeper than 64.
    BadJson,
    /// An object lacks a member that is read, or has it off its form.
    BadLive,
    /// A fault of LSAs.
    Lsas(LsaFault),
}

impl Fault for LiveFault {
    ghost numbered = { live_fault_number };

    fn number(self) -> u8 {
        match self {
            LiveFault::BadJson => 81,
            LiveFault::BadLive => 82,
            LiveFault::Lsas(fault) => fault.number(),
        }
    }
}

/// The object at a place lacks a member that is read, or has it off its form.
#[derive(Clone, Copy, Debug, PartialEq, Eq)]
pub struct Lack;
