//! Why a configuration isn't taken.
ghost use Rattle.config_reader.specs.FaultNumbers.{config_fault_number};

use cost_base::Fault;

/// Why a line of a configuration is refused.
#[derive(Clone, Copy, Debug, PartialEq, Eq)]
pub enum ConfigFault {
    /// The line has more than 4,096 bytes.
    LongLine,
    /// An address, a prefix or a router ID is missing, or none.
    BadAddress,
    /// A cost or a priority is missing, none, or out of range.
    BadNumber,
    /// An area is missing, or none.
    BadArea,
    /// The line means something that isn't read.
    Unsupported,
    /// An interface that takes part has a different second address.
    SecondAddress,
    /// `network` lines give an interface a second area.
    AreaTwice,
    /// The router's name is missing, or isn't 1 to 64 letters, digits, `-`, `_` and `.`.
    BadName,
}

impl Fault for ConfigFault {
    ghost numbered = { config_fault_number };

    fn number(self) -> u8 {
        match self {
            ConfigFault::LongLine => 1,
            ConfigFault::BadAddress => 2,
            ConfigFault::BadNumber => 3,
            ConfigFault::BadArea => 4,
            ConfigFault::Unsupported => 5,
            ConfigFault::SecondAddress => 6,
            ConfigFault::AreaTwice => 7,
            ConfigFault::BadName => 8,
        }
    }
}
