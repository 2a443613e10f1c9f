//! Why the costs of a text can't be taken.
ghost use Rattle.sections_reader.specs.FaultNumbers.{costs_fault_number};

use cost_base::Fault;

/// Why the costs that a text says can't be taken: into a configuration, or as those that are to go live.
#[derive(Clone, Copy, Debug, PartialEq, Eq)]
pub enum CostsFault {
    /// 49: the text says that there are no costs.
    NoCosts,
    /// 50: a cost line names no interface that could take its cost.
    NoInterface,
    /// 54: a cost line names the interface of an earlier one.
    LineTwice,
}

impl Fault for CostsFault {
    ghost numbered = { costs_fault_number };

    fn number(self) -> u8 {
        match self {
            CostsFault::NoCosts => 49,
            CostsFault::NoInterface => 50,
            CostsFault::LineTwice => 54,
        }
    }
}
