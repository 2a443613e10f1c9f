//! Why configurations make no topology.
ghost use Rattle.lsdb_build.specs.FaultNumbers.{topology_fault_number};

use cost_base::Fault;

/// Why configurations make no topology. An interface is here an active one of length at most 31.
#[derive(Clone, Copy, Debug, PartialEq, Eq)]
pub enum TopologyFault {
    /// An earlier configuration has the same name.
    NameTwice,
    /// An earlier interface has the same address.
    AddressTwice,
    /// An earlier interface on the same subnet has another network kind.
    TypeMismatch,
    /// Two earlier interfaces stand on the same point-to-point subnet.
    CrowdedLink,
    /// An earlier interface of the same router has the same subnet.
    SameRouterTwice,
    /// A transit subnet has priority 0 at every member (RFC 2328, 9.4).
    NoDesignated,
    /// An earlier interface of another router has a different subnet, and one of the two contains the other.
    OverlapPrefix,
    /// There are more than 1,000 configurations, or more than 4,000 interfaces.
    TooMany,
}

impl Fault for TopologyFault {
    ghost numbered = { topology_fault_number };

    fn number(self) -> u8 {
        match self {
            TopologyFault::NameTwice => 10,
            TopologyFault::AddressTwice => 11,
            TopologyFault::TypeMismatch => 12,
            TopologyFault::CrowdedLink => 13,
            TopologyFault::SameRouterTwice => 14,
            TopologyFault::NoDesignated => 15,
            TopologyFault::OverlapPrefix => 16,
            TopologyFault::TooMany => 17,
        }
    }
}

/// Where a fault of a topology stands.
#[derive(Clone, Copy, Debug, PartialEq, Eq)]
pub struct ConfigLine {
    /// The configuration, counted from 0.
    pub config: u32,
    /// The line of the interface's first head, or 0 where the fault is none of an interface.
    pub line: u32,
}
