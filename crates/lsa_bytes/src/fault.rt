//! Why LSAs or router IDs are refused.
ghost use Rattle.lsa_bytes.specs.Numbers.{lsa_fault_number};

use cost_base::Fault;

/// Why the bytes of LSAs, or the router IDs of a run, are refused.
#[derive(Clone, Copy, Debug, PartialEq, Eq)]
pub enum LsaFault {
    /// Fewer bytes are left than a header of 20, or than the LSA's length says.
    ShortLsa,
    /// The length of an LSA is below 20.
    BadLength,
    /// A router-LSA's or network-LSA's body isn't as RFC 2328, A.4.2 and A.4.3, say, or a link's type isn't 1 to 4.
    BadBody,
    /// An earlier LSA that counts is another router-LSA of the same advertising router, or another network-LSA of the
    /// same link state ID, and no instance of this one.
    LsaTwice,
    /// A link of type 1 or 2 has metric 0.
    ZeroMetric,
    /// A configuration has no router ID, or a router ID has no router-LSA.
    NoRouterId,
    /// An earlier configuration has the same router ID.
    RouterIdTwice,
    /// There are more than 1,000 router-LSAs that count.
    TooManyRouters,
}

impl Fault for LsaFault {
    ghost numbered = { lsa_fault_number };

    fn number(self) -> u8 {
        match self {
            LsaFault::ShortLsa => 73,
            LsaFault::BadLength => 74,
            LsaFault::BadBody => 75,
            LsaFault::LsaTwice => 76,
            LsaFault::ZeroMetric => 77,
            LsaFault::NoRouterId => 78,
            LsaFault::RouterIdTwice => 79,
            LsaFault::TooManyRouters => 80,
        }
    }
}
