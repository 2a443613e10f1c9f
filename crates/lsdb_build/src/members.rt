//! How many interfaces stand on each subnet.
ghost use Rattle.std.specs.Prelude.{◌≡◌, ◌≤◌, List, length, map, count_by, IfOk};
ghost use Rattle.lsdb_build.specs.Neighbours.{Port, shares_subnet};
ghost use Rattle.lsdb_build.specs.Tallies.{IsTally, same_subnet, subnet_of};

use crate::port::{Port, Subnet, subnet_of};
use crate::tally::Tally;
use cost_base::OutOfMemory;
use std::alloc::Global;

/// Counts the interfaces on each subnet.
pub fn count_members(alloc: Global, ports: &[Port]) -> Result<Tally<Subnet>, OutOfMemory>
    requires { length ports.now ≤ 4000 }
    ensures { IfOk result (λ members. IsTally same_subnet members.counts
        (map subnet_of ports.now)) }
{
    let mut members = Tally::new(alloc);
    for port in ports {
        members.add(subnet_of(port))?;
    }
    Ok(members)
}

/// How many of the counted interfaces stand on an interface's subnet.
pub fn members_on(members: &Tally<Subnet>, port: &Port) -> u32
    ensures { (all : List Port) → IsTally same_subnet members.now.counts (map subnet_of all) →
        result ≡ count_by (shares_subnet port.now) all }
{
    members.count(subnet_of(port))
}
