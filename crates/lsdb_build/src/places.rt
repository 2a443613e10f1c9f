//! Where interfaces stand on each subnet.
ghost use Rattle.std.specs.Prelude.{◌≡◌, ◌≤◌, ◌++◌, [], ◌∷◌, if◌then◌else◌, length, IfOk, OnOk};
ghost use Rattle.lsdb_build.specs.declared.port.Subnet.{Subnet as Key};
ghost use Rattle.lsdb_build.specs.Tallies.{same_subnet, subnet_of};
ghost use Rattle.lsdb_build.specs.Places.{places_at, ArePlaces};

use crate::port::{Port, Subnet, subnet_of};
use cost_base::OutOfMemory;
use indexmap::IndexMap;
use std::alloc::Global;

/// The places of interfaces, found by their subnets.
#[derive(Drop)]
pub struct Places {
    by_subnet: IndexMap<Subnet, Vec<u32>>,
}

impl Places {
    /// No place.
    fn new(alloc: Global) -> Places
        ensures { (key : Key) → places_at result.by_subnet key ≡ [] }
    {
        Places {
            by_subnet: IndexMap::new(alloc),
        }
    }

    /// Adds a place on a subnet, behind those that are there.
    fn add(&mut self, alloc: Global, subnet: Subnet, place: u32) -> Result<(), OutOfMemory>
        ensures { OnOk result ((key : Key) → places_at self.new.by_subnet key ≡
            places_at self.old.by_subnet key ++ (if same_subnet subnet key then place ∷ []
            else [])) }
    {
        self.by_subnet
            .entry(subnet)?
            .or_insert(Vec::new(alloc))
            .push(place)?;
        Ok(())
    }

    /// The places of the interfaces that stand on an interface's subnet, in order.
    pub fn on(&self, port: &Port) -> &[u32]
        ensures { result.now ≡ places_at self.now.by_subnet (subnet_of port.now) }
    {
        match self.by_subnet.get(&subnet_of(port)) {
            Some(places) => places.as_slice(),
            None => &[],
        }
    }
}

/// The places of interfaces, each its number among them.
pub fn places_of(alloc: Global, ports: &[Port]) -> Result<Places, OutOfMemory>
    requires { length ports.now ≤ 4000 }
    ensures { IfOk result (λ places. ArePlaces places.by_subnet ports.now) }
{
    let mut places = Places::new(alloc);
    for (i, port) in ports.iter().enumerate() {
        places.add(alloc, subnet_of(port), i as u32)?;
    }
    Ok(places)
}
