//! Which routers have interfaces in prefixes.
ghost use Rattle.std.specs.Prelude.{◌≡◌, ℕ, None, OnOk};
ghost use Rattle.indexmap.specs.IndexMap.{get};
ghost use Rattle.lsdb_build.specs.declared.port.Subnet.{Subnet as Key};
ghost use Rattle.lsdb_build.specs.Tallies.{same_subnet};
ghost use Rattle.lsdb_build.specs.Owners.{joined_owner, has_other, IsOwnerNoted};

use crate::port::Subnet;
use cost_base::OutOfMemory;
use indexmap::IndexMap;
use std::alloc::Global;

/// The router at a prefix, or that there are several.
#[derive(Clone, Copy)]
enum Owner {
    One(u32),
    Several,
}

/// What is noted with one router more.
fn joined(found: Option<Owner>, router: u32) -> Owner
    ensures { result ≡ joined_owner found router }
{
    match found {
        None => Owner::One(router),
        Some(Owner::One(first)) if first == router => Owner::One(first),
        Some(_) => Owner::Several,
    }
}

/// Whether another router may be noted.
fn has_other(found: Option<Owner>, router: u32) -> bool
    ensures { result ≡ has_other found router }
{
    match found {
        None => false,
        Some(Owner::One(first)) => first != router,
        Some(Owner::Several) => true,
    }
}

/// The routers that are noted at prefixes.
#[derive(Drop)]
pub struct Owners {
    by_prefix: IndexMap<Subnet, Owner>,
}

impl Owners {
    /// No router.
    pub fn new(alloc: Global) -> Owners
        ensures { (key : Key) → get same_subnet result.by_prefix key ≡ None }
    {
        Owners {
            by_prefix: IndexMap::new(alloc),
        }
    }

    /// Notes a router at a prefix.
    pub fn note(&mut self, router: u32, prefix: Subnet) -> Result<(), OutOfMemory>
        ensures noted { OnOk result (IsOwnerNoted self.new.by_prefix router prefix) }
        ensures kept { OnOk result ((other : ℕ) (key : Key) → IsOwnerNoted self.old.by_prefix other
            key → IsOwnerNoted self.new.by_prefix other key) }
    {
        let owner = joined(self.by_prefix.get(&prefix).copied(), router);
        self.by_prefix.insert(prefix, owner)?;
        Ok(())
    }

    /// Whether a router other than this one is noted at a prefix.
    pub fn has_other(&self, router: u32, prefix: Subnet) -> bool
        ensures { result ≡ has_other (get same_subnet self.now.by_prefix prefix) router }
    {
        has_other(self.by_prefix.get(&prefix).copied(), router)
    }
}
