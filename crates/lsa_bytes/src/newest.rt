//! The newest instance of each LSA.
ghost use Rattle.std.specs.Prelude.{◌≡◌, List, [], ◌∷◌, ◌++◌, Some, if◌then◌else◌, IfOk, OnOk};
ghost use Rattle.lsa_bytes.specs.declared.instances.LsaName.{LsaName as Key};
ghost use Rattle.lsa_bytes.specs.declared.instances.Instance.{Instance as OneInstance};
ghost use Rattle.lsa_bytes.specs.Instances.{counts_among, same_name, stands_at};
ghost use Rattle.indexmap.specs.IndexMap.{get};
ghost use Rattle.lsa_bytes.specs.Newest.{HasNewest};

use crate::instances::{Instance, LsaName, Stamp, is_max_age, name_of, newer_of};
use cost_base::OutOfMemory;
use indexmap::IndexMap;
use std::alloc::Global;

/// The newest instance of each LSA, found by what names it.
#[derive(Drop)]
pub struct Newest {
    by_name: IndexMap<LsaName, Stamp>,
}

/// Whether an instance that was found stands at a place.
fn stands_at(found: Option<Stamp>, place: u32) -> bool
    ensures { result ≡ stands_at place found }
{
    match found {
        Some(stamp) => stamp.place == place,
        None => false,
    }
}

impl Newest {
    /// None.
    fn new(alloc: Global) -> Newest
        ensures { HasNewest result.by_name [] }
    {
        Newest {
            by_name: IndexMap::new(alloc),
        }
    }

    /// The newest of instances.
    pub fn among(alloc: Global, instances: &[Instance]) -> Result<Newest, OutOfMemory>
        ensures { IfOk result (λ newest. HasNewest newest.by_name instances.now) }
    {
        let mut newest = Newest::new(alloc);
        for instance in instances {
            newest.add(instance)?;
        }
        Ok(newest)
    }

    /// Adds an instance behind those that are there.
    fn add(&mut self, instance: &Instance) -> Result<(), OutOfMemory>
        ensures { OnOk result ((all : List OneInstance) → HasNewest self.old.by_name all →
            HasNewest self.new.by_name (all ++ instance.now ∷ [])) }
    {
        let name = name_of(&instance.lsa);
        let stamp = newer_of(self.of(name), instance.stamp);
        self.put(name, stamp)?;
        Ok(())
    }

    /// Writes the newest instance of an LSA.
    fn put(&mut self, name: LsaName, stamp: Stamp) -> Result<(), OutOfMemory>
        ensures { OnOk result ((other : Key) → get same_name self.new.by_name other ≡
            (if same_name name other then Some stamp else get same_name self.old.by_name other)) }
    {
        self.by_name.insert(name, stamp)?;
        Ok(())
    }

    /// The newest instance of an LSA.
    fn of(&self, name: LsaName) -> Option<Stamp>
        ensures { result ≡ get same_name self.now.by_name name }
    {
        self.by_name.get(&name).copied()
    }

    /// Whether an instance counts: whether it is the newest of its LSA's and isn't of the greatest age.
    pub fn counts(&self, instance: &Instance) -> bool
        ensures { (all : List OneInstance) → HasNewest self.now.by_name all →
            result ≡ counts_among all instance.now }
    {
        let newest = self.of(name_of(&instance.lsa));
        !is_max_age(instance.stamp) && stands_at(newest, instance.stamp.place)
    }
}
