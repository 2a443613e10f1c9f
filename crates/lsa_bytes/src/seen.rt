//! Which LSAs were seen.
ghost use Rattle.std.specs.Prelude.{◌≡◌, List, [], ◌∷◌, ◌++◌, IfOk, IsTrue, not};
ghost use Rattle.std.specs.List.{list_any};
ghost use Rattle.std.specs.BTreeSet.{btree_set_len};
ghost use Rattle.lsa_bytes.specs.declared.Lsa.{Lsa as OneLsa};
ghost use Rattle.lsa_bytes.specs.Databases.{is_same};
ghost use Rattle.lsa_bytes.specs.Seen.{HasSeen};

use crate::{Body, Lsa};
use cost_base::OutOfMemory;
use std::alloc::Global;
use std::collections::BTreeSet;

/// The advertising routers of the router-LSAs that were seen, and the link state IDs of the network-LSAs.
#[derive(Drop)]
pub struct Seen {
    routers: BTreeSet<u32>,
    networks: BTreeSet<u32>,
}

impl Seen {
    /// None was seen.
    pub fn new(alloc: Global) -> Seen
        ensures { HasSeen result [] }
    {
        Seen {
            routers: BTreeSet::new(alloc),
            networks: BTreeSet::new(alloc),
        }
    }

    /// How many router-LSAs were seen.
    pub fn router_count(&self) -> usize
        ensures { result ≡ btree_set_len self.now.routers }
    {
        self.routers.len()
    }

    /// Adds an LSA; tells whether no other of its name was seen.
    pub fn add(&mut self, lsa: &Lsa) -> Result<bool, OutOfMemory>
        ensures new { IfOk result (λ new. (lsas : List OneLsa) → HasSeen self.old lsas →
            new ≡ not (list_any (is_same lsa.now) lsas)) }
        ensures added { IfOk result (λ new. (lsas : List OneLsa) → HasSeen self.old lsas →
            IsTrue new → HasSeen self.new (lsas ++ lsa.now ∷ [])) }
    {
        match lsa.body {
            Body::Links(_) => Ok(self.routers.insert(lsa.router)?),
            Body::Attached(_) => Ok(self.networks.insert(lsa.id)?),
        }
    }
}
