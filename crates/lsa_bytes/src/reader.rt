//! The LSAs of a database that is made LSA by LSA.
ghost use Rattle.std.specs.Prelude.{◌≡◌, ◌&&◌, [], ◌∷◌, ◌++◌, None, MatchResult, count_by, nat_le, true};
ghost use Rattle.std.specs.List.{list_any};
ghost use Rattle.lsa_bytes.specs.Databases.{HaveNoFault, has_link_types, has_zero_metric, is_router_lsa, is_zero_link};
ghost use Rattle.lsa_bytes.specs.Faults.{TellsLsaFault, lsa_fault_behind, placed};

use crate::seen::Seen;
use crate::{Body, Lsa, LsaFault, LsaLink, POINT_TO_POINT_LINK, TRANSIT_LINK};
use area_graph::MOST_ROUTERS;
use cost_base::Refusal;
use std::alloc::Global;
use std::marker::Model;

/// LSAs without a fault, with a look-up by what names them.
#[derive(Drop)]
pub struct Reader {
    lsas: Vec<Lsa>,
    seen: Seen,
}

impl Model for Reader {
    ghost use Rattle.std.specs.Prelude.{List};
    ghost use Rattle.lsa_bytes.specs.declared.Lsa.{Lsa as OneLsa};
    ghost use Rattle.lsa_bytes.specs.Databases.{HaveNoFault};
    ghost use Rattle.lsa_bytes.specs.Seen.{HasSeen};

    ghost Value = { List OneLsa };

    ghost view = { λ r. r.lsas.items };

    ghost invariant = { λ r. record {
      seen : HasSeen r.seen r.lsas.items;
      faultless : HaveNoFault r.lsas.items;
    } };
}

impl Reader {
    /// No LSA.
    pub fn new(alloc: Global) -> Reader
        ensures { result ≡ [] }
    {
        Reader {
            lsas: Vec::new(alloc),
            seen: Seen::new(alloc),
        }
    }

    /// With one more LSA.
    pub fn with(self, lsa: Lsa, place: u32) -> Result<Reader, Refusal<LsaFault>>
        requires { has_link_types lsa.body ≡ true }
        ensures { MatchResult result (λ reader. (lsa_fault_behind self lsa ≡ None) ×
            (reader ≡ self ++ lsa ∷ []))
            (TellsLsaFault (placed place (lsa_fault_behind self lsa))) }
    {
        if self.has_no_room(&lsa) {
            return Err(Refusal::at(place, LsaFault::TooManyRouters));
        }
        let Reader { mut lsas, mut seen } = self;
        if !seen.add(&lsa)? {
            return Err(Refusal::at(place, LsaFault::LsaTwice));
        }
        if has_zero_metric(&lsa.body) {
            return Err(Refusal::at(place, LsaFault::ZeroMetric));
        }
        lsas.push(lsa)?;
        Ok(Reader { lsas, seen })
    }

    /// Whether an LSA is a router-LSA more than a database may have.
    fn has_no_room(&self, lsa: &Lsa) -> bool
        ensures { result ≡ (is_router_lsa lsa.now && nat_le 1000
            (count_by is_router_lsa self.now)) }
    {
        is_router(lsa) && self.seen.router_count() >= MOST_ROUTERS
    }

    /// The LSAs, in order.
    pub fn into_lsas(self) -> Vec<Lsa>
        ensures lsas { result.items ≡ self }
        ensures faultless { HaveNoFault self }
    {
        let Reader { lsas, seen: _ } = self;
        lsas
    }
}

/// Whether an LSA is a router-LSA.
pub fn is_router(lsa: &Lsa) -> bool
    ensures { result ≡ is_router_lsa lsa.now }
{
    matches!(lsa.body, Body::Links(_))
}

/// Whether a link of type 1 or 2 has metric 0.
fn is_zero_link(link: &LsaLink) -> bool
    ensures { result ≡ is_zero_link link.now }
{
    (link.kind == POINT_TO_POINT_LINK || link.kind == TRANSIT_LINK) && link.metric == 0
}

/// Whether one of the links is of type 1 or 2 and has metric 0.
fn has_zero_link(links: &[LsaLink]) -> bool
    ensures { result ≡ list_any is_zero_link links.now }
{
    links.iter().any(|link| is_zero_link(link))
}

/// Whether a body has a link of type 1 or 2 with metric 0.
fn has_zero_metric(body: &Body) -> bool
    ensures { result ≡ has_zero_metric body.now }
{
    match body {
        Body::Links(links) => has_zero_link(links.as_slice()),
        Body::Attached(_) => false,
    }
}
