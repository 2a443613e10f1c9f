//! The LSAs of a database, found by what names them.
ghost use Rattle.std.specs.Prelude.{◌≡◌, ◌==◌, ◌-◌, ◌<◌, ◌^◌, ℕ, IfOk, OnOk, length, if◌then◌else◌, Some, true};
ghost use Rattle.std.specs.List.{AllZip};
ghost use Rattle.std.specs.Option.{option_or};
ghost use Rattle.std.specs.Ordering.{nat_cmp};
ghost use Rattle.std.specs.BTreeMap.{get};
ghost use Rattle.lsa_bytes.specs.Grammar.{is_read};
ghost use Rattle.lsa_bytes.specs.AreaGraphs.{attaches, has_link, network_vertex_back, networks_among, router_vertex_back, routers_among};
ghost use Rattle.lsa_bytes.specs.Vertices.{AddsLsa, AreEnds, HasFound, is_kind, name_as, spot_if};

use crate::Lsa;
use crate::ends::{Ends, attaches, ends_of, has_link};
use crate::reader::is_router;
use cost_base::OutOfMemory;
use std::alloc::Global;
use std::collections::BTreeMap;
use std::marker::Model;

/// The two kinds of LSAs.
#[derive(Clone, Copy)]
pub enum Kind {
    Router,
    Network,
}

/// Where an LSA stands: its number among those of its kind, and its place among all.
#[derive(Clone, Copy)]
pub struct Spot {
    number: u32,
    place: u32,
}

/// The LSAs of a kind, found by what names them.
#[derive(Drop)]
pub struct Found {
    by_name: BTreeMap<u32, Spot>,
    count: u32,
}

/// Whether an LSA is of a kind.
pub fn is_kind(kind: Kind, lsa: &Lsa) -> bool
    ensures { result ≡ is_kind kind lsa.now }
{
    match kind {
        Kind::Router => is_router(lsa),
        Kind::Network => !is_router(lsa),
    }
}

/// What names an LSA of a kind: the advertising router of a router-LSA, the link state ID of a network-LSA.
fn name_as(kind: Kind, lsa: &Lsa) -> Option<u32>
    ensures { result ≡ name_as kind lsa.now }
{
    match kind {
        Kind::Router if is_router(lsa) => Some(lsa.router),
        Kind::Network if !is_router(lsa) => Some(lsa.id),
        _ => None,
    }
}

/// Keeps a spot by a name, unless the name has one.
fn keep(spots: &mut BTreeMap<u32, Spot>, name: u32, spot: Spot) -> Result<(), OutOfMemory>
    ensures { OnOk result ((id : ℕ) → get nat_cmp spots.new id ≡
        option_or (get nat_cmp spots.old id) (if name == id then Some spot else None)) }
{
    spots.entry(name)?.or_insert(spot);
    Ok(())
}

impl Found {
    /// The LSAs of a kind.
    fn among(alloc: Global, lsas: &[Lsa], kind: Kind) -> Result<Found, OutOfMemory>
        requires { length lsas.now < 2 ^ 30 }
        ensures { IfOk result (λ found. HasFound kind lsas.now found) }
    {
        let mut found = Found {
            by_name: BTreeMap::new(alloc),
            count: 0,
        };
        for (place, lsa) in lsas.iter().enumerate() {
            found.add(name_as(kind, lsa), place as u32)?;
        }
        Ok(found)
    }

    /// Adds the LSA at a place, if it has a name.
    fn add(&mut self, name: Option<u32>, place: u32) -> Result<(), OutOfMemory>
        requires { self.old.count < 2 ^ 32 - 1 }
        ensures { OnOk result (AddsLsa self.old self.new name place) }
    {
        if let Some(name) = name {
            let spot = Spot {
                number: self.count,
                place,
            };
            keep(&mut self.by_name, name, spot)?;
            self.count += 1;
        }
        Ok(())
    }

    /// Where the LSA of a name stands.
    fn spot(&self, name: u32) -> Option<Spot>
        ensures { result ≡ get nat_cmp self.now.by_name name }
    {
        self.by_name.get(&name).copied()
    }
}

/// Where each of the LSAs leads.
#[tactic(auto, using(crate::proofs::MemberLaws::lead_more))]
fn ends_of_all(alloc: Global, lsas: &[Lsa]) -> Result<Vec<Ends>, OutOfMemory>
    ensures { IfOk result (λ ends. AllZip (λ lsa ends. AreEnds lsa.body ends) lsas.now ends.items) }
{
    let mut ends = Vec::new(alloc);
    for lsa in lsas {
        ends.push(ends_of(alloc, &lsa.body)?)?;
    }
    Ok(ends)
}

/// The LSAs of a database, found by what names them. Contracts see the LSAs.
#[derive(Drop)]
pub struct Vertices<'a> {
    lsas: &'a [Lsa],
    ends: Vec<Ends>,
    routers: Found,
    networks: Found,
}

impl<'a> Model for Vertices<'a> {
    ghost use Rattle.std.specs.Prelude.{◌<◌, ◌^◌, List, length};
    ghost use Rattle.lsa_bytes.specs.declared.Lsa.{Lsa as OneLsa};
    ghost use Rattle.lsa_bytes.specs.declared.vertices.Kind.TheVariants.{Router, Network};
    ghost use Rattle.std.specs.List.{AllZip};
    ghost use Rattle.lsa_bytes.specs.Vertices.{AreEnds, HasFound};

    ghost Value = { List OneLsa };

    ghost view = { λ v. v.lsas.now };

    ghost invariant = { λ v. record {
      routers : HasFound Router v.lsas.now v.routers;
      networks : HasFound Network v.lsas.now v.networks;
      ends : AllZip (λ lsa ends. AreEnds lsa.body ends) v.lsas.now v.ends.items;
      few : length v.lsas.now < 2 ^ 30;
    } };
}

impl<'a> Vertices<'a> {
    /// Finds each LSA by what names it.
    pub fn of(alloc: Global, lsas: &'a [Lsa]) -> Result<Vertices<'a>, OutOfMemory>
        requires { length lsas.now < 2 ^ 30 }
        ensures { IfOk result (λ vertices. vertices ≡ lsas.now) }
    {
        let routers = Found::among(alloc, lsas, Kind::Router)?;
        let networks = Found::among(alloc, lsas, Kind::Network)?;
        let ends = ends_of_all(alloc, lsas)?;
        Ok(Vertices {
            lsas,
            ends,
            routers,
            networks,
        })
    }

    /// The LSAs, in order.
    pub fn lsas(&self) -> &[Lsa]
        ensures { result.now ≡ self.now }
    {
        self.lsas
    }

    /// How many routers there are. Their vertices come first.
    pub fn router_count(&self) -> u32
        ensures { result ≡ length (routers_among self.now) }
    {
        self.routers.count
    }

    /// How many networks there are.
    pub fn network_count(&self) -> u32
        ensures { result ≡ length (networks_among self.now) }
    {
        self.networks.count
    }

    /// The vertex of a router, if its LSA has a link of this type, which is 1 or 2, with this ID.
    pub fn router_with_link(&self, router: u32, kind: u8, id: u32) -> Option<u32>
        requires { is_read kind ≡ true }
        ensures { result ≡ router_vertex_back self.now router (has_link kind id) }
    {
        match self.routers.spot(router) {
            Some(spot) if has_link(&self.ends[spot.place as usize], kind, id) => Some(spot.number),
            _ => None,
        }
    }

    /// The vertex of a network, if its LSA lists a router as attached.
    pub fn network_with_router(&self, id: u32, router: u32) -> Option<u32>
        ensures { result ≡ network_vertex_back self.now id (attaches router) }
    {
        match self.networks.spot(id) {
            Some(spot) if attaches(&self.ends[spot.place as usize], router) => {
                Some(self.routers.count + spot.number)
            }
            _ => None,
        }
    }
}
