//! Looks up routers and linked interfaces by their names.
ghost use Rattle.std.specs.Prelude.{◌≡◌, ◌≢◌, ℕ, List, ◌<◌, [], true, false, length, map, slice_index_or, All, AllPairs, MatchOption, IfOk, IfErr};
ghost use Rattle.cost_base.specs.Lists.{first_of};
ghost use Rattle.area_graph.specs.declared.Price.TheVariants.{Fixed};
ghost use Rattle.lsdb_build.specs.Graphs.{IsAreaDatabase, IsLinkPrice, graph_at, router_of};
ghost use Rattle.lsdb_build.specs.LinkNames.{link_interface, link_router};
ghost use Rattle.wanted_paths.specs.Paths.{router_number, link_number};
ghost use Rattle.wanted_paths.specs.Keys.{link_key};
ghost use Rattle.wanted_paths.specs.Resolution.{knows_router, knows_link};
ghost use Rattle.wanted_paths.specs.Paths.{outline};
ghost use Rattle.wanted_paths.specs.LineFaults.{router_faults, interface_faults, TellsResolution};

use crate::ResolutionFault;
use area_graph::{Graph, Price};
use cost_base::{Name, OutOfMemory, Refusal};
use indexmap::IndexSet;
use lsdb_build::{Linked, Lsdb, graph_of};
use std::alloc::Global;
use std::marker::Model;

/// An area's routers and links, which are looked up by their names. The place of a router's name is its number, and
/// so is the place of a link's router and interface. Contracts see the database.
#[derive(Drop)]
pub struct Names<'a> {
    lsdb: &'a Lsdb,
    routers: IndexSet<&'a [u8]>,
    links: IndexSet<(u32, &'a [u8])>,
}

impl<'a> Model for Names<'a> {
    ghost use Rattle.std.specs.Prelude.{◌≡◌, ℕ, List, map};
    ghost use Rattle.wanted_paths.specs.Keys.{link_key};
    ghost use Rattle.lsdb_build.specs.Graphs.{Database, IsAreaDatabase};

    ghost Value = { Database };

    ghost view = { λ n. n.lsdb.now };

    ghost invariant = { λ n. record {
      base : IsAreaDatabase n.lsdb.now;
      routers : map (λ name. name.now) n.routers.keys ≡ n.lsdb.now.routers;
      links : map {B = ℕ × List ℕ} (λ key. (key.0, key.1.now)) n.links.keys ≡
          map link_key n.lsdb.now.links;
    } };
}

/// The set of the routers' names, in order.
fn router_set<'a>(alloc: Global, routers: &'a [Name]) -> Result<IndexSet<&'a [u8]>, OutOfMemory>
    requires { AllPairs (λ a b. a ≢ b) routers.now }
    ensures { IfOk result (λ set. map (λ name. name.now) set.keys ≡ routers.now) }
{
    let mut set = IndexSet::new(alloc);
    for router in routers {
        set.insert(router.as_bytes())?;
    }
    Ok(set)
}

/// The set of the links' routers and interfaces, in order.
fn link_set<'a>(
    alloc: Global,
    links: &'a [Linked],
) -> Result<IndexSet<(u32, &'a [u8])>, OutOfMemory>
    requires { AllPairs (λ a b. a ≢ b) (map link_key links.now) }
    ensures { IfOk result (λ set. map {B = ℕ × List ℕ} (λ key. (key.0, key.1.now)) set.keys ≡
        map link_key links.now) }
{
    let mut set = IndexSet::new(alloc);
    for link in links {
        set.insert((link.router, link.interface.as_bytes()))?;
    }
    Ok(set)
}

/// Cost 1, whatever the link.
fn unit_price(_link: &Linked) -> Price
    ensures { result ≡ Fixed 1 }
{
    Price::Fixed(1)
}

/// Cost 1 for each link.
fn ones(alloc: Global, links: &[Linked]) -> Result<Vec<Price>, OutOfMemory>
    ensures { IfOk result (λ made. made.items ≡ map (λ link. Fixed 1) links.now) }
{
    let mut made = Vec::new(alloc);
    for link in links {
        made.push(unit_price(link))?;
    }
    Ok(made)
}

impl<'a> Names<'a> {
    /// The names of an area's routers and links.
    ///
    /// # Errors
    ///
    /// `OutOfMemory`.
    pub fn new(alloc: Global, lsdb: &'a Lsdb) -> Result<Names<'a>, OutOfMemory>
        ensures { IfOk result (λ names. names ≡ lsdb.now) }
    {
        let routers = router_set(alloc, lsdb.routers())?;
        let links = link_set(alloc, lsdb.links())?;
        Ok(Names {
            lsdb,
            routers,
            links,
        })
    }

    /// The number of the router of a name.
    fn find_router(&self, name: &[u8]) -> Option<u32>
        ensures base { IsAreaDatabase self.now }
        ensures found { MatchOption result (knows_router self.now name.now ≡ false)
            (λ r. (knows_router self.now name.now ≡ true) × (r ≡ router_number self.now name.now)) }
    {
        match self.routers.get_index_of(name) {
            Some(place) => Some(place as u32),
            None => None,
        }
    }

    /// The number of the link of an interface, by the number of its router.
    fn find_link(&self, router: u32, interface: &[u8]) -> Option<u32>
        ensures { (name : List ℕ) → knows_router self.now name ≡ true →
            router ≡ router_number self.now name → MatchOption result
            (knows_link self.now name interface.now ≡ false) (λ l.
            (knows_link self.now name interface.now ≡ true) ×
            (l ≡ link_number self.now name interface.now)) }
    {
        match self.links.get_index_of(&(router, interface)) {
            Some(place) => Some(place as u32),
            None => None,
        }
    }

    /// The number of the router of a name, 0 where there is none.
    pub fn router_number(&self, name: &[u8]) -> u32
        ensures { result ≡ router_number self.now name.now }
    {
        self.find_router(name).unwrap_or(0)
    }

    /// The number of the link of an interface, by the name of its router.
    pub fn find_interface(&self, router: &[u8], interface: &[u8]) -> Option<u32>
        ensures base { IsAreaDatabase self.now }
        ensures found { MatchOption result (knows_link self.now router.now interface.now ≡ false)
            (λ l. (knows_link self.now router.now interface.now ≡ true) ×
            (l ≡ link_number self.now router.now interface.now)) }
    {
        match self.find_router(router) {
            Some(number) => self.find_link(number, interface),
            None => None,
        }
    }

    /// The number of the link of an interface, 0 where there is none.
    pub fn link_number(&self, router: &[u8], interface: &[u8]) -> u32
        ensures { result ≡ link_number self.now router.now interface.now }
    {
        self.find_interface(router, interface).unwrap_or(0)
    }

    /// The number of the router of a name; where there is none, the fault of the line.
    ///
    /// # Errors
    ///
    /// The fault of a line that names an unknown router.
    pub fn router(&self, line: u32, name: &[u8]) -> Result<u32, Refusal<ResolutionFault, ()>>
        ensures made { IfOk result (λ r. (router_faults self.now line name.now ≡ []) ×
            (r ≡ router_number self.now name.now)) }
        ensures refused { IfErr result
            (TellsResolution (first_of (router_faults self.now line name.now))) }
        ensures told { IfErr result (λ refusal. refusal ≢ Refusal.OutOfMemory) }
    {
        match self.find_router(name) {
            Some(router) => Ok(router),
            None => Err(Refusal::at((), ResolutionFault::UnknownRouter { line })),
        }
    }

    /// The number of the link of an interface; where there is none, the fault of the line.
    ///
    /// # Errors
    ///
    /// The fault of a line that names an unknown router or interface.
    pub fn link(
        &self,
        line: u32,
        router: &[u8],
        interface: &[u8],
    ) -> Result<u32, Refusal<ResolutionFault, ()>>
        ensures made { IfOk result
            (λ l. (interface_faults self.now line router.now interface.now ≡ []) ×
            (l ≡ link_number self.now router.now interface.now)) }
        ensures refused { IfErr result
            (TellsResolution (first_of (interface_faults self.now line router.now interface.now))) }
        ensures told { IfErr result (λ refusal. refusal ≢ Refusal.OutOfMemory) }
    {
        let number = self.router(line, router)?;
        match self.find_link(number, interface) {
            Some(link) => Ok(link),
            None => Err(Refusal::at((), ResolutionFault::UnknownInterface { line })),
        }
    }

    /// The routers' names, in order.
    pub fn routers(&self) -> &[Name]
        ensures value { result.now ≡ self.now.routers }
        ensures base { IsAreaDatabase self.now }
    {
        self.lsdb.routers()
    }

    /// The links, in order.
    pub fn links(&self) -> &[Linked]
        ensures value { result.now ≡ self.now.links }
        ensures base { IsAreaDatabase self.now }
    {
        self.lsdb.links()
    }

    /// The links of the members of a transit subnet.
    pub fn members(&self, subnet: u32) -> &[u32]
        ensures { result.now ≡ slice_index_or self.now.subnets subnet [] }
    {
        let lsdb = self.lsdb;
        match lsdb.subnets.as_slice().get(subnet as usize) {
            Some(members) => members.as_slice(),
            None => &[],
        }
    }

    /// The graph of the area at given prices of its links, as `graph_of` makes it.
    ///
    /// # Errors
    ///
    /// `OutOfMemory`.
    pub fn graph(&self, alloc: Global, prices: &[Price]) -> Result<Graph, OutOfMemory>
        requires one_each { length prices.now ≡ length self.now.links }
        requires priced { All IsLinkPrice prices.now }
        ensures { IfOk result (λ graph. graph ≡ graph_at self.now prices.now) }
    {
        graph_of(alloc, self.lsdb, prices)
    }

    /// The graph of the area with cost 1 at each link, which tells what an edge joins.
    ///
    /// # Errors
    ///
    /// `OutOfMemory`.
    pub fn outline(&self, alloc: Global) -> Result<Graph, OutOfMemory>
        ensures { IfOk result (λ graph. graph ≡ outline self.now) }
    {
        let prices = ones(alloc, self.links())?;
        self.graph(alloc, prices.as_slice())
    }

    /// The name of a router.
    pub fn router_name(&self, number: u32) -> &[u8]
        ensures { result.now ≡ slice_index_or self.now.routers number [] }
    {
        self.lsdb.router_name(number)
    }

    /// The name of the router that the link of a number leaves; none where there is no such link.
    pub fn link_router(&self, link: u32) -> &[u8]
        ensures { result.now ≡ link_router self.now link }
    {
        self.lsdb.link_router(link)
    }

    /// The name of the interface by which the link of a number leaves its router; none where there is no such link.
    pub fn link_interface(&self, link: u32) -> &[u8]
        ensures { result.now ≡ link_interface self.now link }
    {
        self.lsdb.link_interface(link)
    }

    /// The router of a link.
    pub fn router_of(&self, link: u32) -> u32
        ensures { result ≡ router_of self.now.links link }
    {
        match self.links().get(link as usize) {
            Some(link) => link.router,
            None => 0,
        }
    }
}
