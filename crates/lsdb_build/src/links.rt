//! Which interfaces are linked, and the links and transit subnets that they make.
ghost use Rattle.std.specs.Prelude.{◌≡◌, ◌<◌, ◌≤◌, ◌&&◌, not, List, [], length, map, slice_get, IfOk};
ghost use Rattle.std.specs.List.{list_any};
ghost use Rattle.lsdb_build.specs.Neighbours.{Port, is_linked_kind, is_linked, linked, is_broadcast, first_members, shares_subnet, is_other, place_from};
ghost use Rattle.lsdb_build.specs.Topology.{places_from};
ghost use Rattle.lsdb_build.specs.Tallies.{IsTally, same_subnet, subnet_of};
ghost use Rattle.lsdb_build.specs.Places.{ArePlaces, places_at, passes};
ghost use Rattle.lsdb_build.specs.Links.{router_at, far_among, link_back_among, link_among};

use crate::members::{count_members, members_on};
use crate::places::{Places, places_of};
use crate::port::{Port, Subnet, is_broadcast, shares_subnet, subnet_of};
use crate::tally::Tally;
use crate::{Far, Linked};
use cost_base::{Listed, Name, OutOfMemory};
use interface_model::{Kind, RouterConfig};
use std::alloc::Global;

/// Whether a subnet of so many members links them: a point-to-point subnet links exactly two, a broadcast subnet
/// two or more.
fn links_members(kind: Kind, members: u32) -> bool
    ensures { result ≡ is_linked_kind kind members }
{
    match kind {
        Kind::PointToPoint => members == 2,
        Kind::Broadcast => members >= 2,
    }
}

/// Whether an interface is linked, from how many interfaces stand on each subnet.
fn is_linked(members: &Tally<Subnet>, port: &Port) -> bool
    ensures { (all : List Port) → IsTally same_subnet members.now.counts (map subnet_of all) →
        result ≡ is_linked all port.now }
{
    links_members(port.interface.kind, members_on(members, port))
}

/// The linked interfaces, in order.
pub fn linked_ports<'a>(alloc: Global, ports: &[Port<'a>]) -> Result<Vec<Port<'a>>, OutOfMemory>
    requires { length ports.now ≤ 4000 }
    ensures { IfOk result (λ found. found.items ≡ linked ports.now) }
{
    let members = count_members(alloc, ports)?;
    let mut found = Vec::new(alloc);
    for port in ports {
        if is_linked(&members, port) {
            found.push(port.again())?;
        }
    }
    Ok(found)
}

/// Whether an interface is a transit subnet's first member, from how many linked interfaces before it stand
/// on each subnet.
fn is_first_member(seen: &Tally<Subnet>, port: &Port) -> bool
    ensures { (before : List Port) → IsTally same_subnet seen.now.counts (map subnet_of before) →
        result ≡ (is_broadcast port.now && not (list_any (shares_subnet port.now) before)) }
{
    let members = members_on(seen, port);
    is_broadcast(port) && members == 0
}

/// The first members of the transit subnets among linked interfaces, in order, each counted on its subnet.
fn first_ports<'a>(
    alloc: Global,
    seen: &mut Tally<Subnet>,
    links: &[Port<'a>],
) -> Result<Vec<Port<'a>>, OutOfMemory>
    requires few { length links.now ≤ 4000 }
    requires none { IsTally same_subnet seen.old.counts [] }
    ensures { IfOk result (λ found. found.items ≡ first_members [] links.now) }
{
    let mut found = Vec::new(alloc);
    for port in links {
        if is_first_member(seen, port) {
            found.push(port.again())?;
        }
        seen.add(subnet_of(port))?;
    }
    Ok(found)
}

/// The first members of the transit subnets among linked interfaces, in order.
pub fn transit_ports<'a>(alloc: Global, links: &[Port<'a>]) -> Result<Vec<Port<'a>>, OutOfMemory>
    requires { length links.now ≤ 4000 }
    ensures { IfOk result (λ found. found.items ≡ first_members [] links.now) }
{
    let mut seen = Tally::new(alloc);
    first_ports(alloc, &mut seen, links)
}

/// Whether another interface stands on the same subnet.
fn is_other(port: &Port, other: &Port) -> bool
    ensures { result ≡ is_other port.now other.now }
{
    shares_subnet(port, other) && !(port.router == other.router && port.address == other.address)
}

/// Whether the interface at a place is another one on an interface's subnet.
fn is_other_at(links: &[Port], place: u32, port: &Port) -> bool
    ensures { result ≡ passes (is_other port.now) (slice_get links.now place) }
{
    match links.get(place as usize) {
        Some(other) => is_other(port, other),
        None => false,
    }
}

/// The place of the other interface of a point-to-point subnet.
fn place_of_other(links: &[Port], places: &Places, port: &Port) -> Option<u32>
    requires { ArePlaces places.now.by_subnet links.now }
    ensures { result ≡ place_from 0 (is_other port.now) links.now }
{
    let members = places.on(port);
    for place in members {
        if is_other_at(links, *place, port) {
            return Some(*place);
        }
    }
    None
}

/// The place of an interface's transit subnet.
fn place_of_subnet(firsts: &Places, port: &Port) -> Option<u32>
    ensures { (transit : List Port) → ArePlaces firsts.now.by_subnet transit →
        result ≡ place_from 0 (shares_subnet port.now) transit }
{
    firsts.on(port).first().copied()
}

/// The router of the link at a place, 0 where there is none.
fn router_at(links: &[Port], place: Option<u32>) -> u32
    ensures { result ≡ router_at links.now place }
{
    let Some(place) = place else {
        return 0;
    };
    match links.get(place as usize) {
        Some(port) => port.router,
        None => 0,
    }
}

/// Where the link of an interface leads, and its other end.
fn far_and_link_back(
    links: &[Port],
    places: &Places,
    firsts: &Places,
    port: &Port,
) -> (Far, Option<u32>)
    requires { ArePlaces places.now.by_subnet links.now }
    ensures far { (transit : List Port) → ArePlaces firsts.now.by_subnet transit →
        result.0 ≡ far_among links.now transit port.now port.now.interface.kind }
    ensures link_back { result.1 ≡ link_back_among links.now port.now port.now.interface.kind }
{
    match port.interface.kind {
        Kind::PointToPoint => {
            let link_back = place_of_other(links, places, port);
            (Far::Router(router_at(links, link_back)), link_back)
        }
        Kind::Broadcast => {
            let subnet = place_of_subnet(firsts, port);
            (Far::Subnet(subnet.unwrap_or(0)), None)
        }
    }
}

/// The link of a linked interface, by the places of the linked interfaces and those of the first members
/// of transit subnets.
fn link_of(
    alloc: Global,
    links: &[Port],
    places: &Places,
    firsts: &Places,
    port: &Port,
) -> Result<Linked, OutOfMemory>
    requires { ArePlaces places.now.by_subnet links.now }
    ensures { IfOk result (λ link. (transit : List Port) → ArePlaces firsts.now.by_subnet transit →
        link ≡ link_among links.now transit port.now) }
{
    let (to, link_back) = far_and_link_back(links, places, firsts, port);
    let interface = port.interface;
    Ok(Linked {
        router: port.router,
        interface: Name::from_bytes(alloc, interface.name.as_bytes())?,
        line: interface.line,
        cost: interface.cost,
        to,
        link_back,
    })
}

/// The links of the linked interfaces, in order, by their places and those of the first members of transit subnets.
fn links_by(
    alloc: Global,
    links: &[Port],
    places: &Places,
    firsts: &Places,
) -> Result<Vec<Linked>, OutOfMemory>
    requires { ArePlaces places.now.by_subnet links.now }
    ensures { IfOk result (λ made. (transit : List Port) → ArePlaces firsts.now.by_subnet transit →
        made.items ≡ map (link_among links.now transit) links.now) }
{
    let mut made = Vec::new(alloc);
    for port in links {
        made.push(link_of(alloc, links, places, firsts, port)?)?;
    }
    Ok(made)
}

/// The links of the linked interfaces, in order, by the places of these interfaces.
pub fn links_of(
    alloc: Global,
    links: &[Port],
    places: &Places,
    transit: &[Port],
) -> Result<Vec<Linked>, OutOfMemory>
    requires places { ArePlaces places.now.by_subnet links.now }
    requires transit { length transit.now ≤ 4000 }
    ensures { IfOk result (λ made. made.items ≡ map (link_among links.now transit.now) links.now) }
{
    let firsts = places_of(alloc, transit)?;
    links_by(alloc, links, places, &firsts)
}

/// The places of the linked interfaces on one subnet, in order.
fn members_of(alloc: Global, places: &Places, first: &Port) -> Result<Listed<u32>, OutOfMemory>
    ensures { IfOk result (λ members. members ≡ places_at places.now.by_subnet
        (subnet_of first.now)) }
{
    let members = places.on(first).to_vec(alloc)?;
    Ok(Listed::from_items(members))
}

/// The members of each transit subnet, in the order of their first members, by the places of the linked interfaces.
pub fn subnets_of(
    alloc: Global,
    places: &Places,
    transit: &[Port],
) -> Result<Vec<Listed<u32>>, OutOfMemory>
    ensures { IfOk result (λ made. (links : List Port) → ArePlaces places.now.by_subnet links →
        made.items ≡ map (λ first. places_from 0 (shares_subnet first) links) transit.now) }
{
    let mut made = Vec::new(alloc);
    for first in transit {
        let members = members_of(alloc, places, first)?;
        made.push(members)?;
    }
    Ok(made)
}

/// The names of the routers, in order.
pub fn names_of(alloc: Global, configs: &[RouterConfig]) -> Result<Vec<Name>, OutOfMemory>
    ensures { IfOk result (λ made. made.items ≡ map (λ r. r.name) configs.now) }
{
    let mut made = Vec::new(alloc);
    for config in configs {
        let name = Name::from_bytes(alloc, config.name.as_bytes())?;
        made.push(name)?;
    }
    Ok(made)
}
