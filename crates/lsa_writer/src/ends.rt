//! The ends of links.
ghost use Rattle.std.specs.Prelude.{◌≡◌, ◌≢◌, ◌<◌, AllPairs, IfOk, MatchOption, length, option_copied, slice_get};
ghost use Rattle.cost_base.specs.Lists.{same_bytes};
ghost use Rattle.lsa_writer.specs.Ends.{end_at, end_of, end_with, link_ends, id_of, interface_named, interfaces_in};
ghost use Rattle.std.specs.Option.{option_and_then};

use cost_base::OutOfMemory;
use interface_model::{Interface, RouterConfig};
use lsdb_build::Linked;
use std::alloc::Global;

/// The end of a link, as LSAs tell it.
#[derive(Clone, Copy)]
pub struct LinkEnd {
    /// The router ID.
    pub router: u32,
    /// The interface's address.
    pub address: u32,
    /// The prefix length of the address.
    pub length: u8,
    /// The interface's priority at the election of a designated router.
    pub priority: u8,
}

/// What stands for the end of a link that isn't there.
pub const NO_END: LinkEnd = LinkEnd {
    router: 0,
    address: 0,
    length: 0,
    priority: 0,
};

/// The router ID of a configuration by its number, 0 where there is none.
pub fn id_of(configs: &[RouterConfig], router: u32) -> u32
    ensures { result ≡ id_of configs.now router }
{
    match configs.get(router as usize) {
        Some(config) => config.router_id.unwrap_or(0),
        None => 0,
    }
}

/// The interfaces of a configuration by its number.
fn interfaces_of(configs: &[RouterConfig], router: u32) -> &[Interface]
    ensures value { result.now ≡ interfaces_in (slice_get configs.now router) }
    ensures different { AllPairs (λ a b. a.name ≢ b.name) result.now }
{
    match configs.get(router as usize) {
        Some(config) => config.interfaces.as_slice(),
        None => &[],
    }
}

/// Whether an interface has a name.
fn has_name(interface: &Interface, name: &[u8]) -> bool
    ensures { result ≡ same_bytes name.now interface.now.name }
{
    name == interface.name.as_bytes()
}

/// The place of the interface of a name.
fn place_of(interfaces: &[Interface], name: &[u8]) -> Option<usize>
    ensures found { option_and_then (slice_get interfaces.now) result ≡
        interface_named name.now interfaces.now }
    ensures within { MatchOption result (Unit {0}) (λ place. place < length interfaces.now) }
{
    for (place, interface) in interfaces.iter().enumerate() {
        if has_name(interface, name) {
            return Some(place);
        }
    }
    None
}

/// The place of the interface of a name, looked for from a place on and then before it. So no interface is gone over
/// twice where names are looked up in the order of the interfaces.
fn place_from(interfaces: &[Interface], name: &[u8], from: usize) -> Option<usize>
    requires { AllPairs (λ a b. a.name ≢ b.name) interfaces.now }
    ensures { option_and_then (slice_get interfaces.now) result ≡
        interface_named name.now interfaces.now }
{
    // The place to begin at may be one of a router with more interfaces, whose link stands before this one.
    let (before, behind) = interfaces.split_at(from.min(interfaces.len()));
    match place_of(behind, name) {
        Some(place) => Some(before.len() + place),
        None => place_of(before, name),
    }
}

/// The end of a link at an interface of a router by its router ID.
fn end_with(id: u32, interface: Option<&Interface>) -> LinkEnd
    ensures { result ≡ end_with id (option_copied interface.entry) }
{
    match interface {
        Some(interface) => LinkEnd {
            router: id,
            address: interface.address.unwrap_or(0),
            length: interface.length,
            priority: interface.priority,
        },
        None => LinkEnd {
            router: id,
            ..NO_END
        },
    }
}

/// The interface at a place, if one was found.
fn interface_at(interfaces: &[Interface], place: Option<usize>) -> Option<&Interface>
    ensures { option_copied result ≡ option_and_then (slice_get interfaces.now) place }
{
    match place {
        Some(place) => interfaces.get(place),
        None => None,
    }
}

/// The place behind one that was found, or the first.
fn next_place(place: Option<usize>) -> usize {
    match place {
        // For the prover alone: a place is below a list's length, so nothing saturates; no clause says so here.
        Some(place) => place.saturating_add(1),
        None => 0,
    }
}

/// The end of a link, whose interface is looked for from a place on; and the place behind it.
fn end_of(configs: &[RouterConfig], link: &Linked, from: usize) -> (LinkEnd, usize)
    ensures { result.0 ≡ end_of configs.now link.now }
{
    let interfaces = interfaces_of(configs, link.router);
    let place = place_from(interfaces, link.interface.as_bytes(), from);
    let id = id_of(configs, link.router);
    (
        end_with(id, interface_at(interfaces, place)),
        next_place(place),
    )
}

/// The ends of links, in order.
///
/// # Errors
///
/// `OutOfMemory`.
pub fn ends_of(
    alloc: Global,
    configs: &[RouterConfig],
    links: &[Linked],
) -> Result<Vec<LinkEnd>, OutOfMemory>
    ensures { IfOk result (λ ends. ends.items ≡ link_ends configs.now links.now) }
{
    let mut ends = Vec::new(alloc);
    let mut next = 0;
    for link in links {
        let (end, behind) = end_of(configs, link, next);
        ends.push(end)?;
        next = behind;
    }
    Ok(ends)
}

/// The end of a link by its number.
pub fn end_at(ends: &[LinkEnd], link: u32) -> LinkEnd
    ensures { result ≡ end_at ends.now link }
{
    ends.get(link as usize).copied().unwrap_or(NO_END)
}
