//! What the bytes of one LSA say.
ghost use Rattle.std.specs.Prelude.{◌≡◌, ◌≤◌, ◌+◌, None, IfOk, MatchResult, MatchOption, length, option_to_list};
ghost use Rattle.lsa_bytes.specs.Grammar.{starts_link, link_length, link_at, links_of, links_of_router_lsa, attached_in, body_of, is_read, said_at, stamp_of};
ghost use Rattle.lsa_bytes.specs.Faults.{TellsLsaFault, body_fault, placed};

use crate::fields::{number_16, number_32};
use crate::instances::{Instance, Stamp};
use crate::{Body, Lsa, LsaFault, LsaLink, NETWORK_LSA, ROUTER_LSA};
use cost_base::{Listed, OutOfMemory, Refusal};
use std::alloc::Global;

/// The length of an LSA's header.
pub const HEADER_LENGTH: usize = 20;

/// Whether a link begins the bytes: one of type 1 to 4, whole with what stands for its types of service.
fn starts_link(bytes: &[u8]) -> bool
    ensures { result ≡ starts_link bytes.now }
{
    bytes.len() >= 12 && bytes.len() >= link_length(bytes) && matches!(bytes[8], 1..=4)
}

/// The length of the link that begins the bytes: 4 bytes for each type of service come behind its 12.
fn link_length(bytes: &[u8]) -> usize
    requires { 12 ≤ length bytes.now }
    ensures { result ≡ link_length bytes.now }
{
    12 + 4 * usize::from(bytes[9])
}

/// The link that begins the bytes.
fn link_at(bytes: &[u8]) -> LsaLink
    requires { 12 ≤ length bytes.now }
    ensures { result ≡ link_at bytes.now }
{
    LsaLink {
        id: number_32(bytes, 0),
        address: number_32(bytes, 4),
        kind: bytes[8],
        metric: number_16(bytes, 10),
    }
}

/// The links that the bytes are, or None where they aren't just so many links.
fn links_of(alloc: Global, count: u16, bytes: &[u8]) -> Result<Option<Listed<LsaLink>>, OutOfMemory>
    ensures { IfOk result (λ links. links ≡ links_of count bytes.now) }
{
    let mut links = Vec::new(alloc);
    let mut rest = bytes;
    for _ in 0..count {
        if !starts_link(rest) {
            return Ok(None);
        }
        links.push(link_at(rest))?;
        let (_, behind) = rest.split_at(link_length(rest));
        rest = behind;
    }
    if rest.is_empty() {
        Ok(Some(Listed::from_items(links)))
    } else {
        Ok(None)
    }
}

/// The links of a router-LSA, or None where its body is off the grammar.
fn links_in(alloc: Global, lsa: &[u8]) -> Result<Option<Listed<LsaLink>>, OutOfMemory>
    ensures { IfOk result (λ links. links ≡ links_of_router_lsa lsa.now) }
{
    if lsa.len() < 24 {
        return Ok(None);
    }
    let (_, links) = lsa.split_at(24);
    links_of(alloc, number_16(lsa, 22), links)
}

/// The attached routers of a network-LSA, or None where its body is off the grammar.
fn attached_in(alloc: Global, lsa: &[u8]) -> Result<Option<Listed<u32>>, OutOfMemory>
    ensures { IfOk result (λ routers. routers ≡ attached_in lsa.now) }
{
    let size = lsa.len().saturating_sub(24);
    if size < 4 || size % 4 != 0 {
        return Ok(None);
    }
    let mut routers = Vec::new(alloc);
    for i in 0..size / 4 {
        routers.push(number_32(lsa, 24 + 4 * i))?;
    }
    Ok(Some(Listed::from_items(routers)))
}

/// The body of an LSA, or None where its type isn't read or it is off the grammar.
fn body_of(alloc: Global, lsa: &[u8]) -> Result<Option<Body>, OutOfMemory>
    requires { 20 ≤ length lsa.now }
    ensures { IfOk result (λ body. body ≡ body_of lsa.now) }
{
    match lsa[3] {
        ROUTER_LSA => Ok(links_in(alloc, lsa)?.map(Body::Links)),
        NETWORK_LSA => Ok(attached_in(alloc, lsa)?.map(Body::Attached)),
        _ => Ok(None),
    }
}

/// Whether LSAs of a type are read: router-LSAs and network-LSAs.
fn is_read(kind: u8) -> bool
    ensures { result ≡ is_read kind }
{
    kind == ROUTER_LSA || kind == NETWORK_LSA
}

/// What the header says of an LSA at a place: its age, its sequence number and its checksum.
fn stamp_of(lsa: &[u8], place: u32) -> Stamp
    requires { 20 ≤ length lsa.now }
    ensures { result ≡ stamp_of place lsa.now }
{
    Stamp {
        place,
        age: number_16(lsa, 0),
        sequence: number_32(lsa, 12),
        checksum: number_16(lsa, 16),
    }
}

/// What one LSA at a place says, or None where its type isn't read.
pub fn said_at(alloc: Global, lsa: &[u8], place: u32) -> Result<Option<Instance>, Refusal<LsaFault>>
    requires { 20 ≤ length lsa.now }
    ensures { MatchResult result (λ said. (body_fault lsa.now ≡ None) ×
        (option_to_list said ≡ said_at place lsa.now))
        (TellsLsaFault (placed place (body_fault lsa.now))) }
{
    match body_of(alloc, lsa)? {
        None if is_read(lsa[3]) => Err(Refusal::at(place, LsaFault::BadBody)),
        None => Ok(None),
        Some(body) => Ok(Some(Instance {
            stamp: stamp_of(lsa, place),
            lsa: Lsa {
                id: number_32(lsa, 4),
                router: number_32(lsa, 8),
                body,
            },
        })),
    }
}
