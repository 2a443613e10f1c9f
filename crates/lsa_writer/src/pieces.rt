//! The bytes of one LSA.
ghost use Rattle.std.specs.Prelude.{◌≡◌, ◌+◌, ◌*◌, ◌^◌, ◌<◌, ◌≤◌, ◌∷◌, ◌++◌, OnOk, flat_map, length};
ghost use Rattle.std.specs.Int.{to_be_bytes, w16, w32};
ghost use Rattle.lsa_bytes.specs.Written.{header, link_bytes, lsa_bytes};
ghost use Rattle.lsa_writer.specs.Ends.{member_ends};
ghost use Rattle.lsa_writer.specs.WrittenLsas.{links_alone, mask_of, network_lsa, router_lsa, routers_in};

use crate::ends::{LinkEnd, end_at};
use crate::said::OwnedLink;
use cost_base::OutOfMemory;
use lsa_bytes::{LsaLink, NETWORK_LSA, ROUTER_LSA};

/// The first sequence number of an LSA (RFC 2328, 12.1.6).
const FIRST_SEQUENCE: u32 = 0x8000_0001;

/// Adds what ends the header of an LSA: the first sequence number, checksum 0, the length.
fn push_length(bytes: &mut Vec<u8>, length: u16) -> Result<(), OutOfMemory>
    ensures { OnOk result (bytes.new.items ≡ bytes.old.items ++
        (to_be_bytes w32 2147483649 ++ (0 ∷ 0 ∷ to_be_bytes w16 length))) }
{
    bytes.extend_from_slice(&FIRST_SEQUENCE.to_be_bytes())?;
    bytes.extend_from_slice(&[0, 0])?;
    bytes.extend_from_slice(&length.to_be_bytes())?;
    Ok(())
}

/// Adds the header of an LSA (RFC 2328, A.4.1): age 0, the option of external routing, checksum 0.
fn push_header(
    bytes: &mut Vec<u8>,
    kind: u8,
    id: u32,
    router: u32,
    length: u16,
) -> Result<(), OutOfMemory>
    ensures { OnOk result (bytes.new.items ≡ bytes.old.items ++ header kind id router length) }
{
    bytes.extend_from_slice(&[0, 0, 2, kind])?;
    bytes.extend_from_slice(&id.to_be_bytes())?;
    bytes.extend_from_slice(&router.to_be_bytes())?;
    push_length(bytes, length)?;
    Ok(())
}

/// Adds a link of a router-LSA (RFC 2328, A.4.2), without types of service.
fn push_link(bytes: &mut Vec<u8>, link: LsaLink) -> Result<(), OutOfMemory>
    ensures { OnOk result (bytes.new.items ≡ bytes.old.items ++ link_bytes link) }
{
    bytes.extend_from_slice(&link.id.to_be_bytes())?;
    bytes.extend_from_slice(&link.address.to_be_bytes())?;
    bytes.extend_from_slice(&[link.kind, 0])?;
    bytes.extend_from_slice(&link.metric.to_be_bytes())?;
    Ok(())
}

/// Adds what stands before the links of a router-LSA: no flags, a byte, the count of links.
fn push_count(bytes: &mut Vec<u8>, count: u16) -> Result<(), OutOfMemory>
    ensures { OnOk result (bytes.new.items ≡ bytes.old.items ++ (0 ∷ 0 ∷ to_be_bytes w16 count)) }
{
    bytes.extend_from_slice(&[0, 0])?;
    bytes.extend_from_slice(&count.to_be_bytes())?;
    Ok(())
}

/// Adds links of a router-LSA, in order.
fn push_links(bytes: &mut Vec<u8>, links: &[OwnedLink]) -> Result<(), OutOfMemory>
    ensures { OnOk result (bytes.new.items ≡ bytes.old.items ++
        flat_map link_bytes (links_alone links.now)) }
{
    for said in links {
        push_link(bytes, said.link)?;
    }
    Ok(())
}

/// Adds the router-LSA of a router with these links, of which its length has room for.
pub fn push_router_lsa(bytes: &mut Vec<u8>, id: u32, links: &[OwnedLink]) -> Result<(), OutOfMemory>
    requires { 24 + 12 * length links.now < 2 ^ 16 }
    ensures { OnOk result (bytes.new.items ≡ bytes.old.items ++
        lsa_bytes (router_lsa id (links_alone links.now))) }
{
    let count = links.len() as u16;
    push_header(bytes, ROUTER_LSA, id, id, 24 + 12 * count)?;
    push_count(bytes, count)?;
    push_links(bytes, links)?;
    Ok(())
}

/// The mask of a prefix length of at most 32.
fn mask_within(length: u8) -> u32
    requires { length ≤ 32 }
    ensures { result ≡ mask_of length }
{
    let size = 1u64 << (32 - length);
    ((1u64 << 32) - size) as u32
}

/// The mask of a prefix length.
fn mask_of(length: u8) -> u32
    ensures { result ≡ mask_of length }
{
    mask_within(length.min(32))
}

/// Adds the mask of a prefix length.
fn push_mask(bytes: &mut Vec<u8>, length: u8) -> Result<(), OutOfMemory>
    ensures { OnOk result (bytes.new.items ≡ bytes.old.items ++ to_be_bytes w32 (mask_of length)) }
{
    bytes.extend_from_slice(&mask_of(length).to_be_bytes())?;
    Ok(())
}

/// Adds the router IDs of members, in order.
fn push_members(bytes: &mut Vec<u8>, ends: &[LinkEnd], members: &[u32]) -> Result<(), OutOfMemory>
    ensures { OnOk result (bytes.new.items ≡ bytes.old.items ++
        flat_map (to_be_bytes w32) (routers_in (member_ends ends.now members.now))) }
{
    for member in members {
        bytes.extend_from_slice(&end_at(ends, *member).router.to_be_bytes())?;
    }
    Ok(())
}

/// Adds the network-LSA of the members of a subnet from its designated router (RFC 2328, A.4.3).
pub fn push_network_lsa(
    bytes: &mut Vec<u8>,
    from: LinkEnd,
    ends: &[LinkEnd],
    members: &[u32],
) -> Result<(), OutOfMemory>
    requires { 24 + 4 * length members.now < 2 ^ 16 }
    ensures { OnOk result (bytes.new.items ≡ bytes.old.items ++
        lsa_bytes (network_lsa from (member_ends ends.now members.now))) }
{
    let count = members.len() as u16;
    push_header(
        bytes,
        NETWORK_LSA,
        from.address,
        from.router,
        24 + 4 * count,
    )?;
    push_mask(bytes, from.length)?;
    push_members(bytes, ends, members)?;
    Ok(())
}
