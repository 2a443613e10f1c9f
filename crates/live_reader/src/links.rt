//! The links of a router-LSA in JSON.
ghost use Rattle.std.specs.Prelude.{◌≡◌, ◌+◌, List, Ok, MatchResult};
ghost use Rattle.std.specs.Option.{option_and_then};
ghost use Rattle.json.specs.Json.{Json, object, Members as SpecMembers};
ghost use Rattle.live_reader.specs.Places.{Placed, Stands, members_at, object_members, those_last, member_values};
ghost use Rattle.live_reader.specs.Walks.{StandAt};
ghost use Rattle.live_reader.specs.JsonLinks as definition;
ghost use Rattle.live_reader.specs.JsonLinks.{link_read, links_in};
ghost use Rattle.live_reader.specs.Stops.{TellsLack};

use crate::fault::Lack;
use crate::fields::{number_named, quad_named, text_of_name};
use crate::tree::opens_object;
use crate::walk::last_places;
use cost_base::{Refusal, push_some};
use json::Tape;
use lsa_bytes::{LsaLink, POINT_TO_POINT_LINK, TRANSIT_LINK};
use std::alloc::Global;

/// The text of a link of type 1.
const POINT_TO_POINT: &[u8] = b"another Router (point-to-point)";

/// The text of a link of type 2.
const TRANSIT: &[u8] = b"a Transit Network";

/// The link type that a text names; 0 where it is none that counts here.
fn link_kind_of(text: &[u8]) -> u8
    ensures { result ≡ definition.link_kind_of text.now }
{
    if text == POINT_TO_POINT {
        POINT_TO_POINT_LINK
    } else if text == TRANSIT {
        TRANSIT_LINK
    } else {
        0
    }
}

/// The name of the member that has the link ID.
fn far_name(kind: u8) -> &'static [u8]
    ensures { result.now ≡ definition.far_name kind }
{
    if kind == POINT_TO_POINT_LINK {
        b"neighborRouterId"
    } else {
        b"designatedRouterAddress"
    }
}

/// The link of a kind that the object at a place says.
fn link_with(tape: &Tape<'_>, place: usize, kind: u8) -> Option<LsaLink>
    ensures { (j : Json) → Stands tape.now place j → result ≡ option_and_then
        (definition.link_with kind) (object_members place j) }
{
    let id = quad_named(tape, place, far_name(kind))?;
    let address = quad_named(tape, place, b"routerInterfaceAddress")?;
    let metric = number_named(tape, place, b"tos0Metric", u16::MAX)?;
    Some(LsaLink {
        id,
        address,
        kind,
        metric,
    })
}

/// The link of a kind that members say; nothing where links of that kind are passed over.
fn link_of_kind(tape: &Tape<'_>, place: usize, kind: u8) -> Option<Option<LsaLink>>
    ensures { (ms : SpecMembers) → Stands tape.now place (object ms) →
        result ≡ definition.link_of_kind kind (members_at (place + 1) ms) }
{
    if kind == 0 {
        return Some(None);
    }
    match link_with(tape, place, kind) {
        Some(link) => Some(Some(link)),
        None => None,
    }
}

/// The link that the object at a place says; None where a member is missing or off its form.
fn link_said(tape: &Tape<'_>, place: usize) -> Option<Option<LsaLink>>
    ensures { (ms : SpecMembers) → Stands tape.now place (object ms) →
        result ≡ definition.link_said (members_at (place + 1) ms) }
{
    let text = text_of_name(tape, place, b"linkType")?;
    link_of_kind(tape, place, link_kind_of(text.as_bytes()))
}

/// The link at a place, in an object.
fn link_at(
    tape: &Tape<'_>,
    around: usize,
    place: usize,
) -> Result<Option<LsaLink>, Refusal<Lack, usize>>
    ensures { MatchResult result (λ link. (j : Json) → Stands tape.now place j →
        link_read around place (object_members place j) ≡ Ok link)
        (λ refusal. (j : Json) → Stands tape.now place j → TellsLack
        (link_read around place (object_members place j)) refusal) }
{
    if !opens_object(tape, place) {
        return Err(Refusal::at(around, Lack));
    }
    match link_said(tape, place) {
        Some(link) => Ok(link),
        None => Err(Refusal::at(place, Lack)),
    }
}

/// The links of the values at places, in an object, in order.
fn links_of(
    alloc: Global,
    tape: &Tape<'_>,
    around: usize,
    places: &[usize],
) -> Result<Vec<LsaLink>, Refusal<Lack, usize>>
    ensures { MatchResult result (λ links. (said : List Placed) → StandAt tape.now places.now said →
        links_in around said ≡ Ok links.items) (λ refusal. (said : List Placed) →
        StandAt tape.now places.now said → TellsLack (links_in around said) refusal) }
{
    let mut links = Vec::new(alloc);
    for place in places {
        let link = link_at(tape, around, *place)?;
        push_some(&mut links, link)?;
    }
    Ok(links)
}

/// The links of the object at a place, in order.
pub fn links_at(
    alloc: Global,
    tape: &Tape<'_>,
    place: usize,
) -> Result<Vec<LsaLink>, Refusal<Lack, usize>>
    ensures { MatchResult result (λ links. (ms : SpecMembers) → Stands tape.now place (object ms) →
        links_in place (member_values (those_last (members_at (place + 1) ms))) ≡ Ok links.items)
        (λ refusal. (ms : SpecMembers) → Stands tape.now place (object ms) →
        TellsLack (links_in place (member_values (those_last (members_at (place + 1) ms))))
        refusal) }
{
    let places = last_places(alloc, tape, place)?;
    links_of(alloc, tape, place, &places)
}
