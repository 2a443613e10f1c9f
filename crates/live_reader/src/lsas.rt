//! The router-LSAs of an area in JSON.
ghost use Rattle.std.specs.Prelude.{List, Option, ◌≡◌, ◌<◌, ◌^◌, codes, length, Ok, MatchResult, option_map};
ghost use Rattle.std.specs.Option.{option_and_then};
ghost use Rattle.json.specs.Json.{Json};
ghost use Rattle.live_reader.specs.Places.{Member, Placed, Stands, items_of, object_members};
ghost use Rattle.live_reader.specs.JsonLsas.{areas_read, found_read, inner, items_read, live_lsas, lsa_read, instances_of_values};
ghost use Rattle.live_reader.specs.Walks.{StandAt, StandsIf};
ghost use Rattle.live_reader.specs.Stops.{TellsLack};

use crate::fault::Lack;
use crate::heads::{head_at, instance_of};
use crate::links::links_at;
use crate::tree::{opens_array, opens_object};
use crate::walk::{area_place, item_places, place_named};
use cost_base::Refusal;
use json::Tape;
use lsa_bytes::Instance;
use std::alloc::Global;

/// The place of the object that is the last member of a name of the object at a place.
fn inner_place(tape: &Tape<'_>, place: usize, name: &[u8]) -> Option<usize>
    ensures { (j : Json) → Stands tape.now place j → result ≡ option_map (λ found. found.0)
        (option_and_then (inner name.now) (object_members place j)) }
{
    let member = place_named(tape, place, name)?;
    if opens_object(tape, member) {
        Some(member)
    } else {
        None
    }
}

/// The router-LSA of the object at a place, in what stands around it.
fn lsa_at(
    alloc: Global,
    tape: &Tape<'_>,
    around: usize,
    place: u32,
) -> Result<Instance, Refusal<Lack, usize>>
    ensures { MatchResult result (λ lsa. (j : Json) → Stands tape.now place j →
        lsa_read around place (object_members place j) ≡ Ok lsa)
        (λ refusal. (j : Json) → Stands tape.now place j → TellsLack
        (lsa_read around place (object_members place j)) refusal) }
{
    let object = place as usize;
    if !opens_object(tape, object) {
        return Err(Refusal::at(around, Lack));
    }
    let Some(head) = head_at(tape, object) else {
        return Err(Refusal::at(object, Lack));
    };
    let Some(links_place) = inner_place(tape, object, b"routerLinks") else {
        return Err(Refusal::at(object, Lack));
    };
    let links = links_at(alloc, tape, links_place)?;
    Ok(instance_of(place, head, links))
}

/// The router-LSAs of the values at places, in what stands around them, in order.
fn lsas_of(
    alloc: Global,
    tape: &Tape<'_>,
    around: usize,
    places: &[u32],
) -> Result<Vec<Instance>, Refusal<Lack, usize>>
    ensures { MatchResult result (λ lsas. (said : List Placed) → StandAt tape.now places.now said →
        instances_of_values around said ≡ Ok lsas.items) (λ refusal. (said : List Placed) →
        StandAt tape.now places.now said → TellsLack (instances_of_values around said) refusal) }
{
    let mut lsas = Vec::new(alloc);
    for place in places {
        let lsa = lsa_at(alloc, tape, around, *place)?;
        lsas.push(lsa)?;
    }
    Ok(lsas)
}

/// The router-LSAs of the array at a place, in what stands around it.
fn lsas_at(
    alloc: Global,
    tape: &Tape<'_>,
    around: usize,
    place: usize,
) -> Result<Vec<Instance>, Refusal<Lack, usize>>
    requires { length tape.now < 2 ^ 32 }
    ensures { MatchResult result (λ lsas. (j : Json) → Stands tape.now place j →
        items_read around (items_of place j) ≡ Ok lsas.items)
        (λ refusal. (j : Json) → Stands tape.now place j → TellsLack
        (items_read around (items_of place j)) refusal) }
{
    if !opens_array(tape, place) {
        return Err(Refusal::at(around, Lack));
    }
    let places = item_places(alloc, tape, place)?;
    let lsas = lsas_of(alloc, tape, around, &places)?;
    Ok(lsas)
}

/// The router-LSAs of the array at a place, where there is one.
fn found_lsas(
    alloc: Global,
    tape: &Tape<'_>,
    areas: usize,
    found: Option<usize>,
) -> Result<Vec<Instance>, Refusal<Lack, usize>>
    requires { length tape.now < 2 ^ 32 }
    ensures { MatchResult result (λ lsas. (o : Option Member) → StandsIf tape.now found o →
        found_read areas o ≡ Ok lsas.items) (λ refusal. (o : Option Member) →
        StandsIf tape.now found o → TellsLack (found_read areas o) refusal) }
{
    match found {
        Some(place) => lsas_at(alloc, tape, areas, place),
        None => Ok(Vec::new(alloc)),
    }
}

/// The router-LSAs of an area in the object of areas at a place, which has a place around it.
fn area_lsas(
    alloc: Global,
    tape: &Tape<'_>,
    area: u32,
    around: usize,
) -> Result<Vec<Instance>, Refusal<Lack, usize>>
    requires { length tape.now < 2 ^ 32 }
    ensures { MatchResult result (λ lsas. (j : Json) → Stands tape.now around j →
        areas_read area around (option_and_then (inner (codes "areas")) (object_members around j)) ≡
        Ok lsas.items) (λ refusal. (j : Json) → Stands tape.now around j →
        TellsLack
        (areas_read area around (option_and_then (inner (codes "areas")) (object_members around j)))
        refusal) }
{
    let Some(areas) = inner_place(tape, around, b"areas") else {
        return Err(Refusal::at(around, Lack));
    };
    let Some(found) = area_place(tape, areas, area) else {
        return Err(Refusal::at(around, Lack));
    };
    let lsas = found_lsas(alloc, tape, areas, found)?;
    Ok(lsas)
}

/// The router-LSAs of an area that the value of a tape says, in order.
pub fn live_lsas(
    alloc: Global,
    tape: &Tape<'_>,
    area: u32,
) -> Result<Vec<Instance>, Refusal<Lack, usize>>
    requires { length tape.now < 2 ^ 32 }
    ensures { MatchResult result (λ lsas. (j : Json) → Stands tape.now 0 j →
        live_lsas area j ≡ Ok lsas.items) (λ refusal. (j : Json) → Stands tape.now 0 j →
        TellsLack (live_lsas area j) refusal) }
{
    let Some(states) = inner_place(tape, 0, b"routerLinkStates") else {
        return Err(Refusal::at(0, Lack));
    };
    let lsas = area_lsas(alloc, tape, area, states)?;
    Ok(lsas)
}
