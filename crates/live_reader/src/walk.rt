//! The members of an object and the items of an array, by their places on a tape.
ghost use Rattle.std.specs.Prelude.{◌≡◌, ◌+◌, ◌^◌, ◌<◌, length, option_map, slice_index_or, IfOk};
ghost use Rattle.std.specs.Option.{option_and_then};
ghost use Rattle.json.specs.Json.{Json, array, object, Items as SpecItems, Members as SpecMembers};
ghost use Rattle.live_reader.specs.Places.{Stands, items_at, items_of, members_at, object_members, member_named, those_last, member_values};
ghost use Rattle.live_reader.specs.JsonLsas.{area_member};
ghost use Rattle.live_reader.specs.Walks.{StandAt, StepOver, last_places};

use crate::tree::{Step, item_end, opens_array, opens_object, step_at};
use cost_base::OutOfMemory;
use json::Tape;
use std::alloc::Global;
use text_lines::{Names, quad};

/// Where the first member of the object at a place begins; None where no object begins there.
fn first_member(tape: &Tape<'_>, place: usize) -> Option<usize>
    ensures { (j : Json) → Stands tape.now place j → result ≡ option_map (λ ms. place + 1)
        (object_members place j) }
{
    if tape.len() <= place {
        return None;
    }
    if opens_object(tape, place) {
        Some(place + 1)
    } else {
        None
    }
}

/// Where the first item of the array at a place begins; None where no array begins there.
fn first_item(tape: &Tape<'_>, place: usize) -> Option<usize>
    ensures { (j : Json) → Stands tape.now place j → result ≡ option_map (λ js. place + 1)
        (items_of place j) }
{
    if tape.len() <= place {
        return None;
    }
    if opens_array(tape, place) {
        Some(place + 1)
    } else {
        None
    }
}

/// The place of the last member of a name of the object at a place.
pub fn place_named(tape: &Tape<'_>, place: usize, name: &[u8]) -> Option<usize>
    ensures { (j : Json) → Stands tape.now place j → result ≡ option_map (λ m. m.place)
        (option_and_then (member_named name.now) (object_members place j)) }
{
    let mut next = first_member(tape, place)?;
    let mut last = None;
    while let Some(step) = step_at(tape, next) {
        if step.name.as_bytes() == name {
            last = Some(step.place);
        }
        next = step.next;
    }
    last
}

/// The members of the object at a place, in order.
fn steps_at<'a>(alloc: Global, tape: &Tape<'a>, place: usize) -> Result<Vec<Step<'a>>, OutOfMemory>
    ensures { IfOk result (λ steps. (ms : SpecMembers) → Stands tape.now place (object ms) →
        StepOver tape.now steps.items (members_at (place + 1) ms)) }
{
    let mut steps = Vec::new(alloc);
    let Some(start) = first_member(tape, place) else {
        return Ok(steps);
    };
    let mut next = start;
    while let Some(step) = step_at(tape, next) {
        next = step.next;
        steps.push(step)?;
    }
    Ok(steps)
}

/// The step of a number.
fn step_in<'a>(steps: &[Step<'a>], number: usize) -> Step<'a>
    requires { number < length steps.now }
    ensures { result ≡ slice_index_or steps.now number result }
{
    steps[number]
}

/// The places of members, without those of whose name a later one comes, in order.
fn places_of_last(alloc: Global, steps: &[Step<'_>]) -> Result<Vec<usize>, OutOfMemory>
    ensures { IfOk result (λ places. places.items ≡ last_places steps.now) }
{
    let mut names = Names::new(alloc);
    let mut places = Vec::new(alloc);
    let mut left = steps.len();
    while left > 0 {
        left -= 1;
        let step = step_in(steps, left);
        if names.add(step.name.as_bytes())? {
            places.push(step.place)?;
        }
    }
    places.reverse();
    Ok(places)
}

/// The places of the members of the object at a place, without those of whose name a later one comes, in order.
pub fn last_places(alloc: Global, tape: &Tape<'_>, place: usize) -> Result<Vec<usize>, OutOfMemory>
    ensures { IfOk result (λ places. (ms : SpecMembers) → Stands tape.now place (object ms) →
        StandAt tape.now places.items (member_values (those_last (members_at (place + 1) ms)))) }
{
    let steps = steps_at(alloc, tape, place)?;
    let places = places_of_last(alloc, &steps)?;
    Ok(places)
}

/// The places of the items of the array at a place, in order.
pub fn item_places(alloc: Global, tape: &Tape<'_>, place: usize) -> Result<Vec<u32>, OutOfMemory>
    requires { length tape.now < 2 ^ 32 }
    ensures { IfOk result (λ places. (js : SpecItems) → Stands tape.now place (array js) →
        StandAt tape.now places.items (items_at (place + 1) js)) }
{
    let mut places = Vec::new(alloc);
    let Some(start) = first_item(tape, place) else {
        return Ok(places);
    };
    let mut next = start;
    while let Some(end) = item_end(tape, next) {
        places.push(next as u32)?;
        next = end;
    }
    Ok(places)
}

/// The place of the last member whose name is that of an area, if there is one, of the object at a place; None where
/// some name is no dotted quad.
pub fn area_place(tape: &Tape<'_>, place: usize, area: u32) -> Option<Option<usize>>
    ensures { (ms : SpecMembers) → Stands tape.now place (object ms) →
        result ≡ option_map (option_map (λ m. m.place))
        (area_member area (members_at (place + 1) ms)) }
{
    let mut next = first_member(tape, place)?;
    let mut found = None;
    while let Some(step) = step_at(tape, next) {
        if quad(step.name.as_bytes())? == area {
            found = Some(step.place);
        }
        next = step.next;
    }
    Some(found)
}
