//! JSON values on a tape, found by the numbers of the tokens with which they begin.
ghost use Rattle.std.specs.Prelude.{◌≡◌, ◌+◌, ◌<◌, ◌≤◌, ◌++◌, length, drop, List, IfSome, option_map};
ghost use Rattle.json.specs.Token.{Token as OneToken};
ghost use Rattle.json.specs.Json.{Json, Items as SpecItems, Members as SpecMembers};
ghost use Rattle.json.specs.Tape.{node_token};
ghost use Rattle.json.specs.Tree.{items_tokens, json_tokens, members_tokens};
ghost use Rattle.json.specs.Find.{as_number, as_str};
ghost use Rattle.live_reader.specs.Places.{Stands};
ghost use Rattle.live_reader.specs.Walks.{IsItemStep, IsStep, first_token, opens_object, opens_array};

use json::{Node, Tape};

/// A member of an object: its name, the place of its value, and the place behind it.
#[derive(Clone, Copy, Drop)]
pub struct Step<'a> {
    pub name: &'a str,
    pub place: usize,
    pub next: usize,
}

/// The place behind the value that begins at a place.
fn after(tape: &Tape<'_>, place: usize) -> usize
    requires { place < length tape.now }
    ensures value { (j : Json) → Stands tape.now place j → result ≡ place + length (json_tokens j) }
    ensures later { (place < result) × (result ≤ length tape.now) }
{
    match tape.nodes()[place] {
        Node::Object(end) | Node::Array(end) => end,
        _ => place + 1,
    }
}

/// The member of an object that begins at a place.
pub fn step_at<'a>(tape: &Tape<'a>, place: usize) -> Option<Step<'a>>
    ensures member { (ms : SpecMembers) (more : List OneToken) → drop place tape.now ≡
        members_tokens ms ++ more → IsStep place ms result }
    ensures later { IfSome result (λ step. (place < step.next) × (step.next ≤ length tape.now)) }
{
    let nodes = tape.nodes();
    if nodes.len() < 2 || nodes.len() - 2 < place {
        return None;
    }
    let Node::Key(name) = nodes[place] else {
        return None;
    };
    Some(Step {
        name,
        place: place + 1,
        next: after(tape, place + 1),
    })
}

/// The place behind the item of an array that begins at a place.
pub fn item_end(tape: &Tape<'_>, place: usize) -> Option<usize>
    ensures item { (js : SpecItems) (more : List OneToken) → drop place tape.now ≡
        items_tokens js ++ more → IsItemStep place js result }
    ensures later { IfSome result (λ next. (place < next) × (next ≤ length tape.now)) }
{
    let nodes = tape.nodes();
    if nodes.len() <= place {
        return None;
    }
    match nodes[place] {
        Node::EndArray => None,
        _ => Some(after(tape, place)),
    }
}

/// The node at a place; that of `null` past the last one.
fn node_at<'a>(tape: &Tape<'a>, place: usize) -> Node<'a>
    ensures { (j : Json) → Stands tape.now place j → node_token result ≡ first_token j }
{
    let nodes = tape.nodes();
    if nodes.len() <= place {
        return Node::Null;
    }
    nodes[place]
}

/// The text that begins at a place.
pub fn text_at<'a>(tape: &Tape<'a>, place: usize) -> Option<&'a str>
    ensures { (j : Json) → Stands tape.now place j → option_map (λ s. s.now) result ≡ as_str j }
{
    match node_at(tape, place) {
        Node::String(text) => Some(text),
        _ => None,
    }
}

/// The text of the number that begins at a place.
pub fn number_at<'a>(tape: &Tape<'a>, place: usize) -> Option<&'a str>
    ensures { (j : Json) → Stands tape.now place j → option_map (λ s. s.now) result ≡ as_number j }
{
    match node_at(tape, place) {
        Node::Number(text) => Some(text),
        _ => None,
    }
}

/// Whether an object begins at a place.
pub fn opens_object(tape: &Tape<'_>, place: usize) -> bool
    ensures { (j : Json) → Stands tape.now place j → result ≡ opens_object (first_token j) }
{
    matches!(node_at(tape, place), Node::Object(_))
}

/// Whether an array begins at a place.
pub fn opens_array(tape: &Tape<'_>, place: usize) -> bool
    ensures { (j : Json) → Stands tape.now place j → result ≡ opens_array (first_token j) }
{
    matches!(node_at(tape, place), Node::Array(_))
}
