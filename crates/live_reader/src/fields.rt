//! What the members of an object say by their names.
ghost use Rattle.std.specs.Prelude.{◌≡◌, ◌≤◌, ◌<◌, ◌^◌, IfSome, length, option_map};
ghost use Rattle.std.specs.Option.{option_and_then};
ghost use Rattle.json.specs.Json.{Json};
ghost use Rattle.live_reader.specs.Places.{Stands, object_members};
ghost use Rattle.live_reader.specs.Fields as definition;

use crate::tree::{number_at, text_at};
use crate::walk::place_named;
use json::Tape;
use text_lines::{number, quad};

/// The text of the last member of a name of the object at a place.
pub fn text_of_name<'a>(tape: &Tape<'a>, place: usize, name: &[u8]) -> Option<&'a str>
    ensures { (j : Json) → Stands tape.now place j → option_map (λ s. s.now) result ≡
        option_and_then (definition.text_of_name name.now) (object_members place j) }
{
    let member = place_named(tape, place, name)?;
    text_at(tape, member)
}

/// The dotted quad that it is.
pub fn quad_named(tape: &Tape<'_>, place: usize, name: &[u8]) -> Option<u32>
    ensures { (j : Json) → Stands tape.now place j → result ≡ option_and_then
        (definition.quad_named name.now) (object_members place j) }
{
    let text = text_of_name(tape, place, name)?;
    quad(text.as_bytes())
}

/// The text of the number that the last member of a name is.
fn digits_named<'a>(tape: &Tape<'a>, place: usize, name: &[u8]) -> Option<&'a str>
    ensures { (j : Json) → Stands tape.now place j → option_map (λ s. s.now) result ≡
        option_and_then (definition.digits_named name.now) (object_members place j) }
{
    let member = place_named(tape, place, name)?;
    number_at(tape, member)
}

/// The whole number, up to the greatest, that the last member of a name is.
pub fn number_named(tape: &Tape<'_>, place: usize, name: &[u8], greatest: u16) -> Option<u16>
    ensures { (j : Json) → Stands tape.now place j → result ≡ option_and_then
        (definition.number_named name.now greatest) (object_members place j) }
{
    let text = digits_named(tape, place, name)?;
    small_number(text.as_bytes(), greatest)
}

/// A number up to the greatest.
fn small_number(text: &[u8], greatest: u16) -> Option<u16>
    ensures { result ≡ definition.number_up_to greatest text.now }
{
    match number(text, u64::from(greatest)) {
        Some(value) => Some(value as u16),
        None => None,
    }
}

/// The value of a hexadecimal digit.
fn hex_digit(byte: u8) -> Option<u32>
    ensures value { result ≡ definition.hex_digit byte }
    ensures small { IfSome result (λ digit. digit < 16) }
{
    match byte {
        b'0'..=b'9' => Some(u32::from(byte - b'0')),
        b'a'..=b'f' => Some(u32::from(byte - b'a') + 10),
        b'A'..=b'F' => Some(u32::from(byte - b'A') + 10),
        _ => None,
    }
}

/// The number that at most eight hexadecimal digits make.
fn hex_number(text: &[u8]) -> Option<u32>
    requires { length text.now ≤ 8 }
    ensures value { result ≡ definition.hex_behind 0 text.now }
    ensures small { IfSome result (λ value. value < 16 ^ length text.now) }
{
    let mut value: u32 = 0;
    for byte in text {
        let digit = hex_digit(*byte)?;
        value = value * 16 + digit;
    }
    Some(value)
}

/// The eight hexadecimal digits of the last member of a name.
pub fn hex_named(tape: &Tape<'_>, place: usize, name: &[u8]) -> Option<u32>
    ensures { (j : Json) → Stands tape.now place j → result ≡ option_and_then
        (definition.hex_named name.now 8 8) (object_members place j) }
{
    let text = text_of_name(tape, place, name)?;
    if text.len() == 8 {
        hex_number(text.as_bytes())
    } else {
        None
    }
}

/// The one to four hexadecimal digits of the last member of a name.
pub fn short_hex_named(tape: &Tape<'_>, place: usize, name: &[u8]) -> Option<u16>
    ensures { (j : Json) → Stands tape.now place j → result ≡ option_and_then
        (definition.hex_named name.now 1 4) (object_members place j) }
{
    let text = text_of_name(tape, place, name)?;
    if text.is_empty() || text.len() > 4 {
        return None;
    }
    match hex_number(text.as_bytes()) {
        Some(value) => Some(value as u16),
        None => None,
    }
}
