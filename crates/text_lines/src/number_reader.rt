//! Numbers and addresses in words.
ghost use Rattle.std.specs.Prelude.{◌≡◌, ◌∷◌, [], ◌^◌, ◌<◌, ◌≤◌, ◌≢◌, ◌==◌, ℕ, length, MatchOption, IfSome, ◌++◌, true, false};
ghost use Rattle.std.specs.List.{list_all};
ghost use Rattle.cost_base.specs.Decimal.{is_digit, decimal_value, decimal};
ghost use Rattle.text_lines.specs.Numbers as definition;
ghost use Rattle.text_lines.specs.Reads as reads;
ghost use Rattle.text_lines.specs.Reads.{prefix_pair};

use memchr::memchr;

/// A number of 1 to 10 decimal digits, at most `greatest`; None for any other text. Leading zeros count as digits.
pub fn number(text: &[u8], greatest: u64) -> Option<u64>
    ensures { result ≡ definition.number text.now greatest }
{
    number_within(text, 10, greatest)
}

/// A number as texts are printed: decimal digits without leading zeros, at most `greatest`; None for any other text.
pub fn printed_number(text: &[u8], greatest: u128) -> Option<u128>
    ensures { MatchOption result ((n : ℕ) → n ≤ greatest → text.now ≢ decimal n)
        (λ n. (text.now ≡ decimal n) × (n ≤ greatest)) }
{
    if !begins_as_printed(text) {
        return None;
    }
    match digits_value(text) {
        Some(value) if value <= greatest => Some(value),
        _ => None,
    }
}

/// Whether a text has a byte, and a leading zero only where it is the only byte.
fn begins_as_printed(text: &[u8]) -> bool
    ensures { result ≡ reads.begins_as_printed text.now }
{
    match text {
        [] => false,
        [_] => true,
        [first, ..] => *first != b'0',
    }
}

/// A number of at least one and at most `most` digits, at most `greatest`.
fn number_within(text: &[u8], most: usize, greatest: u64) -> Option<u64>
    requires { most ≤ 10 }
    ensures { result ≡ definition.number_within most greatest text.now }
{
    if text.is_empty() || text.len() > most {
        return None;
    }
    match digits_value(text) {
        Some(value) if value <= u128::from(greatest) => Some(value as u64),
        _ => None,
    }
}

/// The value of decimal digits; None where some byte is no digit, or the value is 2^128 or more.
fn digits_value(text: &[u8]) -> Option<u128>
    ensures { MatchOption result (list_all is_digit text.now ≡ true →
        2 ^ 128 ≤ decimal_value text.now) (λ value. (list_all is_digit text.now ≡ true) ×
        (value ≡ decimal_value text.now)) }
{
    let mut value: u128 = 0;
    for byte in text {
        if !byte.is_ascii_digit() {
            return None;
        }
        let digit = u128::from(*byte - b'0');
        value = value.checked_mul(10)?.checked_add(digit)?;
    }
    Some(value)
}

/// A group of a dotted quad: 1 to 3 digits of value at most 255.
fn octet(text: &[u8]) -> Option<u8>
    ensures { result ≡ definition.number_within 3 255 text.now }
{
    match number_within(text, 3, 255) {
        Some(value) => Some(value as u8),
        None => None,
    }
}

/// A text before and behind the first of some byte; None where that byte doesn't stand in it.
pub fn cut(text: &[u8], byte: u8) -> Option<(&[u8], &[u8])>
    ensures pieces { MatchOption result (definition.split byte text.now ≡ text.now ∷ [])
        (λ p. definition.split byte text.now ≡ p.0.now ∷ definition.split byte p.1.now) }
    ensures parts { IfSome result (λ p. text.now ≡ p.0.now ++ byte ∷ p.1.now) }
{
    let end = memchr(byte, text)?;
    Some((&text[..end], &text[end + 1..]))
}

/// An IPv4 address: four groups of 1 to 3 digits, each at most 255, joined by dots; None for any other text.
pub fn quad(text: &[u8]) -> Option<u32>
    ensures { result ≡ definition.quad text.now }
{
    let (first, rest) = cut(text, b'.')?;
    let (second, rest) = cut(rest, b'.')?;
    let (third, fourth) = cut(rest, b'.')?;
    let None = cut(fourth, b'.') else {
        return None;
    };
    let bytes = [octet(first)?, octet(second)?, octet(third)?, octet(fourth)?];
    Some(u32::from_be_bytes(bytes))
}

/// An IPv4 address with its prefix length: a quad, `/` and 1 or 2 digits of value at most 32; None for any other text.
pub fn prefix(text: &[u8]) -> Option<(u32, u8)>
    ensures { result ≡ prefix_pair (definition.prefix text.now) }
{
    let (address, length) = cut(text, b'/')?;
    let None = cut(length, b'/') else {
        return None;
    };
    let address = quad(address)?;
    let length = number_within(length, 2, 32)?;
    Some((address, length as u8))
}

/// An OSPF area (RFC 2328, section 2): a quad, or a number at most 4294967295; None for any other text.
pub fn area(text: &[u8]) -> Option<u32>
    ensures { result ≡ definition.area text.now }
{
    match quad(text) {
        Some(area) => Some(area),
        None => match number(text, 4294967295) {
            Some(area) => Some(area as u32),
            None => None,
        },
    }
}
