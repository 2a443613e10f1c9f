//! Lines of a script that ask of numbers.

use crate::sinks::failing_sink;
use case_scripts::bytes_of;
use std::alloc::{AllocError, Global};
use text_lines::{area, number, number_bytes, prefix, printed_number, put_number, quad};

/// `digits NUMBER`: the digits of a number, in a buffer, and put as the one piece that a sink takes.
fn digits_text(alloc: Global, value: u128) -> Result<String, AllocError> {
    let mut room = [0; 40];
    let length = number_bytes(value, &mut room);
    let mut sink = failing_sink(alloc, 64, 1, 0)?;
    let put = put_number(value, &mut sink).is_ok();
    let digits = room[..length].escape_ascii();
    format!(in alloc; ": {digits}, put {put} {}", sink.got().escape_ascii())
}

/// A number of a script, or 0.
fn whole(word: &str) -> u128 {
    word.parse::<u128>().unwrap_or(0)
}

/// `number GREATEST TEXT`, `printed GREATEST TEXT`: the number of a text, up to a greatest.
fn number_up_to(alloc: Global, first: &str, rest: &str) -> Result<String, AllocError> {
    let (greatest, text) = rest.split_once(' ').unwrap_or((rest, ""));
    let bytes = bytes_of(alloc, text)?;
    let greatest = whole(greatest);
    if first == "printed" {
        return format!(in alloc; ": {:?}", printed_number(bytes.as_slice(), greatest));
    }
    let greatest = u64::try_from(greatest).unwrap_or(0);
    format!(in alloc; ": {:?}", number(bytes.as_slice(), greatest))
}

/// What is answered to a line that asks of numbers: `quad TEXT`, `prefix TEXT` and `area TEXT` too.
pub(crate) fn number_text(alloc: Global, first: &str, rest: &str) -> Result<String, AllocError> {
    match first {
        "digits" => digits_text(alloc, whole(rest)),
        "quad" => format!(in alloc; ": {:?}", quad(rest.as_bytes())),
        "prefix" => format!(in alloc; ": {:?}", prefix(rest.as_bytes())),
        "area" => format!(in alloc; ": {:?}", area(rest.as_bytes())),
        _ => number_up_to(alloc, first, rest),
    }
}
