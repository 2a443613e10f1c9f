//! The values that a command finds in the words.
ghost use Rattle.std.specs.Prelude.{◌≡◌, ◌≤◌, IfOk, IfSome, Some, map, option_map, option_and_then, string_bytes, codes};
ghost use Rattle.text_lines.specs.Numbers as numbers;
ghost use Rattle.command_words.specs.Commands.{option_value, configs_found, number_between, number_or, limits};
ghost use Rattle.command_words.specs.Commands.{nodes_found, step_unit, unit_named, topic_of};
ghost use Rattle.command_words.specs.Forms.{rows_found, now_texts, Answers};
ghost use Rattle.wide_fraction.specs.SearchLimits.{limits_seen};
ghost use Rattle.text_lines.specs.Arguments.{texts};

use crate::table::command_named;
use crate::{CommandName, StepUnit, WordsStop};
use clap::ArgMatches;
use std::alloc::{AllocError, Global};
use text_lines::{number, quad};
use wide_fraction::{Limits, Top};

/// The value of an option, or the first CONFIG word.
fn value<'a>(matches: &ArgMatches<'a>, name: &str) -> Option<&'a str>
    ensures { option_map (λ text. text.now) result ≡
        option_value name.now (rows_found matches.now) }
{
    matches.get_str(name)
}

/// A copy of the value of an option, or of the first CONFIG word.
pub(crate) fn text(alloc: Global, matches: &ArgMatches<'_>, name: &str) -> Result<String, WordsStop>
    ensures { Answers (option_value name.now (rows_found matches.now)) string_bytes result }
{
    match value(matches, name) {
        Some(value) => Ok(String::from_str(alloc, value)?),
        None => Err(WordsStop::Refused),
    }
}

/// A copy of the value of an option that may be given, where it is.
pub(crate) fn may_text(
    alloc: Global,
    matches: &ArgMatches<'_>,
    name: &str,
) -> Result<Option<String>, AllocError>
    ensures { IfOk result (λ text. option_map string_bytes text ≡
        option_value name.now (rows_found matches.now)) }
{
    match value(matches, name) {
        Some(value) => Ok(Some(String::from_str(alloc, value)?)),
        None => Ok(None),
    }
}

/// Copies of the CONFIG words in their order.
pub(crate) fn configs(alloc: Global, matches: &ArgMatches<'_>) -> Result<Vec<String>, WordsStop>
    ensures { Answers (configs_found (rows_found matches.now)) (λ all. texts all.items) result }
{
    match matches.get_raw("CONFIG") {
        Some(words) => Ok(copies(alloc, words)?),
        None => Err(WordsStop::Refused),
    }
}

/// Copies of words in their order.
fn copies(alloc: Global, words: &[&str]) -> Result<Vec<String>, AllocError>
    ensures { IfOk result (λ all. texts all.items ≡ now_texts words.now) }
{
    let mut all = Vec::new(alloc);
    for word in words {
        let copy = String::from_str(alloc, word)?;
        all.push(copy)?;
    }
    Ok(all)
}

/// A number of 1 to 10 decimal digits, from `low` to `high`.
fn number_between(text: &str, low: u64, high: u64) -> Option<u64>
    ensures { result ≡ number_between low high text.now }
{
    let number = number(text.as_bytes(), high)?;
    if low <= number { Some(number) } else { None }
}

/// The number of an option that must be given; None where it isn't a number from `low` to `high`.
pub(crate) fn must_number(matches: &ArgMatches<'_>, name: &str, low: u64, high: u64) -> Option<u64>
    ensures { result ≡ option_and_then (number_between low high)
        (option_value name.now (rows_found matches.now)) }
{
    number_between(value(matches, name)?, low, high)
}

/// The number of an option that may be given, or `default`; None where it isn't a number from `low` to `high`.
pub(crate) fn may_number(
    matches: &ArgMatches<'_>,
    name: &str,
    low: u64,
    high: u64,
    default: u64,
) -> Option<u64>
    ensures { result ≡ number_or default low high (option_value name.now (rows_found matches.now)) }
{
    match value(matches, name) {
        Some(text) => number_between(text, low, high),
        None => Some(default),
    }
}

/// The router ID of an option that must be given; None where it isn't a dotted quad.
pub(crate) fn router(matches: &ArgMatches<'_>, name: &str) -> Option<u32>
    ensures { result ≡ option_and_then numbers.quad
        (option_value name.now (rows_found matches.now)) }
{
    quad(value(matches, name)?.as_bytes())
}

/// The budget; None where it is off its range.
pub(crate) fn nodes(matches: &ArgMatches<'_>) -> Option<u64>
    ensures { result ≡ nodes_found (rows_found matches.now) }
{
    may_number(matches, "nodes", 1, 10_000_000, 100_000)
}

/// What a step is; None where the word of `--by` is neither `line` nor `router`.
pub(crate) fn step_unit(matches: &ArgMatches<'_>) -> Option<StepUnit>
    ensures { result ≡ step_unit (option_value (codes "by") (rows_found matches.now)) }
{
    match value(matches, "by") {
        Some(word) => unit_named(word),
        None => Some(StepUnit::Line),
    }
}

/// The unit of steps that a word names; None exactly where it names none.
fn unit_named(word: &str) -> Option<StepUnit>
    ensures { result ≡ unit_named word.now }
{
    match word {
        "line" => Some(StepUnit::Line),
        "router" => Some(StepUnit::Router),
        _ => None,
    }
}

/// What help is asked about: all commands, or the one that the word names; None where it names none.
pub(crate) fn topic(matches: &ArgMatches<'_>) -> Option<Option<CommandName>>
    ensures { result ≡ topic_of (option_value (codes "COMMAND") (rows_found matches.now)) }
{
    match value(matches, "COMMAND") {
        Some(word) => Some(Some(command_named(word.as_bytes())?)),
        None => Some(None),
    }
}

/// The limits of a search; None where one is off its range.
pub(crate) fn limits(matches: &ArgMatches<'_>) -> Option<Limits>
    ensures { option_map limits_seen result ≡ limits (rows_found matches.now) }
{
    let nodes = nodes(matches)?;
    let bits = may_number(matches, "bits", 28, 127, 127)?;
    Limits::new(nodes, Top::new(bits as u32)?)
}
