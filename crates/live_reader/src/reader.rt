//! Reading a live file.
ghost use Rattle.std.specs.Prelude.{◌≡◌, ◌-◌, None, ◌^◌, ◌<◌, ◌≤◌, Ok, IfOk, MatchResult, is_some, length};
ghost use Rattle.json.specs.Lex.{tokens};
ghost use Rattle.json.specs.Reads.{token_of};
ghost use Rattle.json.specs.Json.{Json};
ghost use Rattle.lsa_bytes.specs.Files as files;
ghost use Rattle.lsa_bytes.specs.Reading.{AreSmall};
ghost use Rattle.live_reader.specs.JsonTexts as texts;
ghost use Rattle.live_reader.specs.JsonTexts.{stop_line, value_of_text};
ghost use Rattle.live_reader.specs.JsonLsas as json_lsas;
ghost use Rattle.live_reader.specs.Places.{Stands};
ghost use Rattle.live_reader.specs.LiveFiles as definition;
ghost use Rattle.live_reader.specs.LiveFiles.{BytesComeTo, JsonComesTo, LiveComesTo, RefusesLive, TellsSaid, decided_in, read_in, said_by_json};

use crate::fault::{Lack, LiveFault};
use crate::lsas::live_lsas;
use crate::text::{is_space, line_of_offset, token_line};
use cost_base::{OutOfMemory, Refusal};
use json::{Reader, Scratch, Tape, Token};
use lsa_bytes::{Instance, LsaDatabase, database_of, read_lsas};
use std::alloc::Global;

/// How deep arrays and objects may nest.
const GREATEST_DEPTH: usize = 64;

/// Whether the first byte other than blanks of JSON is a brace.
fn begins_object(bytes: &[u8]) -> bool
    ensures { result ≡ definition.begins_object bytes.now }
{
    for byte in bytes {
        if !is_space(*byte) {
            return *byte == b'{';
        }
    }
    false
}

/// Whether a text is JSON, with arrays and objects nested no deeper than 64.
fn is_json(alloc: Global, text: &str) -> Result<bool, OutOfMemory>
    ensures { IfOk result (λ json. json ≡ is_some (value_of_text text.now)) }
{
    let mut scratch = Scratch::new(alloc);
    let mut reader = Reader::new(text, &mut scratch)?;
    if reader.skip_value(GREATEST_DEPTH).is_err() {
        return Ok(false);
    }
    Ok(reader.next().is_none())
}

/// Whether a token is none, or stands where none of its kind may.
fn is_bad(token: &Token<'_>) -> bool
    ensures { result ≡ texts.is_bad (token_of token.now) }
{
    matches!(token, Token::Bad)
}

/// How many tokens stand before the first that is none, or that stands where none of its kind may.
fn good_tokens(alloc: Global, text: &str) -> Result<usize, OutOfMemory>
    requires { length text.now < 2 ^ 32 - 1 }
    ensures { IfOk result (λ good. good ≡ texts.good_tokens (tokens text.now)) }
{
    let mut scratch = Scratch::new(alloc);
    let mut reader = Reader::new(text, &mut scratch)?;
    let mut good = 0;
    while let Some(token) = reader.next() {
        if is_bad(&token) {
            return Ok(good);
        }
        good += 1;
    }
    Ok(good)
}

/// The refusal of a text that isn't JSON.
fn not_json(alloc: Global, text: &str) -> Result<Refusal<LiveFault>, OutOfMemory>
    requires { length text.now < 2 ^ 32 - 1 }
    ensures { IfOk result (λ refusal. refusal ≡ Refusal.Refused LiveFault.BadJson
        (stop_line text.now)) }
{
    let good = good_tokens(alloc, text)?;
    Ok(Refusal::at(token_line(text.as_bytes(), good), LiveFault::BadJson))
}

/// The database of instances that were read of a text.
fn decide(
    alloc: Global,
    text: &[u8],
    instances: Vec<Instance>,
) -> Result<LsaDatabase, Refusal<LiveFault>>
    requires few { length text.now < 2 ^ 32 - 1 }
    requires small { AreSmall instances.items (2 ^ 32 - 2) }
    ensures { MatchResult result (λ database. decided_in text.now
        (files.decided instances.items None) ≡ Ok database)
        (TellsSaid (decided_in text.now (files.decided instances.items None))) }
{
    match database_of(alloc, instances) {
        Ok(database) => Ok(database),
        Err(refusal) => Err(refusal.and_then(|fault, place| {
            Refusal::at(token_line(text, place as usize), LiveFault::Lsas(fault))
        })),
    }
}

/// What stops where an object lacks something.
fn lacking(text: &[u8], refusal: Refusal<Lack, usize>) -> Refusal<LiveFault>
    requires { length text.now < 2 ^ 32 - 1 }
    ensures { result ≡ definition.lacking_in text.now refusal }
{
    refusal.and_then(|_lack, place| Refusal::at(token_line(text, place), LiveFault::BadLive))
}

/// The LSAs of an area that a JSON text says.
fn read_value(alloc: Global, text: &str, area: u32) -> Result<LsaDatabase, Refusal<LiveFault>>
    requires { length text.now ≤ 2 ^ 26 }
    ensures { MatchResult result (λ database. (j : Json) → value_of_text text.now ≡ Some j →
        read_in text.now (json_lsas.live_lsas area j) ≡ Ok database)
        (λ refusal. (j : Json) → value_of_text text.now ≡ Some j →
        TellsSaid (read_in text.now (json_lsas.live_lsas area j)) refusal) }
{
    let mut scratch = Scratch::new(alloc);
    let Ok(tape) = Tape::parse(text, &mut scratch, Vec::new(alloc)) else {
        return Err(Refusal::OutOfMemory);
    };
    match live_lsas(alloc, &tape, area) {
        Ok(instances) => {
            let database = decide(alloc, text.as_bytes(), instances)?;
            Ok(database)
        }
        Err(refusal) => Err(lacking(text.as_bytes(), refusal)),
    }
}

/// The LSAs of an area that a text says.
fn read_text(alloc: Global, text: &str, area: u32) -> Result<LsaDatabase, Refusal<LiveFault>>
    requires { length text.now ≤ 2 ^ 26 }
    ensures { MatchResult result (λ database. said_by_json area text.now ≡ Ok database)
        (TellsSaid (said_by_json area text.now)) }
{
    if is_json(alloc, text)? {
        read_value(alloc, text, area)
    } else {
        Err(not_json(alloc, text)?)
    }
}

/// The LSAs of an area that bytes say as JSON.
fn read_json(alloc: Global, bytes: &[u8], area: u32) -> Result<LsaDatabase, Refusal<LiveFault>>
    requires { length bytes.now ≤ 2 ^ 26 }
    ensures { MatchResult result (λ database. JsonComesTo area bytes.now (Ok database))
        (definition.RefusesJson area bytes.now) }
{
    match std::str::from_utf8(bytes) {
        Ok(text) => read_text(alloc, text, area),
        Err(fault) => Err(Refusal::at(
            line_of_offset(bytes, fault.valid_up_to()),
            LiveFault::BadJson,
        )),
    }
}

/// The LSAs that bytes say.
fn read_bytes(alloc: Global, bytes: &[u8]) -> Result<LsaDatabase, Refusal<LiveFault>>
    requires { length bytes.now < 2 ^ 32 - 1 }
    ensures { MatchResult result (λ database. BytesComeTo bytes.now (Ok database))
        (definition.RefusesBytes bytes.now) }
{
    match read_lsas(alloc, bytes) {
        Ok(database) => Ok(database),
        Err(refusal) => {
            Err(refusal.and_then(|fault, place| Refusal::at(place, LiveFault::Lsas(fault))))
        }
    }
}

/// The LSAs of an area in a router's own database, of each the newest instance (RFC 2328, 13.1); one of MaxAge (3600)
/// or more is flushed. Where the first byte other than blanks of JSON is a brace, the file is JSON as FRRouting prints
/// it to `show ip ospf database router json`, of which the router-LSAs of the area are read; else it is LSAs as bytes.
///
/// # Errors
///
/// - In JSON `BadJson` where the text isn't JSON or nests deeper than 64, then `BadLive` for the first object that
///   lacks a member or has it off its form, then `TooManyRouters`, `LsaTwice` and `ZeroMetric`, each with its line.
/// - In bytes the faults of `lsa_bytes::read_lsas`, each with the offset at which its LSA begins.
/// - `OutOfMemory` where memory runs out.
pub fn read_live(alloc: Global, bytes: &[u8], area: u32) -> Result<LsaDatabase, Refusal<LiveFault>>
    requires { length bytes.now ≤ 2 ^ 26 }
    ensures { MatchResult result (λ live. LiveComesTo area bytes.now (Ok live))
        (RefusesLive area bytes.now) }
{
    if begins_object(bytes) {
        read_json(alloc, bytes, area)
    } else {
        read_bytes(alloc, bytes)
    }
}
