//! The lines of a request file that want a path.
ghost use Rattle.std.specs.Prelude.{◌≡◌, ◌∷◌, [], None, Some, MatchOption, IfOk};
ghost use Rattle.text_lines.specs.Lines.{words};
ghost use Rattle.request_reader.specs.Routes.{route_of, hop_of};
ghost use Rattle.request_reader.specs.ReadingLines as definition;
ghost use Rattle.request_reader.specs.ReadingLines.{to_without, behind_without, excluded_parts, parts_by_words};

use crate::reading::statement::Statement;
use crate::{Directive, Excluded, Hops, RequestFault};
use cost_base::{Listed, Name, OutOfMemory, push_last};
use std::alloc::Global;
use text_lines::{cut, first_word};

/// The word before what a path excludes.
const WITHOUT: &[u8] = b"without";

/// `path R:IF R:IF .. R`, maybe with `without W ..` behind it, without the first word.
pub(crate) fn path_line(alloc: Global, rest: &[u8]) -> Result<Statement, OutOfMemory>
    ensures { IfOk result (λ said. said ≡ definition.path_line (words rest.now)) }
{
    let Some((first, more)) = first_word(rest) else {
        return Ok(Statement::Refused(RequestFault::BadRequestLine));
    };
    let Some(hops) = read_route(alloc, first, more)? else {
        return Ok(Statement::Refused(RequestFault::BadRequestLine));
    };
    let Some(without) = read_excluded_parts(alloc, more)? else {
        return Ok(Statement::Refused(RequestFault::BadRequestLine));
    };
    Ok(Statement::Ask(Directive::Path(hops, without)))
}

/// The next word of a text and what stands behind it; None exactly where there is none, or it is `without`.
fn next_before_without(text: &[u8]) -> Option<(&[u8], &[u8])>
    ensures { MatchOption result (to_without (words text.now) ≡ [])
        (λ p. to_without (words text.now) ≡ p.0.now ∷ to_without (words p.1.now)) }
{
    let (word, rest) = first_word(text)?;
    if word == WITHOUT {
        None
    } else {
        Some((word, rest))
    }
}

/// The route of a word and the words before `without`: words R:IF, and a last word R without `:`.
/// None exactly where they have another form.
fn read_route(alloc: Global, first: &[u8], text: &[u8]) -> Result<Option<Hops>, OutOfMemory>
    ensures { IfOk result (λ route. route ≡ route_of (first.now ∷ to_without (words text.now))) }
{
    let mut hops = Vec::new(alloc);
    let mut word = first;
    let mut left = text;
    while let Some((next, rest)) = next_before_without(left) {
        let Some(hop) = read_hop(alloc, word)? else {
            return Ok(None);
        };
        push_last(&mut hops, hop)?;
        word = next;
        left = rest;
    }
    let None = cut(word, b':') else {
        return Ok(None);
    };
    let last = Name::from_bytes(alloc, word)?;
    Ok(Some(Hops::from_items(hops, last)))
}

/// Whether a word is a router's: it has no `:`.
pub(crate) fn is_router(word: &[u8]) -> bool
    ensures { result ≡ definition.is_router_word word.now }
{
    cut(word, b':').is_none()
}

/// The router and the interface of a word R:IF, cut at its first `:`, of which neither is empty;
/// None exactly where there is no `:` or one is empty.
fn read_hop(alloc: Global, word: &[u8]) -> Result<Option<(Name, Name)>, OutOfMemory>
    ensures { IfOk result (λ hop. hop ≡ hop_of word.now) }
{
    let Some((router, interface)) = cut(word, b':') else {
        return Ok(None);
    };
    if router.is_empty() || interface.is_empty() {
        return Ok(None);
    }
    let router = Name::from_bytes(alloc, router)?;
    let interface = Name::from_bytes(alloc, interface)?;
    Ok(Some((router, interface)))
}

/// What stands behind the first word `without`; None exactly where there is no such word.
fn behind_without(text: &[u8]) -> Option<&[u8]>
    ensures { MatchOption result (behind_without (words text.now) ≡ None)
        (λ rest. behind_without (words text.now) ≡ Some (words rest.now)) }
{
    let mut left = text;
    while let Some((word, rest)) = first_word(left) {
        if word == WITHOUT {
            return Some(rest);
        }
        left = rest;
    }
    None
}

/// What a path excludes: nothing without the word `without`, and else at least one part behind it.
/// None exactly where none stands there or one has no such form.
fn read_excluded_parts(alloc: Global, text: &[u8]) -> Result<Option<Listed<Excluded>>, OutOfMemory>
    ensures { IfOk result (λ parts. parts ≡ excluded_parts (behind_without (words text.now))) }
{
    let Some(rest) = behind_without(text) else {
        return Ok(Some(Listed::from_items(Vec::new(alloc))));
    };
    if first_word(rest).is_none() {
        return Ok(None);
    }
    read_parts(alloc, rest)
}

/// The parts of words R and R:IF; None exactly where a word is neither.
fn read_parts(alloc: Global, text: &[u8]) -> Result<Option<Listed<Excluded>>, OutOfMemory>
    ensures { IfOk result (λ parts. parts ≡ parts_by_words (words text.now)) }
{
    let mut parts = Vec::new(alloc);
    let mut left = text;
    while let Some((word, rest)) = first_word(left) {
        let Some(part) = read_part(alloc, word)? else {
            return Ok(None);
        };
        push_last(&mut parts, part)?;
        left = rest;
    }
    Ok(Some(Listed::from_items(parts)))
}

/// A router of a word R, or an interface of a word R:IF; None exactly where the word is neither.
fn read_part(alloc: Global, word: &[u8]) -> Result<Option<Excluded>, OutOfMemory>
    ensures { IfOk result (λ part. part ≡ definition.part_of word.now) }
{
    if is_router(word) {
        let router = Name::from_bytes(alloc, word)?;
        return Ok(Some(Excluded::Router(router)));
    }
    match read_hop(alloc, word)? {
        Some((router, interface)) => Ok(Some(Excluded::Interface(router, interface))),
        None => Ok(None),
    }
}
