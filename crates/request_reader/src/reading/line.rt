//! The lines of a request file that have a fixed number of words.
ghost use Rattle.std.specs.Prelude.{◌≡◌, ◌∷◌, ◌==◌, [], false, length, MatchOption, IfOk};
ghost use Rattle.text_lines.specs.Lines.{words};
ghost use Rattle.request_reader.specs.ReadingLines as definition;

use crate::reading::path::{is_router, path_line};
use crate::reading::statement::{Bounds, Statement};
use crate::{Directive, RequestFault};
use cost_base::{Name, OutOfMemory};
use std::alloc::Global;
use text_lines::{area, first_word, number};

/// The first words of lines.
const PATH: &[u8] = b"path";

const FREE: &[u8] = b"free";

const FIX: &[u8] = b"fix";

const SYMMETRIC: &[u8] = b"symmetric";

const AREA: &[u8] = b"area";

const DEFAULT_COST: &[u8] = b"default-cost";

/// The word that stands for every interface or link.
const ALL: &[u8] = b"all";

/// What a statement says, by its first word and the text behind it.
pub(crate) fn statement_of(
    alloc: Global,
    word: &[u8],
    rest: &[u8],
) -> Result<Statement, OutOfMemory>
    ensures { IfOk result (λ said. said ≡ definition.request_statement_by word.now
        (words rest.now)) }
{
    if word == PATH {
        path_line(alloc, rest)
    } else if word == FREE {
        free_line(alloc, rest)
    } else if word == FIX {
        fix_line(alloc, rest)
    } else if word == SYMMETRIC {
        symmetric_line(alloc, rest)
    } else if word == AREA {
        Ok(area_line(rest))
    } else if word == DEFAULT_COST {
        Ok(cost_line(rest))
    } else {
        Ok(Statement::Refused(RequestFault::BadRequestLine))
    }
}

/// The word of a text of one word; None exactly where it has another number of words.
fn one_word(text: &[u8]) -> Option<&[u8]>
    ensures { MatchOption result ((length (words text.now) == 1) ≡ false)
        (λ word. words text.now ≡ word.now ∷ []) }
{
    let (word, rest) = first_word(text)?;
    match first_word(rest) {
        None => Some(word),
        Some(_) => None,
    }
}

/// The words of a text of two words; None exactly where it has another number of words.
fn two_words(text: &[u8]) -> Option<(&[u8], &[u8])>
    ensures { MatchOption result ((length (words text.now) == 2) ≡ false)
        (λ p. words text.now ≡ p.0.now ∷ p.1.now ∷ []) }
{
    let (first, rest) = first_word(text)?;
    let second = one_word(rest)?;
    Some((first, second))
}

/// The words of a text of three words; None exactly where it has another number of words.
fn three_words(text: &[u8]) -> Option<(&[u8], &[u8], &[u8])>
    ensures { MatchOption result ((length (words text.now) == 3) ≡ false)
        (λ p. words text.now ≡ p.0.now ∷ p.1.now ∷ p.2.now ∷ []) }
{
    let (first, rest) = first_word(text)?;
    let (second, third) = two_words(rest)?;
    Some((first, second, third))
}

/// The words of a text of four words; None exactly where it has another number of words.
fn four_words(text: &[u8]) -> Option<(&[u8], &[u8], &[u8], &[u8])>
    ensures { MatchOption result ((length (words text.now) == 4) ≡ false)
        (λ p. words text.now ≡ p.0.now ∷ p.1.now ∷ p.2.now ∷ p.3.now ∷ []) }
{
    let (first, rest) = first_word(text)?;
    let (second, third, fourth) = three_words(rest)?;
    Some((first, second, third, fourth))
}

/// `area X`, without its first word.
fn area_line(rest: &[u8]) -> Statement
    ensures { result ≡ definition.area_line (words rest.now) }
{
    let Some(word) = one_word(rest) else {
        return Statement::Refused(RequestFault::BadRequestLine);
    };
    match area(word) {
        Some(area) => Statement::Area(area),
        None => Statement::Refused(RequestFault::BadRequestLine),
    }
}

/// `default-cost N`, without its first word.
fn cost_line(rest: &[u8]) -> Statement
    ensures { result ≡ definition.default_cost_line (words rest.now) }
{
    let Some(word) = one_word(rest) else {
        return Statement::Refused(RequestFault::BadRequestLine);
    };
    match number(word, 65535) {
        Some(cost) if cost != 0 => Statement::DefaultCost(cost as u16),
        _ => Statement::Refused(RequestFault::BadRequestLine),
    }
}

/// A number of 1 to 9 digits; None exactly where the word is no such number.
fn bound(text: &[u8]) -> Option<u64>
    ensures { result ≡ definition.bound text.now }
{
    if text.len() > 9 {
        return None;
    }
    number(text, 999_999_999)
}

/// The bounds of these two words, from 1 to 65535 and not crossed.
fn bounds(low: &[u8], high: &[u8]) -> Result<Bounds, RequestFault>
    ensures { result ≡ definition.bounds_said low.now high.now }
{
    let (Some(lowest), Some(highest)) = (bound(low), bound(high)) else {
        return Err(RequestFault::BadRequestLine);
    };
    if 1 <= lowest && lowest <= highest && highest <= 65535 {
        Ok(Bounds {
            low: lowest as u16,
            high: highest as u16,
        })
    } else {
        Err(RequestFault::BadBounds)
    }
}

/// `free all LO HI` or `free R IF LO HI`, without the first word.
fn free_line(alloc: Global, rest: &[u8]) -> Result<Statement, OutOfMemory>
    ensures { IfOk result (λ said. said ≡ definition.free_line (words rest.now)) }
{
    if let Some((all, low, high)) = three_words(rest) {
        return Ok(free_all(all, low, high));
    }
    match four_words(rest) {
        Some((router, interface, low, high)) => free_one(alloc, router, interface, low, high),
        None => Ok(Statement::Refused(RequestFault::BadRequestLine)),
    }
}

/// `free all LO HI`, without the first word.
fn free_all(all: &[u8], low: &[u8], high: &[u8]) -> Statement
    ensures { result ≡ definition.free_line (all.now ∷ low.now ∷ high.now ∷ []) }
{
    if all != ALL {
        return Statement::Refused(RequestFault::BadRequestLine);
    }
    match bounds(low, high) {
        Ok(bounds) => Statement::Ask(Directive::FreeAll(bounds.low, bounds.high)),
        Err(fault) => Statement::Refused(fault),
    }
}

/// `free R IF LO HI`, without the first word.
fn free_one(
    alloc: Global,
    router: &[u8],
    interface: &[u8],
    low: &[u8],
    high: &[u8],
) -> Result<Statement, OutOfMemory>
    ensures { IfOk result (λ said. said ≡ definition.free_line
        (router.now ∷ interface.now ∷ low.now ∷ high.now ∷ [])) }
{
    if !is_router(router) {
        return Ok(Statement::Refused(RequestFault::BadRequestLine));
    }
    match bounds(low, high) {
        Ok(bounds) => {
            let router = Name::from_bytes(alloc, router)?;
            let interface = Name::from_bytes(alloc, interface)?;
            Ok(Statement::Ask(Directive::Free(router, interface, bounds.low, bounds.high)))
        }
        Err(fault) => Ok(Statement::Refused(fault)),
    }
}

/// `fix R IF`, without its first word.
fn fix_line(alloc: Global, rest: &[u8]) -> Result<Statement, OutOfMemory>
    ensures { IfOk result (λ said. said ≡ definition.fix_line (words rest.now)) }
{
    match two_words(rest) {
        Some((router, interface)) if is_router(router) => {
            let router = Name::from_bytes(alloc, router)?;
            let interface = Name::from_bytes(alloc, interface)?;
            Ok(Statement::Ask(Directive::Fix(router, interface)))
        }
        _ => Ok(Statement::Refused(RequestFault::BadRequestLine)),
    }
}

/// `symmetric all` or `symmetric R IF`, without the first word.
fn symmetric_line(alloc: Global, rest: &[u8]) -> Result<Statement, OutOfMemory>
    ensures { IfOk result (λ said. said ≡ definition.symmetric_line (words rest.now)) }
{
    if let Some(all) = one_word(rest) {
        return Ok(symmetric_all(all));
    }
    match two_words(rest) {
        Some((router, interface)) if is_router(router) => {
            let router = Name::from_bytes(alloc, router)?;
            let interface = Name::from_bytes(alloc, interface)?;
            Ok(Statement::Ask(Directive::Symmetric(router, interface)))
        }
        _ => Ok(Statement::Refused(RequestFault::BadRequestLine)),
    }
}

/// `symmetric all`, without its first word.
fn symmetric_all(all: &[u8]) -> Statement
    ensures { result ≡ definition.symmetric_line (all.now ∷ []) }
{
    if all == ALL {
        Statement::Ask(Directive::SymmetricAll)
    } else {
        Statement::Refused(RequestFault::BadRequestLine)
    }
}
