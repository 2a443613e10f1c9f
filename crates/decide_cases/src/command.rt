//! The lines of a script.

use crate::stop::Stop;
use area_graph::{Edge, Path, Price};
use cost_base::{Listed, Name};
use design_problem::Request;
use std::alloc::Global;
use std::str::SplitWhitespace;

/// What a line asks for.
#[derive(Drop)]
pub enum Command {
    /// `network ROUTERS SUBNETS`: another network, with nothing in it yet but its vertices: routers, then subnets.
    Network(u32, u32),
    /// `variable ROUTER INTERFACE LOW HIGH`: one more free interface, with the bounds of its cost.
    Variable(Name, Name, u16, u16),
    /// `edge FROM TO fixed COST`, `edge FROM TO variable NUMBER` or `edge FROM TO zero`: one more edge.
    Link(Edge),
    /// `path START END EDGE .. without EDGE ..`: one more wanted path, with the edges that its request excludes.
    Path(Request),
    /// `problem`: what the lines since the last network say is the problem at hand, where it is one.
    Problem,
    /// `decide CAP NODES BITS`: one cap decided.
    Decide(u16, CaseLimits),
    /// `told CAP NODES BITS CANDIDATES`: the same with an advisor that counts the entries that it is told, which is
    /// asked afterwards for its pick of so many candidates.
    Told(u16, CaseLimits, u32),
    /// `least NODES BITS`: the text of the answer with the least cap.
    Least(CaseLimits),
    /// `only MEMBER ..`: the restricted problem of these requests is the problem at hand.
    Only(Vec<u32>),
    /// `show`: the problem at hand, line by line.
    Show,
    /// `box CAP`: the ranges at a cap.
    Ranges(u16),
    /// A blank line, or one that begins with `#`.
    Comment,
}

/// A budget and a width.
#[derive(Clone, Copy)]
pub struct CaseLimits {
    pub nodes: u32,
    pub bits: u32,
}

/// The number of the next word.
fn number(words: &mut SplitWhitespace<'_>) -> Result<u32, Stop> {
    number_of(words.next())
}

/// The number of a word.
fn number_of(word: Option<&str>) -> Result<u32, Stop> {
    match word {
        Some(word) => word.parse::<u32>().map_err(|_| Stop::Unread),
        None => Err(Stop::Unread),
    }
}

/// The cost of the next word.
fn cost(words: &mut SplitWhitespace<'_>) -> Result<u16, Stop> {
    let number = number(words)?;
    u16::try_from(number).map_err(|_| Stop::Unread)
}

/// The name that is the next word.
fn name(alloc: Global, words: &mut SplitWhitespace<'_>) -> Result<Name, Stop> {
    match words.next() {
        Some(word) => Ok(Name::from_bytes(alloc, word.as_bytes())?),
        None => Err(Stop::Unread),
    }
}

/// The numbers of the words up to the word `end`, or to the last.
fn numbers(alloc: Global, words: &mut SplitWhitespace<'_>, end: &str) -> Result<Vec<u32>, Stop> {
    let mut numbers = Vec::new(alloc);
    for word in words {
        if word == end {
            break;
        }
        numbers.push(number_of(Some(word))?)?;
    }
    Ok(numbers)
}

/// A variable's names and bounds.
fn variable(alloc: Global, words: &mut SplitWhitespace<'_>) -> Result<Command, Stop> {
    let router = name(alloc, words)?;
    let interface = name(alloc, words)?;
    let low = cost(words)?;
    let high = cost(words)?;
    Ok(Command::Variable(router, interface, low, high))
}

/// A price.
fn price(words: &mut SplitWhitespace<'_>) -> Result<Price, Stop> {
    match words.next().unwrap_or("") {
        "fixed" => Ok(Price::Fixed(cost(words)?)),
        "variable" => Ok(Price::Var(number(words)?)),
        "zero" => Ok(Price::Zero),
        _ => Err(Stop::Unread),
    }
}

/// An edge.
fn edge(words: &mut SplitWhitespace<'_>) -> Result<Command, Stop> {
    let from = number(words)?;
    let to = number(words)?;
    let price = price(words)?;
    Ok(Command::Link(Edge { from, to, price }))
}

/// A wanted path.
fn directive(alloc: Global, words: &mut SplitWhitespace<'_>) -> Result<Command, Stop> {
    let start = number(words)?;
    let end = number(words)?;
    let edges = numbers(alloc, words, "without")?;
    let excluded = numbers(alloc, words, "")?;
    Ok(Command::Path(Request {
        path: Path {
            start,
            edges: Listed::from_items(edges),
        },
        end,
        excluded: Listed::from_items(excluded),
    }))
}

/// A budget and a width.
fn read_limits(words: &mut SplitWhitespace<'_>) -> Result<CaseLimits, Stop> {
    let nodes = number(words)?;
    let bits = number(words)?;
    Ok(CaseLimits { nodes, bits })
}

/// Another network.
fn network(words: &mut SplitWhitespace<'_>) -> Result<Command, Stop> {
    let routers = number(words)?;
    let subnets = number(words)?;
    Ok(Command::Network(routers, subnets))
}

/// A cap to be decided.
fn decided(words: &mut SplitWhitespace<'_>) -> Result<Command, Stop> {
    let cap = cost(words)?;
    Ok(Command::Decide(cap, read_limits(words)?))
}

/// A cap to be decided with an advisor that counts.
fn told(words: &mut SplitWhitespace<'_>) -> Result<Command, Stop> {
    let cap = cost(words)?;
    let case_limits = read_limits(words)?;
    Ok(Command::Told(cap, case_limits, number(words)?))
}

/// What a line asks for, by its first word and those behind it.
fn line_of(alloc: Global, first: &str, words: &mut SplitWhitespace<'_>) -> Result<Command, Stop> {
    match first {
        "problem" => Ok(Command::Problem),
        "show" => Ok(Command::Show),
        "decide" => decided(words),
        "told" => told(words),
        "least" => Ok(Command::Least(read_limits(words)?)),
        "only" => Ok(Command::Only(numbers(alloc, words, "")?)),
        "box" => Ok(Command::Ranges(cost(words)?)),
        "network" => network(words),
        "variable" => variable(alloc, words),
        "edge" => edge(words),
        "path" => directive(alloc, words),
        _ => Err(Stop::Unread),
    }
}

/// What the line asks for.
pub(crate) fn read_command(alloc: Global, line: &str) -> Result<Command, Stop> {
    let mut words = line.split_whitespace();
    let Some(first) = words.next() else {
        return Ok(Command::Comment);
    };
    if first.starts_with("#") {
        return Ok(Command::Comment);
    }
    line_of(alloc, first, &mut words)
}
