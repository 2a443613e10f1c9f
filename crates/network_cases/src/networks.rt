//! The graph and the points of a script.

use area_graph::{Edge, Graph, Point, Price, fits_graph, vertices_of};
use case_scripts::{list_of, next_number};
use cost_base::{Listed, OutOfMemory};
use std::alloc::{AllocError, Global};
use std::str::SplitWhitespace;

/// A text of these letters.
pub(crate) fn said(alloc: Global, text: &str) -> Result<String, OutOfMemory> {
    Ok(String::from_str(alloc, text)?)
}

/// The price that a word says: `xN` is variable N, `0` nothing, and any other number a cost.
fn price(word: &str) -> Option<Price> {
    if word == "0" {
        return Some(Price::Zero);
    }
    match word.strip_prefix('x') {
        Some(number) => Some(Price::Var(number.parse::<u32>().ok()?)),
        None => Some(Price::Fixed(word.parse::<u16>().ok()?)),
    }
}

/// The edge of a word `FROM-TO:PRICE`.
fn edge(word: &str) -> Option<Edge> {
    let (ends, after) = word.split_once(':')?;
    let (from, to) = ends.split_once('-')?;
    Some(Edge {
        from: from.parse::<u32>().ok()?,
        to: to.parse::<u32>().ok()?,
        price: price(after)?,
    })
}

/// The edges of the other words; none where a word is none.
fn edges(alloc: Global, words: &mut SplitWhitespace<'_>) -> Result<Option<Vec<Edge>>, AllocError> {
    let mut edges = Vec::new(alloc);
    for word in words {
        let Some(edge) = edge(word) else {
            return Ok(None);
        };
        edges.push(edge)?;
    }
    Ok(Some(edges))
}

/// The graph of the words `ROUTERS SUBNETS FROM-TO:PRICE ..`; none where these make none.
pub(crate) fn graph(
    alloc: Global,
    words: &mut SplitWhitespace<'_>,
) -> Result<Option<Graph>, OutOfMemory> {
    let routers = next_number(words);
    let subnets = next_number(words);
    let Some(edges) = edges(alloc, words)? else {
        return Ok(None);
    };
    let vertices = vertices_of(alloc, routers, subnets)?;
    if !fits_graph(vertices.as_slice(), edges.as_slice()) {
        return Ok(None);
    }
    Ok(Some(Graph::new(alloc, vertices, edges)?))
}

/// The point of a word `SCALE:VALUE,VALUE..`. Where it is none, the point fits no graph.
pub(crate) fn point(alloc: Global, word: &str) -> Result<Point, AllocError> {
    let (scale, values) = word.split_once(':').unwrap_or(("0", word));
    Ok(Point {
        scale: scale.parse::<u128>().unwrap_or(0),
        values: Listed::from_items(list_of::<u128>(alloc, values)?),
    })
}
