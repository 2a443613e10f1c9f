//! What is answered to a line of a script.

use crate::networks::{graph, said};
use crate::outsiders::outsider_text;
use crate::paths::{avoids_text, copy_text, only_text, path_text, vertex_text};
use crate::rivals::rival_text;
use crate::searches::{new_room_text, search_text};
use area_graph::Graph;
use case_scripts::{Script, next_word};
use cost_base::OutOfMemory;
use std::alloc::{AllocError, Global};
use std::io;
use std::str::SplitWhitespace;

/// The graph at hand.
#[derive(Drop)]
pub struct Scene {
    network: Option<Graph>,
}

impl Scene {
    /// No graph.
    pub(crate) fn new() -> Scene {
        Scene { network: None }
    }
}

/// What is answered to a line that begins with this word and asks of a graph. Any other line is a comment.
fn asked(
    alloc: Global,
    graph: &Graph,
    first: &str,
    words: &mut SplitWhitespace<'_>,
) -> Result<String, OutOfMemory> {
    match first {
        "vertex" => Ok(vertex_text(alloc, graph, words)?),
        "copy" => copy_text(alloc, graph),
        "room" => new_room_text(alloc, graph),
        "path" => Ok(path_text(alloc, graph, words)?),
        "avoids" => Ok(avoids_text(alloc, words)?),
        "only" => only_text(alloc, graph, words),
        "rival" => rival_text(alloc, graph, words),
        "outsider" => outsider_text(alloc, graph, words),
        "search" | "within" => search_text(alloc, graph, first, words),
        _ => said(alloc, ""),
    }
}

/// Takes another graph, and tells whether the words make one.
fn start(
    alloc: Global,
    network: &mut Option<Graph>,
    words: &mut SplitWhitespace<'_>,
) -> Result<String, OutOfMemory> {
    *network = graph(alloc, words)?;
    let told = match network {
        Some(_) => "",
        None => ": no graph",
    };
    said(alloc, told)
}

/// What is answered to a line: `graph` takes another graph, and the other words ask of the one at hand.
fn reply(alloc: Global, network: &mut Option<Graph>, line: &str) -> Result<String, AllocError> {
    let mut words = line.split_whitespace();
    let first = next_word(&mut words);
    let text = match network {
        _ if first == "graph" => start(alloc, network, &mut words),
        Some(graph) => asked(alloc, graph, first, &mut words),
        None => said(alloc, ""),
    };
    text.map_err(|_| AllocError)
}

impl Script for Scene {
    fn answer(&mut self, alloc: Global, line: &str) -> io::Result<String> {
        Ok(reply(alloc, &mut self.network, line)?)
    }
}
