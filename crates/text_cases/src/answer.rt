//! What is answered to a line of a script.

use crate::configs::config_text;
use crate::networks::{links_text, network_text};
use crate::requests::request_text;
use case_scripts::{Script, Texts};
use lsdb_build::Lsdb;
use std::alloc::{AllocError, Global};
use std::io;

/// The texts of a script, and the network at hand.
#[derive(Drop)]
pub struct Scene {
    texts: Texts,
    network: Option<Lsdb>,
}

impl Scene {
    /// No text and no network.
    pub(crate) fn new(alloc: Global) -> Scene {
        Scene {
            texts: Texts::new(alloc),
            network: None,
        }
    }
}

/// What is answered to a line that asks of the last text, with more bytes behind it.
fn asked(alloc: Global, scene: &Scene, first: &str, more: &str) -> Result<String, AllocError> {
    let bytes = scene.texts.with(alloc, more)?;
    match (first, &scene.network) {
        ("config", _) => config_text(alloc, scene.texts.last().name.as_str(), bytes.as_slice()),
        ("request", _) | ("problem" | "present" | "beside", Some(_)) => {
            request_text(alloc, first, bytes.as_slice(), &scene.network)
        }
        _ => String::from_str(alloc, ""),
    }
}

/// What is answered to a line.
fn reply(alloc: Global, scene: &mut Scene, line: &str) -> Result<String, AllocError> {
    if scene.texts.takes(alloc, line)? {
        return Ok(String::new(alloc));
    }
    let (first, rest) = line.split_once(' ').unwrap_or((line, ""));
    match first {
        "network" => network_text(alloc, &scene.texts, &mut scene.network, rest),
        "links" => links_text(alloc, &scene.network),
        _ => asked(alloc, scene, first, rest),
    }
}

impl Script for Scene {
    fn answer(&mut self, alloc: Global, line: &str) -> io::Result<String> {
        Ok(reply(alloc, self, line)?)
    }
}
