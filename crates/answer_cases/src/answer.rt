//! What is answered to a line of a script.

use crate::begun::{begun_text, longest_text};
use crate::lines::{heads_text, line_text};
use crate::texts::{parts_text, put_text, read_text};
use case_scripts::{Script, Texts};
use cost_base::OutOfMemory;
use std::alloc::{AllocError, Global};
use std::io;

/// The texts of a script.
#[derive(Drop)]
pub struct Scene {
    texts: Texts,
}

impl Scene {
    /// No text.
    pub(crate) fn new(alloc: Global) -> Scene {
        Scene {
            texts: Texts::new(alloc),
        }
    }
}

/// What is answered to a line that asks of the last text or of a line, in which `more` is what it says. The last text
/// with this behind it is `bytes`.
fn asked(alloc: Global, bytes: &[u8], first: &str, more: &str) -> Result<String, OutOfMemory> {
    match first {
        "answer" => read_text(alloc, bytes),
        "put" => put_text(alloc, bytes),
        "parts" => parts_text(alloc, bytes),
        "heads" => Ok(heads_text(alloc, bytes)?),
        "begun" => Ok(begun_text(alloc, more)?),
        "longest" => Ok(longest_text(alloc)?),
        _ => line_text(alloc, first, more.as_bytes()),
    }
}

/// What is answered to a line.
fn reply(alloc: Global, texts: &mut Texts, line: &str) -> Result<String, AllocError> {
    if texts.takes(alloc, line)? {
        return Ok(String::new(alloc));
    }
    let (first, more) = line.split_once(' ').unwrap_or((line, ""));
    let bytes = texts.with(alloc, more)?;
    match asked(alloc, bytes.as_slice(), first, more) {
        Ok(text) => Ok(text),
        Err(_) => Err(AllocError),
    }
}

impl Script for Scene {
    fn answer(&mut self, alloc: Global, line: &str) -> io::Result<String> {
        Ok(reply(alloc, &mut self.texts, line)?)
    }
}
