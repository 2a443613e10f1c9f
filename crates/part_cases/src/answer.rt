//! What is answered to a line of a script.

use crate::advisors::choose_text;
use crate::covers::cover_text;
use crate::fractions::fraction_text;
use crate::jobs::{job_text, made_text};
use crate::numbers::number_text;
use crate::ranges::{cut_text, over_text};
use crate::shelves::{file_text, memory_shelf_text, sure_shelf_text};
use crate::sinks::{memory_sink_text, out_sink_text, sure_sink_text};
use crate::texts::text_text;
use case_scripts::Script;
use std::alloc::{AllocError, Global};
use std::io;
use std::rt::Files;

/// The runtime whose files lines ask for. Nothing lasts from line to line.
#[derive(Drop)]
pub struct Scene {
    rt: HostRuntime,
}

impl Scene {
    /// The files of this runtime.
    pub(crate) fn new(rt: HostRuntime) -> Scene {
        Scene { rt }
    }
}

/// What is answered to a line that asks of shelves or sinks. Any other line is a comment.
fn outside_text(
    rt: &(impl Files + AllocGlobal),
    first: &str,
    rest: &str,
) -> Result<String, AllocError> {
    let alloc = rt.alloc();
    match first {
        "memory-shelf" => memory_shelf_text(alloc, rest),
        "sure-shelf" => sure_shelf_text(alloc, rest),
        "file" => file_text(rt, rest),
        "memory-sink" => memory_sink_text(alloc, rest),
        "sure-sink" => sure_sink_text(alloc, rest),
        "out-sink" => out_sink_text(alloc, rest),
        _ => String::from_str(alloc, ""),
    }
}

/// What is answered to a line that asks of numbers, covers, commands, made trials or advisors, shelves or sinks.
fn part_text(
    rt: &(impl Files + AllocGlobal),
    first: &str,
    rest: &str,
) -> Result<String, AllocError> {
    let alloc = rt.alloc();
    match first {
        "at" => fraction_text(alloc, rest),
        "over" => over_text(alloc, rest),
        "cut" => cut_text(alloc, rest),
        "cover" => cover_text(alloc, rest),
        "job" => job_text(alloc, rest),
        "made" => made_text(alloc, rest),
        "choose" => choose_text(alloc, rest),
        _ => outside_text(rt, first, rest),
    }
}

/// What is answered to a line. A line that begins with no word of a table is a comment.
fn reply(rt: &(impl Files + AllocGlobal), line: &str) -> Result<String, AllocError> {
    let alloc = rt.alloc();
    let (first, rest) = line.split_once(' ').unwrap_or((line, ""));
    match first {
        "lines" | "words" | "kind" | "behind" | "tests" => text_text(alloc, first, rest),
        "number" | "quad" | "prefix" | "area" | "printed" | "digits" => {
            number_text(alloc, first, rest)
        }
        _ => part_text(rt, first, rest),
    }
}

impl Script for Scene {
    fn answer(&mut self, _alloc: Global, line: &str) -> io::Result<String> {
        Ok(reply(&self.rt, line)?)
    }
}
