//! Runs a script of refusals: behind each line of standard input stands what it means in a sentence, if it
//! is a refusal's.
//!
//! `stdin` has a line for each number, and `stdout` the sentences, which were written down outside.
#![tactic(auto)]

use case_scripts::Script;
use refusal_sentences::sentence_of;
use std::alloc::Global;
use std::io::{self, ErrorKind};

/// Tells refusals in sentences. Nothing lasts from line to line.
#[derive(Drop)]
struct Sentences;

impl Script for Sentences {
    fn answer(&mut self, alloc: Global, line: &str) -> io::Result<String> {
        let told = sentence_of(alloc, line.as_bytes()).map_err(|_| ErrorKind::OutOfMemory)?;
        match told
            .as_ref()
            .map(|sentence| str::from_utf8(sentence.as_bytes()))
        {
            Some(Ok(sentence)) => Ok(format!(in alloc; " = {sentence}")?),
            _ => Ok(String::new(alloc)),
        }
    }
}

fn main(rt: HostRuntime) -> io::Result<()> {
    let mut sentences = Sentences;
    sentences.play(&rt)
}
