//! Lines of a script that ask of commands and of made trials.

use case_scripts::next_number;
use command_words::read_words;
use cost_base::Name;
use std::alloc::{AllocError, Global};
use std::fmt;
use trial_maker::{TrialTexts, make_trial};

/// The words of a text.
fn words_of(alloc: Global, text: &str) -> Result<Vec<String>, AllocError> {
    let mut words = Vec::new(alloc);
    for word in text.split_whitespace() {
        words.push(String::from_str(alloc, word)?)?;
    }
    Ok(words)
}

/// The job that words ask for.
fn words_text(alloc: Global, words: &[String]) -> Result<String, AllocError> {
    match read_words(alloc, words) {
        Ok(job) => format!(in alloc; ": {job:?}"),
        Err(stop) => format!(in alloc; ": {stop:?}"),
    }
}

/// `job WORD ..`: the job that words ask for.
pub(crate) fn job_text(alloc: Global, rest: &str) -> Result<String, AllocError> {
    let words = words_of(alloc, rest)?;
    words_text(alloc, words.as_slice())
}

/// The lines of a text, each on a line of its own.
#[derive(Drop)]
struct TextLines<'a>(&'a Name);

impl<'a> fmt::Display for TextLines<'a> {
    fn fmt<W: fmt::Write>(&self, f: &mut fmt::Formatter<W>) -> fmt::Result {
        for line in self.0.as_bytes().split_inclusive(|byte| *byte == b'\n') {
            write!(f, "\n  `{}`", line.escape_ascii())?;
        }
        Ok(())
    }
}

/// Names, with a blank before each.
#[derive(Drop)]
struct Names<'a>(&'a [Name]);

impl<'a> fmt::Display for Names<'a> {
    fn fmt<W: fmt::Write>(&self, f: &mut fmt::Formatter<W>) -> fmt::Result {
        for name in self.0 {
            write!(f, " {}", name.as_bytes().escape_ascii())?;
        }
        Ok(())
    }
}

/// `made BLOCKS START PLACE`: the names of the files of a made trial, the file at a place among them, and the request
/// file.
pub(crate) fn made_text(alloc: Global, rest: &str) -> Result<String, AllocError> {
    let mut words = rest.split_whitespace();
    let blocks = next_number(&mut words);
    let start = next_number(&mut words);
    let place = next_number(&mut words);
    if blocks == 0 || blocks > 125 || start >= 1 << 31 {
        return String::from_str(alloc, ": unfit");
    }
    let Ok(case) = make_trial(alloc, blocks, start) else {
        return Err(AllocError);
    };
    case_text(alloc, &case, place)
}

/// The names of a made trial's files, the file at a place among them, and the request file.
fn case_text(alloc: Global, case: &TrialTexts, place: u32) -> Result<String, AllocError> {
    let names = Names(case.names.as_slice());
    let request = TextLines(&case.request);
    match case.configs.as_slice().get(place as usize) {
        Some(config) => format!(in alloc; ":{names}{}{request}", TextLines(config)),
        None => format!(in alloc; ":{names}{request}"),
    }
}
