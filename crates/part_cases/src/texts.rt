//! Lines of a script that ask of lines and words.

use case_scripts::bytes_of;
use std::alloc::{AllocError, Global};
use std::fmt;
use text_lines::{
    Line, Lines, LongLine, Words, cut, first_word, is_comment_word, is_separator, kind_of,
    starts_with_blank, word_at, word_count,
};

/// A line that was read.
fn line_text(alloc: Global, line: &Line<'_>) -> Result<String, AllocError> {
    let indented = if line.indented { " indented" } else { "" };
    let text = line.text.escape_ascii();
    format!(in alloc; "\n  {}{indented} `{text}`", line.number)
}

/// What is told of a line that was read, or that is too long.
fn next_text(alloc: Global, next: Result<Line<'_>, LongLine>) -> Result<String, AllocError> {
    match next {
        Ok(line) => line_text(alloc, &line),
        Err(long) => format!(in alloc; "\n  {} too long", long.number),
    }
}

/// Adds the next line, and tells whether there is one.
fn add_next(alloc: Global, text: &mut String, lines: &mut Lines) -> Result<bool, AllocError> {
    let Some(next) = lines.next_line() else {
        return Ok(false);
    };
    text.push_str(next_text(alloc, next)?.as_str())?;
    text.push_str(if lines.ended() {
        ""
    } else {
        ", without an end"
    })?;
    Ok(true)
}

/// `lines MOST TEXT`: the lines of a text, of at most so many bytes each.
fn lines_text(alloc: Global, most: usize, bytes: &[u8]) -> Result<String, AllocError> {
    if bytes.len() > 1_000_000 {
        return String::from_str(alloc, ": too long");
    }
    let mut lines = Lines::new(bytes, most);
    let mut text = String::new(alloc);
    for _ in 0..bytes.len() {
        if !add_next(alloc, &mut text, &mut lines)? {
            break;
        }
    }
    format!(in alloc; ": {}{text}", lines.lines_read())
}

/// The words of a line, one after another.
#[derive(Drop)]
struct WordsOf<'a>(&'a [u8]);

impl<'a> fmt::Display for WordsOf<'a> {
    fn fmt<W: fmt::Write>(&self, f: &mut fmt::Formatter<W>) -> fmt::Result {
        for word in Words::new(self.0) {
            write!(f, " `{}`", word.escape_ascii())?;
        }
        Ok(())
    }
}

/// A word behind what it is; nothing where there is none.
#[derive(Drop)]
struct Called<'a>(&'a str, Option<&'a [u8]>);

impl<'a> fmt::Display for Called<'a> {
    fn fmt<W: fmt::Write>(&self, f: &mut fmt::Formatter<W>) -> fmt::Result {
        match self.1 {
            Some(word) => write!(f, ", {} `{}`", self.0, word.escape_ascii()),
            None => Ok(()),
        }
    }
}

/// `words TEXT`: the words of a line, one after another, by their count, the first and the third.
fn words_text(alloc: Global, line: &[u8]) -> Result<String, AllocError> {
    let words = WordsOf(line);
    let first = Called("first", word_of(first_word(line)));
    let third = Called("third", word_at(line, 2));
    format!(in alloc; ": {} words{words}{first}{third}", word_count(line))
}

/// The word that a line begins with.
fn word_of<'a>(first: Option<(&'a [u8], &'a [u8])>) -> Option<&'a [u8]> {
    match first {
        Some((word, _)) => Some(word),
        None => None,
    }
}

/// `behind TEXT`: what stands before the first `:` and behind it.
fn behind_text(alloc: Global, bytes: &[u8]) -> Result<String, AllocError> {
    match cut(bytes, b':') {
        Some((before, behind)) => {
            format!(in alloc; ": `{}` `{}`", before.escape_ascii(), behind.escape_ascii())
        }
        None => String::from_str(alloc, ": not cut"),
    }
}

/// A text where something holds, or none.
fn told(holds: bool, text: &'static str) -> &'static str {
    if holds { text } else { "" }
}

/// `tests TEXT`: which tests of bytes hold.
fn tests_text(alloc: Global, bytes: &[u8]) -> Result<String, AllocError> {
    let starts = told(starts_with_blank(bytes), " starts with a blank,");
    let begins = told(is_comment_word(bytes), " begins a comment,");
    let count = bytes.iter().filter(|byte| is_separator(**byte)).count();
    format!(in alloc; ":{starts}{begins} {count} separators")
}

/// What is answered to a line that asks of lines and words.
pub(crate) fn text_text(alloc: Global, first: &str, rest: &str) -> Result<String, AllocError> {
    let (most, behind) = rest.split_once(' ').unwrap_or((rest, ""));
    let bytes = bytes_of(alloc, if first == "lines" { behind } else { rest })?;
    match first {
        "lines" => lines_text(alloc, most.parse::<usize>().unwrap_or(0), bytes.as_slice()),
        "words" => words_text(alloc, bytes.as_slice()),
        "kind" => format!(in alloc; ": {:?}", kind_of(bytes.as_slice())),
        "behind" => behind_text(alloc, bytes.as_slice()),
        _ => tests_text(alloc, bytes.as_slice()),
    }
}
