//! Reading a text line by line.
ghost use Rattle.std.specs.Prelude.{◌≡◌, ◌-◌, ◌^◌, ◌<◌, ◌≢◌, ◌↔◌, true, [], length, IsNone, IfNone, IfSome, MatchResult};
ghost use Rattle.text_lines.specs.Reading.{IsFirstLine, IsLineRead, IsLongLine, IsNumbered, IsNumberedLong};

use crate::kinds::starts_with_blank;
use memchr::memchr;
use std::marker::Model;

/// A line of a text, without its LF. Lines are numbered from 1; `indented` says that it begins with a space or a tab.
#[derive(Clone, Copy, Debug)]
pub struct Line<'a> {
    pub number: u32,
    pub indented: bool,
    pub text: &'a [u8],
}

/// The number of a line that has too many bytes.
#[derive(Clone, Copy, Debug, PartialEq, Eq)]
pub struct LongLine {
    pub number: u32,
}

/// A reader of a text, line by line. A line ends with an LF; bytes after the last LF are a line too.
///
/// Contracts see the bytes that are left, the number of lines read so far, whether the last of them ended with an LF,
/// and the greatest length of a line.
#[derive(Drop)]
pub struct Lines<'a> {
    left: &'a [u8],
    read: u32,
    ended: bool,
    longest: usize,
}

impl<'a> Model for Lines<'a> {
    ghost use Rattle.std.specs.Prelude.{◌+◌, ◌-◌, ◌^◌, ◌<◌, length};
    ghost use Rattle.text_lines.specs.TextLeft.{TextLeft};

    ghost Value = { TextLeft };

    ghost view = { λ l. record {
      bytes = l.left.now;
      read = l.read;
      ended = l.ended;
      longest = l.longest;
    } };

    ghost invariant = { λ l. l.read + length l.left.now < 2 ^ 32 - 1 };
}

impl<'a> Lines<'a> {
    /// Begins to read a text whose lines have at most `longest` bytes.
    pub fn new(bytes: &'a [u8], longest: usize) -> Lines<'a>
        requires { length bytes.now < 2 ^ 32 - 1 }
        ensures { result ≡ record { bytes = bytes.now; read = 0; ended = true; longest = longest } }
    {
        Lines {
            left: bytes,
            read: 0,
            ended: true,
            longest,
        }
    }

    /// The next line, or its number alone where it has more than `longest` bytes; None at the end of the text.
    pub fn next_line(&mut self) -> Option<Result<Line<'a>, LongLine>>
        ensures end { IsNone result ↔ (self.old.bytes ≡ []) }
        ensures line { IfSome result (λ found. MatchResult found (IsLineRead self.old self.new)
            (IsLongLine self.old self.new)) }
        ensures stays { IfNone result (self.new ≡ self.old) }
    {
        if self.left.is_empty() {
            return None;
        }
        let first = first_line(self.left);
        self.left = first.left;
        self.ended = first.ended;
        self.read += 1;
        Some(numbered(first.text, self.read, self.longest))
    }

    /// How many lines were read so far; there are fewer than 2^32 - 1.
    pub fn lines_read(&self) -> u32
        ensures count { result ≡ self.now.read }
        ensures few { result < 2 ^ 32 - 1 }
    {
        self.read
    }

    /// Whether the line that was read last ended with an LF. Before the first line this is true.
    pub fn ended(&self) -> bool
        ensures { result ≡ self.now.ended }
    {
        self.ended
    }
}

/// A text cut behind its first line. `ended` says that the line ended with an LF.
#[derive(Clone, Copy)]
struct FirstLine<'a> {
    text: &'a [u8],
    ended: bool,
    left: &'a [u8],
}

/// Cuts a text behind its first line.
fn first_line(bytes: &[u8]) -> FirstLine<'_>
    requires { bytes.now ≢ [] }
    ensures { IsFirstLine bytes.now result.text.now result.ended result.left.now }
{
    match memchr(b'\n', bytes) {
        Some(end) => FirstLine {
            text: &bytes[..end],
            ended: true,
            left: &bytes[end + 1..],
        },
        None => FirstLine {
            text: bytes,
            ended: false,
            left: &[],
        },
    }
}

/// The line with its number, or its number alone where it is too long.
fn numbered(text: &[u8], number: u32, longest: usize) -> Result<Line<'_>, LongLine>
    ensures { MatchResult result (IsNumbered text.now number longest)
        (IsNumberedLong text.now number longest) }
{
    if text.len() > longest {
        return Err(LongLine { number });
    }
    Ok(Line {
        number,
        indented: starts_with_blank(text),
        text,
    })
}
