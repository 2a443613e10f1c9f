//! Scripts of cases: how one is played, and the words, numbers, lists, bytes and texts of its lines.
#![tactic(auto)]

ghost use Rattle.std.specs.Prelude.{◌≡◌, ℕ, List, [], ◌∷◌, ◌++◌, IfOk, OnOk};
ghost use Rattle.std.specs.Str.Iter.{split_whitespace_rest};
ghost use Rattle.case_scripts.specs.Words.{AreListed, IsNextWord, IsNumberOrZero, values_of};
ghost use Rattle.case_scripts.specs.Escapes.{bytes_of, hex_byte, unescaped};

mod entries;
mod script;
mod texts;

pub use entries::{Entries, Named, Part, Step, Terms};
pub use script::Script;
use std::alloc::{AllocError, Global};
use std::fmt;
use std::str::{FromStr, SplitWhitespace};
pub use texts::{Text, Texts};

/// The next word, or an empty one behind the last.
pub fn next_word<'a>(words: &mut SplitWhitespace<'a>) -> &'a str
    ensures { IsNextWord (split_whitespace_rest words.old) result.now
        (split_whitespace_rest words.new) }
{
    match words.next() {
        Some(word) => word,
        None => "",
    }
}

/// The number that a word is, or 0.
fn number_of(word: &str) -> u32
    ensures { IsNumberOrZero word.now result }
{
    match word.parse::<u32>() {
        Ok(number) => number,
        Err(_) => 0,
    }
}

/// The number of the next word, or 0.
pub fn next_number(words: &mut SplitWhitespace<'_>) -> u32
    ensures { (word : List ℕ) × IsNextWord (split_whitespace_rest words.old) word
        (split_whitespace_rest words.new) × IsNumberOrZero word result }
{
    number_of(next_word(words))
}

/// Adds the value of an answer, where it has one.
fn add_value<T: Drop, E: Drop>(list: &mut Vec<T>, answer: Result<T, E>) -> Result<(), AllocError>
    ensures { OnOk result (list.new.items ≡ list.old.items ++ values_of (answer ∷ [])) }
{
    match answer {
        Ok(value) => {
            list.push(value)?;
            Ok(())
        }
        Err(_) => Ok(()),
    }
}

/// The things of a word, a comma apart. What is none is left out, so that `-` is a list of nothing.
pub fn list_of<T: FromStr + Drop>(alloc: Global, word: &str) -> Result<Vec<T>, AllocError>
where
    T::Err: Drop,
    ensures { IfOk result (λ things. AreListed T.from_str_gives word.now things.items) }
{
    let parts: Vec<&str> = word.split(',').collect(alloc)?;
    let mut list = Vec::new(alloc);
    for part in parts.as_slice() {
        add_value(&mut list, part.parse::<T>())?;
    }
    Ok(list)
}

/// The numbers of the next word, a comma apart.
pub fn next_numbers(alloc: Global, words: &mut SplitWhitespace<'_>) -> Result<Vec<u32>, AllocError>
    ensures { IfOk result (λ numbers. (word : List ℕ) × IsNextWord (split_whitespace_rest words.old)
        word (split_whitespace_rest words.new) × AreListed ⟦<u32 as FromStr>⟧.from_str_gives word
        numbers.items) }
{
    list_of::<u32>(alloc, next_word(words))
}

/// A list as it is written, a comma apart; `-` where there is nothing in it.
#[derive(Drop)]
pub struct Written<'a, T>(pub &'a [T]);

impl<'a, T: fmt::Display> fmt::Display for Written<'a, T> {
    fn fmt<W: fmt::Write>(&self, f: &mut fmt::Formatter<W>) -> fmt::Result {
        let Some((first, rest)) = self.0.split_first() else {
            return write!(f, "-");
        };
        write!(f, "{first}")?;
        for thing in rest {
            write!(f, ",{thing}")?;
        }
        Ok(())
    }
}

/// A list as it is written, a blank before each thing.
#[derive(Drop)]
pub struct Spaced<'a, T>(pub &'a [T]);

impl<'a, T: fmt::Display> fmt::Display for Spaced<'a, T> {
    fn fmt<W: fmt::Write>(&self, f: &mut fmt::Formatter<W>) -> fmt::Result {
        for thing in self.0 {
            write!(f, " {thing}")?;
        }
        Ok(())
    }
}

/// The byte whose two hexadecimal digits a text begins with.
fn hex_byte(text: &[u8]) -> Option<u8>
    ensures { result ≡ hex_byte text.now }
{
    if text.len() < 2 {
        return None;
    }
    let high = char::from(text[0]).to_digit(16)?;
    let low = char::from(text[1]).to_digit(16)?;
    Some((high * 16 + low) as u8)
}

/// The byte that stands behind a `\`, and what follows it: `n`, `r` and `t` are those of Rust, `xNN` is hexadecimal,
/// and anything else is `\` itself.
fn unescaped(text: &[u8]) -> (u8, &[u8])
    ensures { (result.0 ∷ result.1.now) ≡ unescaped text.now }
{
    let Some((first, rest)) = text.split_first() else {
        return (b'\\', text);
    };
    match *first {
        b'n' => (b'\n', rest),
        b'r' => (b'\r', rest),
        b't' => (b'\t', rest),
        b'x' => match hex_byte(rest) {
            Some(byte) => (byte, &rest[2..]),
            None => (b'\\', text),
        },
        _ => (b'\\', text),
    }
}

/// The bytes that a text stands for: each is itself, but those that a `\` begins.
pub fn bytes_of(alloc: Global, text: &str) -> Result<Vec<u8>, AllocError>
    ensures { IfOk result (λ bytes. bytes.items ≡ bytes_of text.now) }
{
    let pieces: Vec<&str> = text.split('\\').collect(alloc)?;
    let mut bytes = Vec::new(alloc);
    let Some((first, others)) = pieces.as_slice().split_first() else {
        return Ok(bytes);
    };
    bytes.extend_from_slice(first.as_bytes())?;
    for piece in others {
        let (byte, rest) = unescaped(piece.as_bytes());
        bytes.push(byte)?;
        bytes.extend_from_slice(rest)?;
    }
    Ok(bytes)
}
