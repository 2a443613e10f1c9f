//! The words of a line.
ghost use Rattle.std.specs.Prelude.{◌≡◌, ℕ, ◌+◌, ◌<◌, ◌≤◌, ◌≢◌, List, [], ◌∷◌, ◌++◌, length, MatchOption, slice_get, take, drop, false, true, All};
ghost use Rattle.std.specs.Iterator.{YieldsFirstRef, item_count};
ghost use Rattle.std.specs.Option.{option_copied};
ghost use Rattle.text_lines.specs.Lines.{words, ends_word};
ghost use Rattle.cost_base.specs.Words.{is_blank};

use crate::is_separator;
use std::marker::Model;

/// The words of a line, one after another. Contracts see the list of the words that are left.
#[derive(Drop)]
pub struct Words<'a> {
    left: &'a [u8],
}

impl<'a> Model for Words<'a> {
    ghost use Rattle.std.specs.Prelude.{ℕ, List};
    ghost use Rattle.text_lines.specs.Lines.{words};

    ghost Value = { List (List ℕ) };

    ghost view = { λ w. words w.left.now };
}

impl<'a> Words<'a> {
    /// The words of `text`.
    pub fn new(text: &'a [u8]) -> Words<'a>
        ensures { result ≡ words text.now }
    {
        Words { left: text }
    }
}

impl<'a> Iterator for Words<'a> {
    type Item = &'a [u8];

    ghost next_gives = { YieldsFirstRef (λ s. s) };

    ghost remaining = { item_count (λ s. s) };

    fn next(&mut self) -> Option<&'a [u8]> {
        match first_word(self.left) {
            Some((word, left)) => {
                self.left = left;
                Some(word)
            }
            None => {
                self.left = &[];
                None
            }
        }
    }
}

/// The first word of a text, and the bytes behind it; None where no word is left.
pub fn first_word(text: &[u8]) -> Option<(&[u8], &[u8])>
    ensures words { MatchOption result (words text.now ≡ []) (λ p.
        words text.now ≡ p.0.now ∷ words p.1.now) }
    ensures shorter { MatchOption result (Unit {0}) (λ p. length p.0.now + length p.1.now ≤
        length text.now) }
{
    let start = skip_separators(text);
    if start.is_empty() {
        return None;
    }
    let end = word_length(start);
    Some(start.split_at(end))
}

/// The bytes of a text from its first word on.
fn skip_separators(text: &[u8]) -> &[u8]
    ensures words { words result.now ≡ words text.now }
    ensures start { ends_word result.now ≡ true → result.now ≡ [] }
    ensures shorter { length result.now ≤ length text.now }
{
    let mut left = text;
    while let [first, rest @ ..] = left {
        if !is_separator(*first) {
            break;
        }
        left = rest;
    }
    left
}

/// How many bytes stand before the first separator of a text.
fn word_length(text: &[u8]) -> usize
    ensures within { result ≤ length text.now }
    ensures whole { All (λ c. is_blank c ≡ false) (take result text.now) }
    ensures end { ends_word (drop result text.now) ≡ true }
{
    text.iter()
        .position(|byte| is_separator(*byte))
        .unwrap_or(text.len())
}

/// How many words a line has.
pub fn word_count(text: &[u8]) -> usize
    ensures { result ≡ length (words text.now) }
{
    Words::new(text).count()
}

/// The word of a line at a place, counted from 0; None past the last word.
pub fn word_at(text: &[u8], place: usize) -> Option<&[u8]>
    ensures { option_copied result ≡ slice_get (words text.now) place }
{
    Words::new(text).nth(place)
}
