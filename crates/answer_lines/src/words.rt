//! The words of a line, and the fronts of lines that have one number or one name.
ghost use Rattle.std.specs.Prelude.{◌≡◌, ◌≢◌, ℕ, ◌≤◌, ◌<◌, List, [], ◌∷◌, ◌++◌, MatchOption, IsTrue, ◌↔◌, length};
ghost use Rattle.cost_base.specs.Decimal.{decimal};
ghost use Rattle.cost_base.specs.Words.{IsOneWord, ends_a_word};
ghost use Rattle.std.specs.Prelude.{false};
ghost use Rattle.text_lines.specs.Numbers.{split};
ghost use Rattle.answer_lines.specs.Words.{words_left};

use text_lines::{cut, is_separator, printed_number};

/// The words of a line, cut at each space. Two spaces in a row have an empty word between them.
///
/// Contracts see the list of the words, `words_left`.
#[derive(Clone, Copy)]
pub struct Pieces<'a> {
    left: Option<&'a [u8]>,
}

impl<'a> Pieces<'a> {
    /// The words of this line.
    pub fn new(line: &'a [u8]) -> Pieces<'a>
        ensures { words_left result ≡ split 32 line.now }
    {
        Pieces { left: Some(line) }
    }

    /// The next word, and the words behind it.
    pub fn word(self) -> Option<(&'a [u8], Pieces<'a>)>
        ensures { MatchOption result (words_left self.entry ≡ [])
            (λ r. words_left self.entry ≡ r.0.now ∷ words_left r.1) }
    {
        let text = self.left?;
        match cut(text, b' ') {
            Some((word, behind)) => Some((word, Pieces { left: Some(behind) })),
            None => Some((text, Pieces { left: None })),
        }
    }

    /// The words behind this one, where it is the next.
    pub fn behind(self, wanted: &[u8]) -> Option<Pieces<'a>>
        ensures { MatchOption result ((rest : List (List ℕ)) → words_left self.entry ≢
            wanted.now ∷ rest) (λ r. words_left self.entry ≡ wanted.now ∷ words_left r) }
    {
        let (word, rest) = self.word()?;
        if word == wanted { Some(rest) } else { None }
    }

    /// The number that is the next word, at most `greatest` and as it is printed, and the words behind it.
    pub fn number(self, greatest: u128) -> Option<(u128, Pieces<'a>)>
        ensures { MatchOption result ((n : ℕ) (rest : List (List ℕ)) → n ≤ greatest →
            words_left self.entry ≢ decimal n ∷ rest) (λ r. (r.0 ≤ greatest) ×
            (words_left self.entry ≡ decimal r.0 ∷ words_left r.1)) }
    {
        let (word, rest) = self.word()?;
        let number = printed_number(word, greatest)?;
        Some((number, rest))
    }

    /// The text of the words that are left.
    pub fn text(self) -> Option<&'a [u8]>
        ensures { MatchOption result (words_left self.entry ≡ [])
            (λ text. words_left self.entry ≡ split 32 text.now) }
    {
        self.left
    }

    /// Whether no word is left.
    pub fn is_done(self) -> bool
        ensures { IsTrue result ↔ (words_left self.entry ≡ []) }
    {
        match self.left {
            None => true,
            Some(_) => false,
        }
    }
}

/// What stands behind the front of a line.
pub fn after<'a>(line: &'a [u8], front: &[u8]) -> Option<&'a [u8]>
    ensures { MatchOption result ((rest : List ℕ) → line.now ≢ front.now ++ rest)
        (λ rest. line.now ≡ front.now ++ rest.now) }
{
    line.strip_prefix(front)
}

/// The number, as it is printed, that stands alone behind the front of a line.
pub fn number_after(line: &[u8], front: &[u8], greatest: u128) -> Option<u128>
    ensures { MatchOption result ((n : ℕ) → n ≤ greatest → line.now ≢ front.now ++ decimal n)
        (λ n. (n ≤ greatest) × (line.now ≡ front.now ++ decimal n)) }
{
    let text = after(line, front)?;
    printed_number(text, greatest)
}

/// The name that stands alone behind the front of a line.
pub fn name_after<'a>(line: &'a [u8], front: &[u8]) -> Option<&'a [u8]>
    ensures { MatchOption result ((name : List ℕ) → IsOneWord name → line.now ≢ front.now ++ name)
        (λ name. IsOneWord name.now × (line.now ≡ front.now ++ name.now)) }
{
    let name = after(line, front)?;
    if is_one_word(name) { Some(name) } else { None }
}

/// Whether bytes are one word.
fn is_one_word(bytes: &[u8]) -> bool
    ensures { IsTrue result ↔ IsOneWord bytes.now }
{
    !bytes.is_empty() && bytes.iter().all(|byte| is_inside_word(*byte))
}

fn is_inside_word(byte: u8) -> bool
    ensures { IsTrue result ↔ (ends_a_word byte ≡ false) }
{
    !is_separator(byte) && byte != b'\n'
}
