//! The line of a refusal or of a rejection, in its parts.

ghost use Rattle.std.specs.Prelude.{◌≡◌, ◌<◌, ◌∷◌, ◌++◌, [], ℕ, List, IsSomeAnd, Option, None, Some};
ghost use Rattle.cost_base.specs.Decimal.{decimal};
ghost use Rattle.cost_base.specs.Words.{HasNoSpace};
ghost use Rattle.refusal_sentences.specs.Sentences.{IsParted, IsCutIn, told_line};

use memchr::memrchr;
use text_lines::{cut, printed_number};

/// What the line of a refusal tells.
#[derive(Clone, Copy)]
pub(crate) struct LineParts<'a> {
    /// The number of the refusal.
    pub(crate) number: u8,
    /// The file, where the line names one.
    pub(crate) file: Option<&'a [u8]>,
    /// The number of the place, as it is printed.
    pub(crate) place: &'a [u8],
}

/// The first word of a text, and what stands behind the space behind it; None where it has no space.
fn cut_at_first_space(text: &[u8]) -> Option<(&[u8], &[u8])>
    ensures { (word rest : List ℕ) → HasNoSpace word → text.now ≡ word ++ 32 ∷ rest →
        IsCutIn word rest result }
{
    cut(text, b' ')
}

/// What stands before the space before the last word of a text, and that word; None where it has no space.
fn cut_at_last_space(text: &[u8]) -> Option<(&[u8], &[u8])>
    ensures { (rest word : List ℕ) → HasNoSpace word → text.now ≡ rest ++ 32 ∷ word →
        IsCutIn rest word result }
{
    let end = memrchr(b' ', text)?;
    Some((&text[..end], &text[end + 1..]))
}

/// The number that a word is.
fn number_in(word: &[u8]) -> Option<u8>
    ensures { (number : ℕ) → number < 256 → word.now ≡ decimal number → result ≡ Some number }
{
    Some(printed_number(word, 255)? as u8)
}

/// The parts of the line of a refusal, from what stands behind `refused `. The name of a file may have spaces in it.
fn refusal_in(rest: &[u8]) -> Option<LineParts<'_>>
    ensures { (number place : ℕ) (file : List ℕ) → number < 256
        → rest.now ≡ decimal number ++ 32 ∷ (file ++ 32 ∷ decimal place)
        → IsSomeAnd result (IsParted number (Some file) (decimal place)) }
{
    let (number, rest) = cut_at_first_space(rest)?;
    let (file, place) = cut_at_last_space(rest)?;
    Some(LineParts {
        number: number_in(number)?,
        file: Some(file),
        place,
    })
}

/// The parts of the line of a rejection, from what stands behind `rejected `.
fn rejection_in(rest: &[u8]) -> Option<LineParts<'_>>
    ensures { (number place : ℕ) → number < 256
        → rest.now ≡ decimal number ++ 32 ∷ decimal place
        → IsSomeAnd result (IsParted number None (decimal place)) }
{
    let (number, place) = cut_at_first_space(rest)?;
    Some(LineParts {
        number: number_in(number)?,
        file: None,
        place,
    })
}

/// A line without the LF that ends it.
fn without_end(line: &[u8]) -> &[u8]
    ensures { (text : List ℕ) → line.now ≡ text ++ 10 ∷ [] → result.now ≡ text }
{
    match line {
        [text @ .., b'\n'] => text,
        _ => line,
    }
}

/// The parts of the line of a refusal or of a rejection; None where it is no such line.
pub(crate) fn parts_of(line: &[u8]) -> Option<LineParts<'_>>
    ensures { (number place : ℕ) (file : Option (List ℕ)) → number < 256 →
        line.now ≡ told_line number file place → IsSomeAnd result
        (IsParted number file (decimal place)) }
{
    let (first, rest) = cut_at_first_space(without_end(line))?;
    if first == b"refused".as_slice() {
        refusal_in(rest)
    } else if first == b"rejected".as_slice() {
        rejection_in(rest)
    } else {
        None
    }
}
