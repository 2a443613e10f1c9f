//! From the line of a refusal to a sentence.
ghost use Rattle.std.specs.Prelude.{◌≡◌, ◌<◌, ℕ, List, IfOk, Option, map};
ghost use Rattle.std.specs.List.{concat};
ghost use Rattle.std.specs.Option.{option_copied};
ghost use Rattle.cost_base.specs.Decimal.{decimal};
ghost use Rattle.refusal_sentences.specs.Sentences as told;
ghost use Rattle.refusal_sentences.specs.Sentences.{sentence_by, told_line, word_before};

use crate::line::parts_of;
use crate::meaning::meaning_of;
use crate::place::Place;
use cost_base::{Name, OutOfMemory};
use std::alloc::Global;
use text_lines::push_bytes;

/// The word before the number of a place; None where the place is nothing, or line 0, which is the file as a whole.
fn word_before(place: Place, number: &[u8]) -> Option<&'static [u8]>
    ensures { option_copied result ≡ word_before place number.now }
{
    match place {
        Place::Line if number == b"0".as_slice() => None,
        Place::Line => Some(b"line"),
        Place::Byte => Some(b"byte"),
        Place::Spot => Some(b"place"),
        Place::Variable => Some(b"variable"),
        Place::Path => Some(b"path"),
        Place::Row => Some(b"row"),
        Place::TreeLine => Some(b"tree line"),
        Place::Nothing => None,
    }
}

/// These pieces, one behind the other.
fn joined(alloc: Global, pieces: &[&[u8]]) -> Result<Name, OutOfMemory>
    ensures { IfOk result (λ text. text ≡ concat (map (λ piece. piece.now) pieces.now)) }
{
    let mut text = Vec::new(alloc);
    for piece in pieces {
        push_bytes(&mut text, piece)?;
    }
    Name::from_bytes(alloc, text.as_slice())
}

/// `FILE, line 12: it means this`, without the parts that there aren't.
fn sentence<'a>(
    alloc: Global,
    file: Option<&'a [u8]>,
    word: Option<&'a [u8]>,
    place: &'a [u8],
    says: &'a [u8],
) -> Result<Name, OutOfMemory>
    ensures { IfOk result (λ text. text ≡
        told.sentence (option_copied file.entry) (option_copied word.entry) place.now says.now) }
{
    match (file, word) {
        (Some(file), Some(word)) => joined(alloc, &[file, b", ", word, b" ", place, b": ", says]),
        (Some(file), None) => joined(alloc, &[file, b": ", says]),
        (None, Some(word)) => joined(alloc, &[word, b" ", place, b": ", says]),
        (None, None) => Name::from_bytes(alloc, says),
    }
}

/// What the line of a refusal, `refused NUMBER FILE PLACE` or `rejected NUMBER PLACE`, means in a sentence; None where
/// it is no such line, or the number of no refusal.
///
/// # Errors
///
/// `OutOfMemory`.
pub fn sentence_of(alloc: Global, line: &[u8]) -> Result<Option<Name>, OutOfMemory>
    ensures { IfOk result (λ sentence. (number place : ℕ) (file : Option (List ℕ)) → number < 256 →
        line.now ≡ told_line number file place → sentence ≡
        sentence_by number file (decimal place)) }
{
    let Some(parts) = parts_of(line) else {
        return Ok(None);
    };
    let Some(meaning) = meaning_of(parts.number) else {
        return Ok(None);
    };
    let word = word_before(meaning.place, parts.place);
    let says = meaning.says.as_bytes();
    Ok(Some(sentence(alloc, parts.file, word, parts.place, says)?))
}
