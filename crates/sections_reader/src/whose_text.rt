//! Whose text it is.
ghost use Rattle.std.specs.Prelude.{◌≡◌, Some};
ghost use Rattle.sections_reader.specs.Texts as texts;

use answer_lines::OtherText;
use text_lines::cut;

/// The text that these bytes are by their first line; None where that is the head of no other text than an answer's.
pub(crate) fn text_of_bytes(bytes: &[u8]) -> Option<OtherText>
    ensures { result ≡ texts.text_of_bytes bytes.now }
{
    match cut(bytes, b'\n') {
        Some((line, _)) => text_by_head(line),
        None => text_by_head(bytes),
    }
}

/// The text that a first line is the head of.
fn text_by_head(line: &[u8]) -> Option<OtherText>
    ensures { result ≡ texts.text_by_head (Some line.now) }
{
    if line == OtherText::Total.head() {
        return Some(OtherText::Total);
    }
    if line == OtherText::Spread.head() {
        return Some(OtherText::Spread);
    }
    if line == OtherText::Change.head() {
        return Some(OtherText::Change);
    }
    None
}
