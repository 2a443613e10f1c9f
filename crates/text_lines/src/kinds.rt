//! The kinds of lines.
ghost use Rattle.std.specs.Prelude.{◌≡◌};
ghost use Rattle.text_lines.specs.Lines as definition;

use crate::LineKind;
use crate::word_reader::first_word;

/// Whether a line begins with a space or a tab.
pub fn starts_with_blank(line: &[u8]) -> bool
    ensures { result ≡ definition.starts_with_blank line.now }
{
    match line {
        [first, ..] => *first == b' ' || *first == b'\t',
        [] => false,
    }
}

/// Whether a word begins a comment: its first byte is `!` or `#`.
pub fn is_comment_word(word: &[u8]) -> bool
    ensures { result ≡ definition.starts_comment word.now }
{
    match word {
        [first, ..] => *first == b'!' || *first == b'#',
        [] => false,
    }
}

/// The kind of a line.
pub fn kind_of(line: &[u8]) -> LineKind
    ensures { result ≡ definition.kind_of line.now }
{
    match first_word(line) {
        None => LineKind::Blank,
        Some((word, _)) if is_comment_word(word) => LineKind::Comment,
        Some(_) if starts_with_blank(line) => LineKind::Indented,
        Some(_) => LineKind::Head,
    }
}
