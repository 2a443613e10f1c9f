//! What is left of an answer's text while it is read.
ghost use Rattle.std.specs.Prelude.{◌≡◌, ◌≢◌, ℕ, ◌+◌, ◌-◌, ◌^◌, ◌<◌, ◌≤◌, List, [], ◌∷◌, ◌++◌, MatchOption, IsTrue, true, false, length};
ghost use Rattle.text_lines.specs.Lines.{IsOneLine};
ghost use Rattle.answer_lines.specs.Places.{IsFirstInText, LacksFirst};

use text_lines::cut;

/// The greatest number of bytes of a line.
pub const LONGEST: usize = 65_536;

/// What is left of a text, and how many of its lines were read.
#[derive(Clone, Copy)]
pub struct TextLeft<'a> {
    /// The bytes that weren't read yet.
    pub left: &'a [u8],
    /// How many lines stand before them.
    pub read: u32,
    pub ghost few: { read + length left.now < 2 ^ 32 - 1 },
}

impl<'a> TextLeft<'a> {
    /// The whole text.
    pub fn new(bytes: &'a [u8]) -> TextLeft<'a>
        requires { length bytes.now < 2 ^ 32 - 1 }
        ensures left { result.left.now ≡ bytes.now }
        ensures read { result.read ≡ 0 }
    {
        TextLeft {
            left: bytes,
            read: 0,
        }
    }

    /// The next line, which ends with an LF and has at most 65,536 bytes, and the text behind it.
    pub fn line(self) -> Option<(&'a [u8], TextLeft<'a>)>
        ensures { MatchOption result (LacksFirst self.entry.left.now)
            (λ r. IsFirstInText self.entry.left.now r.0.now r.1.left.now ×
            (r.1.read ≡ self.entry.read + 1)) }
    {
        let (line, rest) = self.any_line()?;
        if line.len() > LONGEST {
            return None;
        }
        Some((line, rest))
    }

    /// The next line, which ends with an LF and has any number of bytes, and the text behind it.
    pub fn any_line(self) -> Option<(&'a [u8], TextLeft<'a>)>
        ensures { MatchOption result (IsOneLine self.entry.left.now)
            (λ r. (self.entry.left.now ≡ r.0.now ++ 10 ∷ r.1.left.now) × IsOneLine r.0.now ×
            (r.1.read ≡ self.entry.read + 1)) }
    {
        let (line, left) = cut(self.left, b'\n')?;
        Some((
            line,
            TextLeft {
                left,
                read: self.read + 1,
            },
        ))
    }

    /// The text behind this line, where it is the next.
    pub fn behind(self, wanted: &[u8]) -> Option<TextLeft<'a>>
        ensures { MatchOption result ((left : List ℕ) → IsFirstInText self.entry.left.now wanted.now
            left → ⊥) (λ r. IsFirstInText self.entry.left.now wanted.now r.left.now ×
            (r.read ≡ self.entry.read + 1)) }
    {
        let (line, rest) = self.line()?;
        if line == wanted { Some(rest) } else { None }
    }
}
