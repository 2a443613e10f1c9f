//! A line that is gathered, and then put in one piece.
ghost use Rattle.std.specs.Prelude.{◌≡◌, ℕ, ◌+◌, ◌<◌, ◌≤◌, List, [], ◌∷◌, ◌++◌, length, take};
ghost use Rattle.cost_base.specs.Decimal.{decimal};
ghost use Rattle.design_problem.specs.Text.{integer};
ghost use Rattle.text_lines.specs.Lines.{with_ends};
ghost use Rattle.evidence_text.specs.Lines.{IsPieceHanded};

use cost_base::{PutFailed, Sink};
use std::marker::Model;
use text_lines::number_bytes;

/// Room for the longest line, of 65,536 bytes, and its LF.
const ROOM: usize = 65_537;

/// A line without its LF, in a fixed array that has room for the longest line and the LF.
///
/// Contracts see the list of the bytes that were gathered.
#[derive(Drop)]
pub(crate) struct LineBuffer {
    bytes: [u8; ROOM],
    count: usize,
}

impl Model for LineBuffer {
    ghost Value = { List ℕ };

    ghost view = { λ b. take b.count b.bytes };

    ghost invariant = { λ b. b.count ≤ 65536 };
}

impl LineBuffer {
    /// An empty line.
    pub(crate) fn new() -> LineBuffer
        ensures { result ≡ [] }
    {
        LineBuffer {
            bytes: [0; ROOM],
            count: 0,
        }
    }

    /// Takes another line up, which begins with this word.
    pub(crate) fn start(&mut self, word: &[u8])
        requires { length word.now ≤ 65536 }
        ensures { self.new ≡ word.now }
    {
        self.clear();
        self.push_bytes(word);
    }

    /// Puts one space and a word behind the line.
    pub(crate) fn push_word(&mut self, word: &[u8])
        requires { length (self.old ++ 32 ∷ word.now) ≤ 65536 }
        ensures { self.new ≡ self.old ++ 32 ∷ word.now }
    {
        self.push(b' ');
        self.push_bytes(word);
    }

    /// Puts one space and a number behind the line.
    pub(crate) fn push_number(&mut self, value: u128)
        requires { length (self.old ++ 32 ∷ decimal value) ≤ 65536 }
        ensures { self.new ≡ self.old ++ 32 ∷ decimal value }
    {
        self.push(b' ');
        self.push_digits(value);
    }

    /// Puts a number with its sign, if it is below 0, behind the line.
    pub(crate) fn push_integer(&mut self, value: i128)
        requires { length (self.old ++ integer value) ≤ 65536 }
        ensures { self.new ≡ self.old ++ integer value }
    {
        if value < 0 {
            self.push(b'-');
        }
        self.push_digits(value.unsigned_abs());
    }

    /// Puts a byte behind the line.
    pub(crate) fn push(&mut self, byte: u8)
        requires { length self.old < 65536 }
        ensures { self.new ≡ self.old ++ byte ∷ [] }
    {
        self.bytes[self.count] = byte;
        self.count += 1;
    }

    /// Puts the line with its LF into the sink, in one piece.
    pub(crate) fn put<K: Sink>(&mut self, out: &mut K) -> Result<(), PutFailed>
        ensures { IsPieceHanded (K.got out.old) (K.got out.new) (K.faults out.old)
            (K.faults out.new) (with_ends (self.old ∷ [])) result }
    {
        self.bytes[self.count] = b'\n';
        out.put(&self.bytes[..self.count + 1])
    }

    fn clear(&mut self)
        ensures { self.new ≡ [] }
    {
        self.count = 0;
    }

    fn push_bytes(&mut self, piece: &[u8])
        requires { length (self.old ++ piece.now) ≤ 65536 }
        ensures { self.new ≡ self.old ++ piece.now }
    {
        for byte in piece {
            self.push(*byte);
        }
    }

    fn push_digits(&mut self, value: u128)
        requires { length (self.old ++ decimal value) ≤ 65536 }
        ensures { self.new ≡ self.old ++ decimal value }
    {
        let mut room = [0; 40];
        let count = number_bytes(value, &mut room);
        self.push_bytes(&room[..count]);
    }
}
