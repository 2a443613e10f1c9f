//! A line, word by word.
ghost use Rattle.std.specs.Prelude.{◌≡◌, ℕ, List, [], ◌∷◌, ◌++◌, map, IfOk, OnOk};
ghost use Rattle.std.specs.List.{join_with_byte};
ghost use Rattle.cost_base.specs.Decimal.{decimal};
ghost use Rattle.text_lines.specs.Lines.{with_ends};
ghost use Rattle.line_builder.specs.Words.{dotted_quad, with_words};

use crate::texts::{push_line, push_quad};
use cost_base::OutOfMemory;
use std::alloc::Global;
use std::marker::Model;
use text_lines::{push_bytes, push_number};

/// A line without its LF: words with one space between each two. Each of its calls that adds words fails with
/// `OutOfMemory` alone.
///
/// Contracts see the list of its bytes.
#[derive(Drop)]
pub struct LineBuilder {
    bytes: Vec<u8>,
}

impl Model for LineBuilder {
    ghost Value = { List ℕ };

    ghost view = { λ line. line.bytes.items };
}

impl LineBuilder {
    /// The line of this word. It may be several words, with a space between each two.
    ///
    /// # Errors
    ///
    /// `OutOfMemory`.
    pub fn new(alloc: Global, word: &[u8]) -> Result<LineBuilder, OutOfMemory>
        ensures { IfOk result (λ line. line ≡ word.now) }
    {
        let bytes = Vec::from_slice(alloc, word)?;
        Ok(LineBuilder { bytes })
    }

    /// The line of a word and numbers.
    ///
    /// # Errors
    ///
    /// `OutOfMemory`.
    pub fn of_numbers(
        alloc: Global,
        word: &[u8],
        numbers: &[u32],
    ) -> Result<LineBuilder, OutOfMemory>
        ensures { IfOk result
            (λ line. line ≡ join_with_byte 32 (word.now ∷ map decimal numbers.now)) }
    {
        let mut line = LineBuilder::new(alloc, word)?;
        line.numbers(numbers)?;
        Ok(line)
    }

    /// The line of a word, a count and numbers.
    ///
    /// # Errors
    ///
    /// `OutOfMemory`.
    pub fn of_count(
        alloc: Global,
        word: &[u8],
        count: u64,
        numbers: &[u32],
    ) -> Result<LineBuilder, OutOfMemory>
        ensures { IfOk result
            (λ line. line ≡
            join_with_byte 32 (word.now ∷ decimal count ∷ map decimal numbers.now)) }
    {
        let mut line = LineBuilder::new(alloc, word)?;
        line.number(u128::from(count))?;
        line.numbers(numbers)?;
        Ok(line)
    }

    /// Adds a word behind a space.
    ///
    /// # Errors
    ///
    /// `OutOfMemory`.
    pub fn word(&mut self, word: &[u8]) -> Result<(), OutOfMemory>
        ensures { OnOk result (self.new ≡ self.old ++ 32 ∷ word.now) }
    {
        push_bytes(&mut self.bytes, b" ")?;
        push_bytes(&mut self.bytes, word)
    }

    /// Adds a number behind a space.
    ///
    /// # Errors
    ///
    /// `OutOfMemory`.
    pub fn number(&mut self, number: u128) -> Result<(), OutOfMemory>
        ensures { OnOk result (self.new ≡ self.old ++ 32 ∷ decimal number) }
    {
        push_bytes(&mut self.bytes, b" ")?;
        push_number(&mut self.bytes, number)
    }

    /// Adds an address or a router ID as a dotted quad behind a space.
    ///
    /// # Errors
    ///
    /// `OutOfMemory`.
    pub fn quad(&mut self, address: u32) -> Result<(), OutOfMemory>
        ensures { OnOk result (self.new ≡ self.old ++ 32 ∷ dotted_quad address) }
    {
        push_bytes(&mut self.bytes, b" ")?;
        push_quad(&mut self.bytes, address)
    }

    /// Adds numbers, each behind a space.
    ///
    /// # Errors
    ///
    /// `OutOfMemory`.
    pub fn numbers(&mut self, numbers: &[u32]) -> Result<(), OutOfMemory>
        ensures { OnOk result (self.new ≡ with_words self.old (map decimal numbers.now)) }
    {
        for number in numbers {
            self.number(u128::from(*number))?;
        }
        Ok(())
    }

    /// Adds counts, or places in a list, each behind a space.
    ///
    /// # Errors
    ///
    /// `OutOfMemory`.
    pub fn counts(&mut self, counts: &[u64]) -> Result<(), OutOfMemory>
        ensures { OnOk result (self.new ≡ with_words self.old (map decimal counts.now)) }
    {
        for count in counts {
            self.number(u128::from(*count))?;
        }
        Ok(())
    }

    /// The bytes of the line.
    pub fn as_bytes(&self) -> &[u8]
        ensures { result.now ≡ self.now }
    {
        self.bytes.as_slice()
    }

    /// Ends the line: its bytes and an LF.
    ///
    /// # Errors
    ///
    /// `OutOfMemory`.
    pub fn ended(self) -> Result<Vec<u8>, OutOfMemory>
        ensures { IfOk result (λ bytes. bytes.items ≡ self ++ 10 ∷ []) }
    {
        let mut bytes = self.bytes;
        push_bytes(&mut bytes, b"\n")?;
        Ok(bytes)
    }

    /// Ends the line in a text: adds it there with its LF.
    ///
    /// # Errors
    ///
    /// `OutOfMemory`.
    pub fn end_in(&self, text: &mut Vec<u8>) -> Result<(), OutOfMemory>
        ensures { OnOk result (text.new.items ≡ text.old.items ++ with_ends (self.now ∷ [])) }
    {
        push_line(text, self.as_bytes())
    }
}
