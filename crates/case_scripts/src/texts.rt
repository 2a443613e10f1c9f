//! Texts that the lines of a script make.
ghost use Rattle.std.specs.Prelude.{◌≡◌, ◌==◌, ◌++◌, [], if◌then◌else◌, IfOk, OnErr, OnOk, option_copied, unwrap_or};
ghost use Rattle.std.specs.Option.{is_some, option_or};
ghost use Rattle.std.specs.List.{after_first, before_first};
ghost use Rattle.std.specs.Str.{bytes_eq};
ghost use Rattle.case_scripts.specs.Escapes.{bytes_of};
ghost use Rattle.case_scripts.specs.ScriptTexts.{after_line, begun, last_named, named, with_text_line, with_text};

use crate::bytes_of;
use std::alloc::{AllocError, Global};
use std::marker::Model;
use std::mem;

/// A text and its name.
#[derive(Drop)]
pub struct Text {
    pub name: String,
    pub bytes: Vec<u8>,
}

impl Model for Text {
    ghost use Rattle.std.specs.Prelude.{string_bytes};
    ghost use Rattle.case_scripts.specs.ScriptTexts.{NamedText};

    ghost Value = { NamedText };

    ghost view = { λ text. record { name = string_bytes text.name; bytes = text.bytes.items } };
}

/// The texts of a script. The last one is still being made.
#[derive(Drop)]
pub struct Texts {
    made: Vec<Text>,
    last: Text,
}

impl Model for Texts {
    ghost use Rattle.case_scripts.specs.ScriptTexts.{ScriptTexts};

    ghost Value = { ScriptTexts };

    ghost view = { λ texts. record { made = texts.made.items; last = texts.last } };
}

/// The bytes of a text, where it has the name; else what was found before it.
fn or_named<'a>(text: &'a Text, name: &str, found: Option<&'a [u8]>) -> Option<&'a [u8]>
    ensures { option_copied result ≡ option_or (if bytes_eq text.now.name name.now then
        Some text.now.bytes else None) (option_copied found.entry) }
{
    if text.name.as_str() == name {
        Some(text.bytes.as_slice())
    } else {
        found
    }
}

/// The bytes of the last of these texts that has the name.
fn last_named<'a>(made: &'a [Text], name: &str) -> Option<&'a [u8]>
    ensures { option_copied result ≡ last_named name.now made.now }
{
    let mut found = None;
    for text in made {
        found = or_named(text, name, found);
    }
    found
}

/// What stands before the first space of a line, and behind it.
fn first_and_rest(line: &str) -> (&str, &str)
    ensures first { result.0.now ≡ before_first (λ byte. byte == 32) line.now }
    ensures rest { result.1.now ≡ after_first (λ byte. byte == 32) line.now }
{
    match line.split_once(' ') {
        Some(parts) => parts,
        None => (line, ""),
    }
}

impl Texts {
    /// One empty text, without a name.
    pub fn new(alloc: Global) -> Texts
        ensures { result ≡ record { made = []; last = begun [] } }
    {
        Texts {
            made: Vec::new(alloc),
            last: Text {
                name: String::new(alloc),
                bytes: Vec::new(alloc),
            },
        }
    }

    /// The text that is being made.
    pub fn last(&self) -> &Text
        ensures { result.now ≡ self.now.last }
    {
        &self.last
    }

    /// The bytes of the last text of a name.
    #[tactic(auto, using(crate::proofs::LastNamed::last_named_more))]
    pub fn named(&self, name: &str) -> Option<&[u8]>
        ensures { option_copied result ≡ named name.now self.now }
    {
        let found = last_named(self.made.as_slice(), name);
        or_named(&self.last, name, found)
    }

    /// The text that is being made, with more bytes behind it.
    pub fn with(&self, alloc: Global, more: &str) -> Result<Vec<u8>, AllocError>
        ensures { IfOk result (λ bytes. bytes.items ≡ self.now.last.bytes ++ bytes_of more.now) }
    {
        let more = bytes_of(alloc, more)?;
        let mut bytes = self.last.bytes.as_slice().to_vec(alloc)?;
        bytes.extend_from_slice(more.as_slice())?;
        Ok(bytes)
    }

    /// Begins another text.
    fn begin(&mut self, alloc: Global, name: &str) -> Result<(), AllocError>
        ensures begun { OnOk result (self.new ≡ with_text name.now self.old) }
        ensures same { OnErr result (self.new ≡ self.old) }
    {
        let name = String::from_str(alloc, name)?;
        self.made.reserve(1)?;
        let bytes = Vec::new(alloc);
        self.made
            .push_reserved(mem::replace(&mut self.last, Text { name, bytes }));
        Ok(())
    }

    /// Adds a line to the text that is being made.
    fn add_line(&mut self, alloc: Global, line: &str) -> Result<(), AllocError>
        ensures added { OnOk result (self.new ≡ with_text_line line.now self.old) }
        ensures same { OnErr result (self.new ≡ self.old) }
    {
        let mut bytes = bytes_of(alloc, line)?;
        bytes.push(b'\n')?;
        self.last.bytes.extend_from_slice(bytes.as_slice())
    }

    /// Takes a line that makes texts: `text NAME` begins one, and `| LINE` adds a line to it. Whether it is such a line
    /// is the answer.
    pub fn takes(&mut self, alloc: Global, line: &str) -> Result<bool, AllocError>
        ensures answer { IfOk result (λ is_taken. is_taken ≡ is_some
            (after_line line.now self.old)) }
        ensures texts { OnOk result (self.new ≡ unwrap_or (after_line line.now self.old) self.old) }
        ensures same { OnErr result (self.new ≡ self.old) }
    {
        let (first, rest) = first_and_rest(line);
        match first {
            "text" => self.begin(alloc, rest)?,
            "|" => self.add_line(alloc, rest)?,
            _ => return Ok(false),
        }
        Ok(true)
    }
}
