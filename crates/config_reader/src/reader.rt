//! One pass over the lines of a configuration.
ghost use Rattle.std.specs.Prelude.{◌≡◌, ◌-◌, ◌^◌, ◌<◌, None, [], length, IfOk, OnOk};
ghost use Rattle.text_lines.specs.Lines.{lines, words};
ghost use Rattle.config_reader.specs.Statements.{OfOther};
ghost use Rattle.config_reader.specs.Hearing as hearing;
ghost use Rattle.config_reader.specs.Parts.{IsParts};
ghost use Rattle.config_reader.specs.Spoken.{statement_of, block_spoken};

use crate::ConfigFault;
use crate::statements::{Block, Statement, begins, block_of, head_statement, statement_in, word};
use cost_base::OutOfMemory;
use std::alloc::Global;
use std::marker::Model;
use text_lines::{LineKind, Lines, kind_of};

/// The longest line of a configuration, in bytes.
const LONGEST_LINE: usize = 4096;

/// A line that sets something, with its number and the block that it stands in.
#[derive(Clone, Copy)]
pub(crate) struct Said<'a> {
    pub number: u32,
    pub block: Block<'a>,
    pub statement: Statement<'a>,
}

/// A head that names an interface or the router.
#[derive(Clone, Copy)]
pub(crate) struct NamedHead<'a> {
    pub name: &'a [u8],
    pub line: u32,
}

/// A fault and its line.
#[derive(Clone, Copy)]
pub(crate) struct LineFault {
    pub line: u32,
    pub fault: ConfigFault,
}

/// What is kept of the lines: what they set, the heads of interfaces, the last `hostname` head, the first line that is
/// faulty by itself, and the block that is open.
#[derive(Drop)]
pub(crate) struct Reader<'a> {
    said: Vec<Said<'a>>,
    heads: Vec<NamedHead<'a>>,
    hostname: Option<NamedHead<'a>>,
    fault: Option<LineFault>,
    block: Block<'a>,
}

impl<'a> Model for Reader<'a> {
    ghost use Rattle.std.specs.Prelude.{map};
    ghost use Rattle.std.specs.Option.{option_map};
    ghost use Rattle.config_reader.specs.Hearing.{Heard};
    ghost use Rattle.config_reader.specs.Heards.{said_of, head_heard, fault_heard};
    ghost use Rattle.config_reader.specs.Spoken.{block_spoken};

    ghost Value = { Heard };

    ghost view = { λ r. record {
      said = map said_of r.said.items;
      heads = map head_heard r.heads.items;
      hostname = option_map head_heard r.hostname;
      fault = option_map fault_heard r.fault;
      block = block_spoken r.block;
    } };
}

impl<'a> Reader<'a> {
    /// No line was read.
    fn new(alloc: Global) -> Reader<'a>
        ensures { result ≡ record {
          said = [];
          heads = [];
          hostname = None;
          fault = None;
          block = OfOther;
        } }
    {
        Reader {
            said: Vec::new(alloc),
            heads: Vec::new(alloc),
            hostname: None,
            fault: None,
            block: Block::Other,
        }
    }

    /// Goes over a line that isn't too long.
    fn hear(&mut self, text: &'a [u8], number: u32) -> Result<(), OutOfMemory>
        ensures { OnOk result (self.new ≡ hearing.hear self.old number text.now) }
    {
        match kind_of(text) {
            LineKind::Blank | LineKind::Comment => Ok(()),
            LineKind::Head => self.hear_head(text, number),
            LineKind::Indented => {
                let block = self.block;
                self.hear_statement(number, block, statement_in(block, text))
            }
        }
    }

    /// Goes over a head.
    fn hear_head(&mut self, text: &'a [u8], number: u32) -> Result<(), OutOfMemory>
        ensures { OnOk result (self.new ≡ hearing.hear_head self.old number (words text.now)) }
    {
        let block = block_of(text);
        if let Block::Interface(name) = block {
            self.heads.push(NamedHead { name, line: number })?;
        }
        if begins(text, b"hostname") {
            self.hostname = Some(NamedHead {
                name: word(text, 1),
                line: number,
            });
        }
        self.block = block;
        self.hear_statement(number, Block::Other, head_statement(text))
    }

    /// Keeps what a line says.
    fn hear_statement(
        &mut self,
        number: u32,
        block: Block<'a>,
        statement: Statement<'a>,
    ) -> Result<(), OutOfMemory>
        ensures { OnOk result (self.new ≡ hearing.hear_statement self.old number
            (block_spoken block.entry) (statement_of statement.entry)) }
    {
        match statement {
            Statement::Unread => {}
            Statement::Refused(fault) => self.refuse(number, fault),
            _ => self.said.push(Said {
                number,
                block,
                statement,
            })?,
        }
        Ok(())
    }

    /// Keeps a fault, where no line before has one.
    fn refuse(&mut self, line: u32, fault: ConfigFault)
        ensures { self.new ≡ hearing.with_fault self.old line fault }
    {
        if self.fault.is_none() {
            self.fault = Some(LineFault { line, fault });
        }
    }
}

/// What is kept of a whole configuration.
#[derive(Drop)]
pub(crate) struct Parts<'a> {
    pub said: Vec<Said<'a>>,
    pub heads: Vec<NamedHead<'a>>,
    pub hostname: Option<NamedHead<'a>>,
    pub fault: Option<LineFault>,
}

/// Goes over the lines of a configuration.
pub(crate) fn read_parts(alloc: Global, bytes: &[u8]) -> Result<Parts<'_>, OutOfMemory>
    requires { length bytes.now < 2 ^ 32 - 1 }
    ensures { IfOk result (IsParts (hearing.heard (lines bytes.now))) }
{
    let reader = read_lines(alloc, bytes)?;
    Ok(Parts {
        said: reader.said,
        heads: reader.heads,
        hostname: reader.hostname,
        fault: reader.fault,
    })
}

/// Goes over the lines of a configuration.
fn read_lines(alloc: Global, bytes: &[u8]) -> Result<Reader<'_>, OutOfMemory>
    requires { length bytes.now < 2 ^ 32 - 1 }
    ensures { IfOk result (λ r. r ≡ hearing.heard (lines bytes.now)) }
{
    let mut lines = Lines::new(bytes, LONGEST_LINE);
    let mut reader = Reader::new(alloc);
    while let Some(line) = lines.next_line() {
        match line {
            Ok(line) => reader.hear(line.text, line.number)?,
            Err(long) => reader.refuse(long.number, ConfigFault::LongLine),
        }
    }
    Ok(reader)
}
