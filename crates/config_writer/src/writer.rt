//! Writing a configuration line by line.
ghost use Rattle.std.specs.Prelude.{◌≡◌, ◌∷◌, ◌++◌, [], false, OnOk, IfOk};
ghost use Rattle.text_lines.specs.Lines.{words};
ghost use Rattle.text_lines.specs.Reading.{line_end};
ghost use Rattle.config_reader.specs.Statements.{block_of};
ghost use Rattle.config_reader.specs.Sections.{section_cost_line};
ghost use Rattle.config_writer.specs.Writing.{OpensHead, GoesOverLine, put_for};

use crate::config_lines::{interface_opened, sets_cost};
use crate::new_costs::NewCosts;
use cost_base::OutOfMemory;
use line_builder::{LineBuilder, push_line};
use std::alloc::Global;
use text_lines::{LineKind, Names, kind_of, push_bytes};

/// What was written for the lines so far, the heads that were met, and whether the open block is of an interface that
/// has a new cost.
#[derive(Drop)]
pub(crate) struct Writer<'a> {
    pub costs: NewCosts<'a>,
    pub heads: Names<'a>,
    pub in_named_block: bool,
    pub out: Vec<u8>,
}

impl<'a> Writer<'a> {
    /// No line was gone over.
    pub(crate) fn new(alloc: Global, costs: NewCosts<'a>) -> Writer<'a>
        ensures costs { result.costs ≡ costs.entry }
        ensures heads { result.heads ≡ [] }
        ensures named { result.in_named_block ≡ false }
        ensures out { result.out.items ≡ [] }
    {
        Writer {
            costs,
            heads: Names::new(alloc),
            in_named_block: false,
            out: Vec::new(alloc),
        }
    }

    /// Goes over a line, which ended with an LF or not.
    pub(crate) fn write_line(
        &mut self,
        alloc: Global,
        text: &'a [u8],
        ended: bool,
    ) -> Result<(), OutOfMemory>
        ensures { OnOk result (GoesOverLine self.old self.new text.now ended) }
    {
        match kind_of(text) {
            LineKind::Head => {
                let cost = self.open(text)?;
                put_head(alloc, &mut self.out, text, ended, cost)
            }
            LineKind::Indented if self.in_named_block && sets_cost(text) => Ok(()),
            _ => put_line(&mut self.out, text, ended),
        }
    }

    /// Opens the block of a head. Tells the new cost where this is the first head of a named interface.
    fn open(&mut self, head: &'a [u8]) -> Result<Option<u16>, OutOfMemory>
        ensures { IfOk result (OpensHead self.old self.new (block_of (words head.now))) }
    {
        let Some(interface) = interface_opened(head) else {
            self.in_named_block = false;
            return Ok(None);
        };
        let cost = self.costs.cost(interface);
        self.in_named_block = cost.is_some();
        let first = self.heads.add(interface)?;
        Ok(if first { cost } else { None })
    }
}

/// Puts a head, and the new cost behind it, if any.
fn put_head(
    alloc: Global,
    out: &mut Vec<u8>,
    head: &[u8],
    ended: bool,
    cost: Option<u16>,
) -> Result<(), OutOfMemory>
    ensures { OnOk result (out.new.items ≡ out.old.items ++ put_for false cost head.now ended) }
{
    let Some(cost) = cost else {
        return put_line(out, head, ended);
    };
    push_line(out, head)?;
    put_cost_line(alloc, out, cost)
}

/// Puts a line, and an LF where it ended with one.
fn put_line(out: &mut Vec<u8>, text: &[u8], ended: bool) -> Result<(), OutOfMemory>
    ensures { OnOk result (out.new.items ≡ out.old.items ++ (text.now ++ line_end ended)) }
{
    if ended {
        push_line(out, text)
    } else {
        push_bytes(out, text)
    }
}

/// Puts the line ` ip ospf cost N`.
fn put_cost_line(alloc: Global, out: &mut Vec<u8>, cost: u16) -> Result<(), OutOfMemory>
    ensures { OnOk result (out.new.items ≡ out.old.items ++ (section_cost_line cost ++ 10 ∷ [])) }
{
    let line = LineBuilder::of_numbers(alloc, b" ip ospf cost", &[u32::from(cost)])?;
    line.end_in(out)
}
