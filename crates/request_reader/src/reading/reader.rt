//! What the statements of a request file say together.
ghost use Rattle.std.specs.Prelude.{◌≡◌, ◌+◌, ◌-◌, ◌^◌, ◌<◌, [], Some, None, true, false, IfOk, IfErr, OnOk, is_some};
ghost use Rattle.text_lines.specs.LineFaults.{TellsFault, fault_at, fault_in_line};
ghost use Rattle.request_reader.specs.Asked.{HasGoodBounds, is_path};
ghost use Rattle.request_reader.specs.Reading.{told_by, fault_said, asked_of};
ghost use Rattle.request_reader.specs.ReadingSteps.{told_with, KeepsRules};
ghost use Rattle.request_reader.specs.declared.fault.RequestFault.TheVariants.{BadRequestLine};
ghost use Rattle.request_reader.specs.declared.reading.statement.Statement.TheVariants.{Area as AreaSaid, DefaultCost as DefaultCostSaid, Ask as AskSaid};

use crate::reading::line::statement_of;
use crate::reading::statement::Statement;
use crate::{Directive, DirectiveLine, RequestFault, RequestFile};
use cost_base::{Listed, Refusal, push_last};
use std::alloc::Global;
use std::marker::Model;
use text_lines::StatementReader;

/// The greatest count of wanted paths.
const MOST_PATHS: u32 = 10_000;

/// What the statements that were taken say together: the area and the default cost so far, and what they ask for, of
/// which `paths` are paths.
#[derive(Drop)]
pub(crate) struct Reader {
    area: Option<u32>,
    default_cost: Option<u16>,
    paths: u32,
    items: Vec<DirectiveLine>,
}

impl Model for Reader {
    ghost use Rattle.request_reader.specs.Reading.{Told};
    ghost use Rattle.request_reader.specs.ReadingSteps.{KeepsTold};

    ghost Value = { Told };

    ghost view = { λ r. record {
      area = r.area;
      default_cost = r.default_cost;
      items = r.items.items;
    } };

    ghost invariant = { λ r. KeepsTold r.default_cost r.paths r.items.items };
}

impl Reader {
    /// A reader that took nothing yet. It takes no memory.
    pub(crate) fn new(alloc: Global) -> Reader
        ensures { result ≡ told_by [] }
    {
        Reader {
            area: None,
            default_cost: None,
            paths: 0,
            items: Vec::new(alloc),
        }
    }

    /// Takes what the line of this number says, unless that is a fault behind what was said before.
    fn take_said(&mut self, line: u32, said: Statement) -> Result<(), Refusal<RequestFault>>
        requires { KeepsRules said }
        ensures taken { OnOk result (fault_said self.old said ≡ None) }
        ensures told { OnOk result (self.new ≡ told_with self.old line said) }
        ensures refused { IfErr result
            (TellsFault (fault_in_line line (fault_said self.old said))) }
    {
        match said {
            Statement::Area(area) => self.take_area(line, area),
            Statement::DefaultCost(cost) => self.take_default_cost(line, cost),
            Statement::Ask(directive) => self.take_directive(line, directive),
            Statement::Refused(fault) => Err(Refusal::at(line, fault)),
        }
    }

    /// Takes the area of a line, unless it is the second.
    fn take_area(&mut self, line: u32, area: u32) -> Result<(), Refusal<RequestFault>>
        ensures taken { OnOk result (fault_said self.old (AreaSaid area) ≡ None) }
        ensures told { OnOk result (self.new ≡ told_with self.old line (AreaSaid area)) }
        ensures refused { IfErr result
            (TellsFault
            (fault_in_line line (fault_said self.old (AreaSaid area)))) }
    {
        if self.area.is_some() {
            return Err(Refusal::at(line, RequestFault::BadRequestLine));
        }
        self.area = Some(area);
        Ok(())
    }

    /// Takes the default cost of a line, unless it is the second.
    fn take_default_cost(&mut self, line: u32, cost: u16) -> Result<(), Refusal<RequestFault>>
        requires { 0 < cost }
        ensures taken { OnOk result (fault_said self.old (DefaultCostSaid cost) ≡ None) }
        ensures told { OnOk result (self.new ≡ told_with self.old line (DefaultCostSaid cost)) }
        ensures refused { IfErr result
            (TellsFault
            (fault_in_line line (fault_said self.old (DefaultCostSaid cost)))) }
    {
        if self.default_cost.is_some() {
            return Err(Refusal::at(line, RequestFault::BadRequestLine));
        }
        self.default_cost = Some(cost);
        Ok(())
    }

    /// Takes what a line asks for, unless it is a path too many.
    fn take_directive(&mut self, line: u32, what: Directive) -> Result<(), Refusal<RequestFault>>
        requires { HasGoodBounds what }
        ensures taken { OnOk result (fault_said self.old (AskSaid what) ≡ None) }
        ensures told { OnOk result (self.new ≡ told_with self.old line (AskSaid what)) }
        ensures refused { IfErr result
            (TellsFault (fault_in_line line (fault_said self.old (AskSaid what)))) }
    {
        let item = DirectiveLine { line, what };
        if is_path(&item) {
            return self.take_path(item);
        }
        push_last(&mut self.items, item)?;
        Ok(())
    }

    /// Takes a path, unless it is one too many.
    fn take_path(&mut self, path: DirectiveLine) -> Result<(), Refusal<RequestFault>>
        requires bounds { HasGoodBounds path.what }
        requires path { is_path path ≡ true }
        ensures taken { OnOk result (fault_said self.old (AskSaid path.what) ≡ None) }
        ensures told { OnOk result (self.new ≡ told_with self.old path.line (AskSaid path.what)) }
        ensures refused { IfErr result
            (TellsFault
            (fault_in_line path.line (fault_said self.old (AskSaid path.what)))) }
    {
        if self.paths >= MOST_PATHS {
            let line = path.line;
            // For the prover alone: a call drops the item, so that its parts' drops aren't written out.
            drop(path);
            return Err(Refusal::at(line, RequestFault::TooManyPaths));
        }
        push_last(&mut self.items, path)?;
        self.paths += 1;
        Ok(())
    }

    /// What the statements ask for. `lines` is how many lines there are.
    pub(crate) fn finish(self, lines: u32) -> Result<RequestFile, Refusal<RequestFault>>
        requires { lines < 2 ^ 32 - 1 }
        ensures made { IfOk result (λ r. (is_some self.area ≡ true) × (r ≡ asked_of self)) }
        ensures refused { IfErr result (λ refusal. (is_some self.area ≡ false) ×
            TellsFault (Some (fault_at (lines + 1) BadRequestLine)) refusal) }
    {
        match self.area {
            Some(area) => Ok(RequestFile {
                area,
                default_cost: self.default_cost,
                items: Listed::from_items(self.items),
            }),
            None => Err(Refusal::at(lines + 1, RequestFault::BadRequestLine)),
        }
    }
}

impl StatementReader<RequestFault> for Reader {
    ghost use Rattle.std.specs.Prelude.{◌≡◌};
    ghost use Rattle.request_reader.specs.Reading.{request_rules, told_by};

    ghost fault_of = { λ _. request_rules.fault_of };

    ghost took = { λ _ told before. told ≡ told_by before };

    fn take(
        &mut self,
        alloc: Global,
        line: u32,
        word: &[u8],
        rest: &[u8],
    ) -> Result<(), Refusal<RequestFault>> {
        let said = statement_of(alloc, word, rest)?;
        self.take_said(line, said)
    }
}

/// Whether an item wants a path.
fn is_path(item: &DirectiveLine) -> bool
    ensures { result ≡ is_path item.now }
{
    matches!(item.what, Directive::Path(_, _))
}
