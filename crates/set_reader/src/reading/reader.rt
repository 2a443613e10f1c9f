//! What the statements of a file of sets say together.
ghost use Rattle.std.specs.Prelude.{◌≡◌, ◌≤◌, [], None, length, IfOk, IfErr, OnOk};
ghost use Rattle.text_lines.specs.LineFaults.{TellsFault, fault_in_line};
ghost use Rattle.set_reader.specs.SpreadSets.{AreSetsOf};
ghost use Rattle.set_reader.specs.Reading.{set_fault_said};
ghost use Rattle.set_reader.specs.ReadingSteps.{HasSeveral, TakesStatement};
ghost use Rattle.set_reader.specs.declared.reading.statement.Statement.TheVariants.{Numbers as NumbersSaid};

use crate::reading::line::statement_of;
use crate::reading::members::{mark_members, read_members};
use crate::reading::statement::Statement;
use crate::{SetFault, Sets};
use cost_base::{Listed, OutOfMemory, Refusal, no_marks};
use design_problem::Problem;
use std::alloc::Global;
use std::marker::Model;
use text_lines::StatementReader;

/// What the statements that were taken say together: the sets. `taken` marks the requests that stand in a set.
#[derive(Drop)]
pub(crate) struct Reader<'a> {
    problem: &'a Problem,
    sets: Vec<Listed<u32>>,
    taken: Vec<bool>,
}

impl<'a> Model for Reader<'a> {
    ghost use Rattle.set_reader.specs.ReadingSteps.{SoFar, KeepsSets};

    ghost Value = { SoFar };

    ghost view = { λ r. record { problem = r.problem.now; sets = r.sets.items } };

    ghost invariant = { λ r. KeepsSets r.problem.now r.sets.items r.taken.items };
}

impl<'a> Reader<'a> {
    /// A reader that took nothing yet.
    pub(crate) fn new(alloc: Global, problem: &'a Problem) -> Result<Reader<'a>, OutOfMemory>
        ensures { IfOk result (λ reader. reader ≡ record { problem = problem.now; sets = [] }) }
    {
        let taken = no_marks(alloc, problem.requests.as_slice().len())?;
        Ok(Reader {
            problem,
            sets: Vec::new(alloc),
            taken,
        })
    }

    /// Takes what the line of this number says, unless that is a fault behind what was said before.
    fn take_said(
        &mut self,
        alloc: Global,
        line: u32,
        said: Statement,
    ) -> Result<(), Refusal<SetFault>>
        requires { HasSeveral said }
        ensures taken { OnOk result (set_fault_said self.old.problem.requests self.old.sets said ≡
            None) }
        ensures told { OnOk result (TakesStatement self.old said self.new) }
        ensures refused { IfErr result
            (TellsFault
            (fault_in_line line (set_fault_said self.old.problem.requests self.old.sets said))) }
    {
        match said {
            Statement::Numbers(numbers) => self.take_set(alloc, line, numbers.as_slice()),
            Statement::Off => Err(Refusal::at(line, SetFault::BadSetLine)),
        }
    }

    /// Takes the set of a line, unless its numbers are no set behind the earlier ones.
    fn take_set(
        &mut self,
        alloc: Global,
        line: u32,
        numbers: &[u64],
    ) -> Result<(), Refusal<SetFault>>
        requires several { 2 ≤ length numbers.now }
        ensures taken { OnOk result (set_fault_said self.old.problem.requests self.old.sets
            (NumbersSaid numbers.now) ≡ None) }
        ensures told { OnOk result (TakesStatement self.old (NumbersSaid numbers.now) self.new) }
        ensures refused { IfErr result
            (TellsFault (fault_in_line line (set_fault_said self.old.problem.requests self.old.sets
            (NumbersSaid numbers.now)))) }
    {
        let problem = self.problem;
        let requests = problem.requests.as_slice();
        let members = read_members(alloc, requests, self.taken.as_slice(), line, numbers)?;
        let set = Listed::from_items(members);
        if self.sets.reserve(1).is_err() {
            return Err(Refusal::OutOfMemory);
        }
        mark_members(&mut self.taken, set.as_slice());
        self.sets.push_reserved(set);
        Ok(())
    }

    /// The sets.
    pub(crate) fn into_sets(self) -> Sets
        ensures same { result ≡ self.entry.sets }
        ensures lawful { AreSetsOf self.entry.problem result }
    {
        Sets::from_items(self.sets)
    }
}

impl<'a> StatementReader<SetFault> for Reader<'a> {
    ghost use Rattle.set_reader.specs.Reading.{set_rules};
    ghost use Rattle.set_reader.specs.ReadingSteps.{HasTaken};

    ghost fault_of = { λ r. (set_rules r.problem.requests).fault_of };

    ghost took = { HasTaken };

    fn take(
        &mut self,
        alloc: Global,
        line: u32,
        word: &[u8],
        rest: &[u8],
    ) -> Result<(), Refusal<SetFault>> {
        let said = statement_of(alloc, word, rest)?;
        self.take_said(alloc, line, said)
    }
}
