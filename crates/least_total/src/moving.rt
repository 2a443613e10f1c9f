//! The form of the total is moved behind the forms of the rows.
ghost use Rattle.std.specs.Prelude.{◌≡◌, ◌+◌, ◌<◌, ◌≤◌, ◌++◌, map, All, IfOk, OnOk};
ghost use Rattle.design_problem.specs.Renumbering.{renumbered_multiplier};
ghost use Rattle.printed_rows.specs.NamedRows.{NamesBelow};
ghost use Rattle.least_total.specs.Moving.{AreMovedNumbers, moved_entry, moved_number, picked, put_last};

use cost_base::{OutOfMemory, push_if};
use design_problem::{Entry, Multipliers, Tree};
use printed_rows::renumbered_entry;
use std::alloc::Global;

/// The form at a place is moved behind the others.
#[derive(Clone, Copy)]
pub(crate) struct Move {
    /// The number of the form that is moved.
    pub(crate) place: u64,
    /// How many other forms there are.
    pub(crate) others: u64,
}

impl Move {
    /// The new number of a form.
    fn number(self, row: u64) -> u64
        requires { row < self.others + 1 }
        ensures { result ≡ moved_number self.place self.others row }
    {
        if row < self.place {
            row
        } else if row == self.place {
            self.others
        } else {
            row - 1
        }
    }

    /// Puts those parts behind others that are of the moved form, or those that aren't, each with the new number
    /// of its form.
    fn push_parts(
        self,
        pairs: &mut Vec<(u64, u128)>,
        parts: &[(u64, u128)],
        own: bool,
    ) -> Result<(), OutOfMemory>
        requires { All (λ part. part.0 < self.others + 1) parts.now }
        ensures { OnOk result (pairs.new.items ≡ pairs.old.items ++
            map (renumbered_multiplier (moved_number self.place self.others))
            (picked own self.place parts.now)) }
    {
        for (row, multiplier) in parts {
            let moved = (self.number(*row), *multiplier);
            push_if(pairs, moved, (*row == self.place) == own)?;
        }
        Ok(())
    }

    /// The parts of a Refute with the new numbers of their forms, in rising order.
    fn parts(self, alloc: Global, parts: &Multipliers) -> Result<Multipliers, OutOfMemory>
        requires place { self.place ≤ self.others }
        requires known { All (λ part. part.0 < self.others + 1) parts.now }
        ensures { IfOk result
            (λ new. new ≡ map (renumbered_multiplier (moved_number self.place self.others))
            (put_last self.place parts.now)) }
    {
        let mut pairs = Vec::new(alloc);
        self.push_parts(&mut pairs, parts.as_slice(), false)?;
        self.push_parts(&mut pairs, parts.as_slice(), true)?;
        Ok(Multipliers::from_items(pairs))
    }

    /// The new numbers of all forms.
    fn numbers(self, alloc: Global) -> Result<Vec<u64>, OutOfMemory>
        ensures { IfOk result (λ numbers. AreMovedNumbers self.place self.others numbers.items) }
    {
        let mut numbers = Vec::new(alloc);
        for row in 0..self.others {
            numbers.push(self.number(row))?;
        }
        numbers.push(self.number(self.others))?;
        Ok(numbers)
    }

    /// The entry with the new numbers of its forms.
    fn entry(self, alloc: Global, entry: &Entry, numbers: &[u64]) -> Result<Entry, OutOfMemory>
        requires place { self.place ≤ self.others }
        requires numbers { AreMovedNumbers self.place self.others numbers.now }
        requires known { NamesBelow (self.others + 1) entry.now }
        ensures { IfOk result (λ new. new ≡ moved_entry self.place self.others entry.now) }
    {
        match entry {
            Entry::Refute { parts } => Ok(Entry::Refute {
                parts: self.parts(alloc, parts)?,
            }),
            Entry::Tighten { .. } | Entry::Split { .. } | Entry::Halve { .. } | Entry::Undone => {
                renumbered_entry(alloc, entry, numbers)
            }
        }
    }

    /// The entries with the new numbers of their forms.
    fn entries(
        self,
        alloc: Global,
        entries: &[Entry],
        numbers: &[u64],
    ) -> Result<Vec<Entry>, OutOfMemory>
        requires place { self.place ≤ self.others }
        requires numbers { AreMovedNumbers self.place self.others numbers.now }
        requires known { All (NamesBelow (self.others + 1)) entries.now }
        ensures { IfOk result (λ new. new.items ≡ map (moved_entry self.place self.others)
            entries.now) }
    {
        let mut new = Vec::new(alloc);
        for entry in entries {
            new.push(self.entry(alloc, entry, numbers)?)?;
        }
        Ok(new)
    }

    /// The tree with the new numbers of its forms.
    ///
    /// # Errors
    ///
    /// `OutOfMemory`.
    pub(crate) fn tree(self, alloc: Global, tree: &Tree) -> Result<Tree, OutOfMemory>
        requires place { self.place ≤ self.others }
        requires known { All (NamesBelow (self.others + 1)) tree.now }
        ensures { IfOk result (λ new. new ≡ map (moved_entry self.place self.others) tree.now) }
    {
        let numbers = self.numbers(alloc)?;
        let entries = self.entries(alloc, tree.as_slice(), numbers.as_slice())?;
        Ok(Tree::from_items(entries))
    }
}
