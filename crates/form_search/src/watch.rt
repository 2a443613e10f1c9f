//! Which forms may still say something about the box at work.
ghost use Rattle.std.specs.Prelude.{◌≡◌, ℕ, ◌<◌, ◌≤◌, length, IfOk, IfSome};
ghost use Rattle.std.specs.BinaryHeap.{heap_len};
ghost use Rattle.design_problem.specs.OpenPlaces.{first_place};
ghost use Rattle.form_search.specs.NextEntries.{IsWatch};

use cost_base::{OutOfMemory, filled_by, push_last};
use design_problem::{CostBox, Entry, Form, TreeBuilder};
use std::alloc::Global;
use std::cmp::Reverse;
use std::collections::BinaryHeap;

/// The forms of a pool that may say something about the box at work. A form that was looked at without an entry leaves
/// them, and comes back where the range of one of its variables changes.
#[derive(Drop)]
pub(crate) struct Watch {
    /// For each variable the forms in which its coefficient isn't 0, in rising order.
    forms_of: Vec<Vec<usize>>,
    /// Whether each form may say something.
    pending: Vec<bool>,
    /// The forms that may, the first one on top.
    waiting: BinaryHeap<Reverse<usize>>,
    /// The forms whose entry was barred at the box.
    barred: Vec<usize>,
    /// The ranges as they were when they were compared last.
    low: Vec<u16>,
    high: Vec<u16>,
    /// How many entries of the tree were looked at.
    looked: usize,
    /// The ranges that these changed on the way to the box at work, the last one at the end.
    changed: Vec<Changed>,
}

/// A variable whose range an entry changed, and whether that was a cut, of which a second part waits.
#[derive(Clone, Copy)]
struct Changed {
    var: u32,
    is_cut: bool,
}

/// Puts a form's number into the list of a variable.
fn note(lists: &mut Vec<Vec<usize>>, var: usize, row: usize) -> Result<(), OutOfMemory>
    ensures { length lists.new.items ≡ length lists.old.items }
{
    if var < lists.len() {
        push_last(&mut lists[var], row)
    } else {
        Ok(())
    }
}

/// Makes a form one that may say something.
fn wake(
    pending: &mut Vec<bool>,
    waiting: &mut BinaryHeap<Reverse<usize>>,
    row: usize,
) -> Result<(), OutOfMemory> {
    // For the prover: each form's number is in range, which no clause says here.
    if let Some(pending) = pending.get_mut(row) {
        if !*pending {
            waiting.push(Reverse(row))?;
            *pending = true;
        }
    }
    Ok(())
}

/// Makes forms such.
fn wake_all(
    pending: &mut Vec<bool>,
    waiting: &mut BinaryHeap<Reverse<usize>>,
    rows: &[usize],
) -> Result<(), OutOfMemory> {
    for row in rows {
        wake(pending, waiting, *row)?;
    }
    Ok(())
}

impl Watch {
    /// The watch over a box, without a form.
    pub(crate) fn start(alloc: Global, costs: &CostBox) -> Result<Watch, OutOfMemory>
        requires { length costs.now.high ≡ length costs.now.low }
        ensures { IfOk result (IsWatch (length costs.now.low)) }
    {
        let low = costs.low.as_slice().to_vec(alloc)?;
        let high = costs.high.as_slice().to_vec(alloc)?;
        let forms_of = filled_by(alloc, costs.low.as_slice().len(), || Vec::new(alloc))?;
        Ok(Watch {
            forms_of,
            pending: Vec::new(alloc),
            waiting: BinaryHeap::new(alloc),
            barred: Vec::new(alloc),
            low,
            high,
            looked: 0,
            changed: Vec::new(alloc),
        })
    }

    /// Takes the forms in that came into the pool since.
    pub(crate) fn learn(&mut self, forms: &[Form]) -> Result<(), OutOfMemory>
        ensures { (n : ℕ) → IsWatch n self.old → IsWatch n self.new }
    {
        for row in self.pending.len()..forms.len() {
            self.learn_form(&forms[row], row)?;
        }
        Ok(())
    }

    /// Takes a term of a form in.
    fn learn_term(&mut self, var: u32, row: usize) -> Result<(), OutOfMemory>
        ensures { (n : ℕ) → IsWatch n self.old → IsWatch n self.new }
    {
        note(&mut self.forms_of, var as usize, row)
    }

    /// Takes one form in.
    fn learn_form(&mut self, form: &Form, row: usize) -> Result<(), OutOfMemory>
        ensures { (n : ℕ) → IsWatch n self.old → IsWatch n self.new }
    {
        for term in form.terms() {
            self.learn_term(term.var, row)?;
        }
        push_last(&mut self.pending, false)?;
        wake(&mut self.pending, &mut self.waiting, row)
    }

    /// Makes the forms of a variable such as may say something.
    fn wake_forms_of(&mut self, var: usize) -> Result<(), OutOfMemory>
        ensures watch { (n : ℕ) → IsWatch n self.old → IsWatch n self.new }
        ensures changed { self.new.changed ≡ self.old.changed }
    {
        match self.forms_of.get(var) {
            Some(forms) => wake_all(&mut self.pending, &mut self.waiting, forms.as_slice()),
            None => Ok(()),
        }
    }

    /// Compares the range of a variable, and wakes its forms where it changed.
    fn look_at(&mut self, costs: &CostBox, var: usize) -> Result<(), OutOfMemory>
        requires high { length costs.now.high ≡ length costs.now.low }
        requires watch { IsWatch (length costs.now.low) self.old }
        ensures watch { IsWatch (length costs.now.low) self.new }
        ensures changed { self.new.changed ≡ self.old.changed }
    {
        let low = costs.low.as_slice();
        let high = costs.high.as_slice();
        if var >= low.len() {
            return Ok(());
        }
        if low[var] == self.low.as_slice()[var] && high[var] == self.high.as_slice()[var] {
            return Ok(());
        }
        self.low[var] = low[var];
        self.high[var] = high[var];
        self.wake_forms_of(var)
    }

    /// Looks at the range that an entry changed.
    fn look_on(&mut self, costs: &CostBox, var: u32, is_cut: bool) -> Result<(), OutOfMemory>
        requires high { length costs.now.high ≡ length costs.now.low }
        requires watch { IsWatch (length costs.now.low) self.old }
        ensures { IsWatch (length costs.now.low) self.new }
    {
        push_last(&mut self.changed, Changed { var, is_cut })?;
        self.look_at(costs, var as usize)
    }

    /// Looks at the ranges that changed where an entry ended a box: those that were changed since the last cut are as
    /// they were at it, and the second part of the cut comes next.
    fn look_back(&mut self, costs: &CostBox) -> Result<(), OutOfMemory>
        requires high { length costs.now.high ≡ length costs.now.low }
        requires watch { IsWatch (length costs.now.low) self.old }
        ensures { IsWatch (length costs.now.low) self.new }
    {
        while let Some(last) = self.changed.pop() {
            if last.is_cut {
                return self.look_on(costs, last.var, false);
            }
            self.look_at(costs, last.var as usize)?;
        }
        Ok(())
    }

    /// Looks at the ranges that changed at one entry.
    fn look_after(&mut self, costs: &CostBox, entry: &Entry) -> Result<(), OutOfMemory>
        requires high { length costs.now.high ≡ length costs.now.low }
        requires watch { IsWatch (length costs.now.low) self.old }
        ensures { IsWatch (length costs.now.low) self.new }
    {
        match entry {
            Entry::Tighten { var, .. } => self.look_on(costs, *var, false),
            Entry::Split { var, .. } => self.look_on(costs, *var, true),
            Entry::Halve { var, .. } => self.look_on(costs, *var, true),
            Entry::Refute { .. } | Entry::Undone => self.look_back(costs),
        }
    }

    /// Compares the ranges that may have changed with those of the open box, and wakes the forms of each variable whose
    /// range did: an entry that leaves the box or a part of it changes one range, and one that ends it those that were
    /// changed since the last cut. Each entry of the tree is looked at once.
    pub(crate) fn look(&mut self, tree: &TreeBuilder) -> Result<(), OutOfMemory>
        requires open { 0 < length tree.now.places }
        requires high { length (first_place tree.now.places).box.high ≡
            length (first_place tree.now.places).box.low }
        requires watch { IsWatch (length (first_place tree.now.places).box.low) self.old }
        ensures { IsWatch (length (first_place tree.now.places).box.low) self.new }
    {
        let costs = tree.costs();
        let entries = tree.entries();
        for place in self.looked..entries.len() {
            self.look_after(costs, &entries[place])?;
        }
        self.looked = entries.len();
        Ok(())
    }

    /// Wakes the forms whose entry was barred: nothing bars them at a new box.
    pub(crate) fn release(&mut self) -> Result<(), OutOfMemory>
        ensures { (n : ℕ) → IsWatch n self.old → IsWatch n self.new }
    {
        while let Some(row) = self.barred.pop() {
            wake(&mut self.pending, &mut self.waiting, row)?;
        }
        Ok(())
    }

    /// The first form that may say something: it is looked at, and leaves them.
    pub(crate) fn next(&mut self) -> Option<usize>
        ensures watch { (n : ℕ) → IsWatch n self.old → IsWatch n self.new }
        ensures fewer { IfSome result (λ row. heap_len self.new.waiting <
            heap_len self.old.waiting) }
    {
        match self.waiting.pop() {
            Some(Reverse(row)) => {
                // For the prover: the number of a form that waits is in range, which no clause says here.
                if let Some(pending) = self.pending.get_mut(row) {
                    *pending = false;
                }
                Some(row)
            }
            None => None,
        }
    }

    /// The form that was looked at had an entry, so it may have more.
    pub(crate) fn keep(&mut self, row: usize) -> Result<(), OutOfMemory>
        ensures { (n : ℕ) → IsWatch n self.old → IsWatch n self.new }
    {
        wake(&mut self.pending, &mut self.waiting, row)
    }

    /// The entry of the form that was looked at was barred.
    pub(crate) fn bar(&mut self, row: usize) -> Result<(), OutOfMemory>
        ensures watch { (n : ℕ) → IsWatch n self.old → IsWatch n self.new }
        ensures waiting { self.new.waiting ≡ self.old.waiting }
    {
        push_last(&mut self.barred, row)
    }

    /// How many forms that were taken in have a coefficient other than 0 for the variable.
    pub(crate) fn forms_with(&self, var: u32) -> usize {
        match self.forms_of.get(var as usize) {
            Some(forms) => forms.len(),
            None => 0,
        }
    }
}
