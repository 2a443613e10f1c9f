//! Which variables were tightened at which side since the last cut.
ghost use Rattle.std.specs.Prelude.{◌≡◌, ℕ, ◌+◌, ◌<◌, ◌≤◌, ◌↔◌, ◌++◌, [], ◌∷◌, List, length, replicate, Contains, IfOk, IsTrue};
ghost use Rattle.design_problem.specs.declared.tree.Entry.{Entry};
ghost use Rattle.design_problem.specs.declared.tree.Entry.TheVariants.{Tighten};
ghost use Rattle.design_problem.specs.Builders.{KeepsMarks, last_run, run_of};

use crate::Side;
use cost_base::OutOfMemory;
use std::alloc::Global;

/// For each variable and side the number of entries after its last Tighten, 0 where there is none; and the number of
/// entries after the last one that isn't a Tighten. So all marks are cleared by one write.
#[derive(Drop)]
pub(crate) struct Marks {
    pub begun: usize,
    pub low: Vec<usize>,
    pub high: Vec<usize>,
}

impl Marks {
    /// The marks of so many variables, none of which was tightened.
    pub(crate) fn start(alloc: Global, variables: usize) -> Result<Marks, OutOfMemory>
        ensures { IfOk result (λ marks. KeepsMarks variables [] marks) }
    {
        Ok(Marks {
            begun: 0,
            low: vec![in alloc; 0usize; variables]?,
            high: vec![in alloc; 0usize; variables]?,
        })
    }

    /// Whether the variable was tightened at the side.
    pub(crate) fn is_marked(&self, var: usize, side: Side) -> bool
        requires known { var < length self.now.low.items }
        requires high { var < length self.now.high.items }
        ensures { (n : ℕ) (entries : List Entry) → KeepsMarks n entries self.now →
            IsTrue result ↔ Contains (run_of entries) (var, side) }
    {
        match side {
            Side::Low => self.begun < self.low[var],
            Side::High => self.begun < self.high[var],
        }
    }

    /// Marks the variable at the side, where a Tighten of it is the last of so many entries.
    pub(crate) fn mark(&mut self, var: usize, side: Side, count: usize)
        requires low { var < length self.old.low.items }
        requires high { var < length self.old.high.items }
        ensures { (n : ℕ) (entries : List Entry) (value row : ℕ) → KeepsMarks n entries self.old →
            count ≡ length entries + 1 → KeepsMarks n (entries ++ Tighten var side value row ∷ [])
            self.new }
    {
        match side {
            Side::Low => self.low[var] = count,
            Side::High => self.high[var] = count,
        }
    }

    /// Clears all marks, where another entry is the last of so many.
    pub(crate) fn clear(&mut self, count: usize)
        ensures { (n : ℕ) (entries : List Entry) (entry : Entry) → KeepsMarks n entries self.old →
            count ≡ length entries + 1 → last_run (entry ∷ []) ≡ [] →
            KeepsMarks n (entries ++ entry ∷ []) self.new }
    {
        self.begun = count;
    }
}
