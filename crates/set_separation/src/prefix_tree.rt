//! The tree of the common prefixes of several paths.
ghost use Rattle.std.specs.Prelude.{◌≡◌, ℕ, ◌+◌, ◌<◌, ◌≤◌, ◌++◌, List, [], ◌∷◌, Contains, IfOk, MatchOption, OnOk, length};
ghost use Rattle.set_separation.specs.PrefixTrees.{HasStep, IsPlaceAfter, IsGrown, IsPrefixStep};
ghost use Rattle.set_separation.specs.declared.prefix_tree.Step.{Step as OneStep};

use cost_base::OutOfMemory;
use indexmap::IndexSet;
use std::alloc::Global;
use std::marker::Model;

/// A step of a tree of prefixes: from a place by an edge.
#[derive(Clone, Copy, PartialEq, Eq, Hash)]
pub struct Step {
    /// The place from which it leads.
    pub place: usize,
    /// The edge by which it leads.
    pub edge: u32,
}

/// The tree of the common prefixes of several paths with one start. Its places are numbered in the order in which they
/// were made: place 0 is the empty prefix, and step i leads to place i + 1, whose prefix is one edge longer. So a place
/// that several paths have is there once. Contracts see the list of the steps.
#[derive(Drop)]
pub struct PrefixTree {
    steps: IndexSet<Step>,
}

impl Model for PrefixTree {
    ghost use Rattle.std.specs.Prelude.{List};
    ghost use Rattle.set_separation.specs.declared.prefix_tree.Step.{Step as OneStep};

    ghost Value = { List OneStep };

    ghost view = { λ t. t.steps.keys };
}

impl PrefixTree {
    /// The tree of no path: the empty prefix alone. It takes no memory yet.
    pub fn new(alloc: Global) -> PrefixTree
        ensures { result ≡ [] }
    {
        PrefixTree {
            steps: IndexSet::new(alloc),
        }
    }

    /// The steps, in order. Each leads from a place that was there before it.
    pub fn steps(&self) -> &[Step]
        ensures { result.now ≡ self.now }
    {
        self.steps.as_slice()
    }

    /// The place that the step from a place by an edge leads to.
    pub fn next(&self, place: usize, edge: u32) -> Option<usize>
        ensures { MatchOption result (HasStep self.now place edge → ⊥)
            (λ next. (i : ℕ) × IsPrefixStep self.now place edge i × (next ≡ i + 1)) }
    {
        // For the prover: that a step's number plus 1 fits a `usize` is known once the number of steps is read.
        let _few = self.steps.len();
        match self.steps.get_index_of(&Step { place, edge }) {
            Some(index) => Some(index + 1),
            None => None,
        }
    }

    /// Makes a step that isn't there, and gives its place.
    fn grow(&mut self, place: usize, edge: u32) -> Result<usize, OutOfMemory>
        requires { HasStep self.old place edge → ⊥ }
        ensures { IfOk result
            (λ next. (self.new ≡ self.old ++ record { place = place; edge = edge } ∷ []) ×
            (next ≡ length self.old + 1)) }
    {
        self.steps.insert(Step { place, edge })?;
        Ok(self.steps.as_slice().len())
    }

    /// The place that the step from a place by an edge leads to; the step is made where it isn't there.
    fn go(&mut self, place: usize, edge: u32) -> Result<usize, OutOfMemory>
        ensures { IfOk result (IsPlaceAfter self.old self.new place edge) }
    {
        match self.next(place, edge) {
            Some(next) => Ok(next),
            None => self.grow(place, edge),
        }
    }

    /// Adds the prefixes of a path. It takes time in proportion to the path's edges.
    ///
    /// # Errors
    ///
    /// `OutOfMemory`. Then the tree may have some of the path's prefixes.
    pub fn insert(&mut self, edges: &[u32]) -> Result<(), OutOfMemory>
        ensures { OnOk result ((wanted done : List (List ℕ)) → Contains wanted edges.now →
            IsGrown wanted done self.old → IsGrown wanted (done ++ edges.now ∷ []) self.new) }
    {
        let mut place = 0;
        for edge in edges {
            place = self.go(place, *edge)?;
        }
        Ok(())
    }
}
