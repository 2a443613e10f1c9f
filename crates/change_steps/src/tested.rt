//! The states that a search tested.
ghost use Rattle.std.specs.Prelude.{◌≡◌, ◌++◌, ◌∷◌, ◌↔◌, [], Contains, IsTrue, OnErr, OnOk, length};

use cost_base::OutOfMemory;
use indexmap::IndexSet;
use std::alloc::Global;
use std::marker::Model;

/// States that were tested, each as a mark for each step that is done in it. Contracts see them in the order of their
/// tests.
#[derive(Drop)]
pub(crate) struct Tested {
    states: IndexSet<Vec<bool>>,
}

impl Model for Tested {
    ghost use Rattle.std.specs.Prelude.{Bool, List, map};

    ghost Value = { List (List Bool) };

    ghost view = { λ t. map (λ s. s.items) t.states.keys };
}

impl Tested {
    /// None was tested. It takes no memory yet.
    pub fn new(alloc: Global) -> Tested
        ensures { result ≡ [] }
    {
        Tested {
            states: IndexSet::new(alloc),
        }
    }

    /// How many were tested.
    pub fn len(&self) -> usize
        ensures { result ≡ length self.now }
    {
        self.states.len()
    }

    /// Whether a state was tested.
    pub fn has(&self, marks: &[bool]) -> bool
        ensures { IsTrue result ↔ Contains self.now marks.now }
    {
        self.states.contains(marks)
    }

    /// Adds a state that wasn't tested.
    ///
    /// # Errors
    ///
    /// `OutOfMemory`. Then the states are as before.
    pub fn add(&mut self, alloc: Global, marks: &[bool]) -> Result<(), OutOfMemory>
        requires { Contains self.old marks.now → ⊥ }
        ensures added { OnOk result (self.new ≡ self.old ++ marks.now ∷ []) }
        ensures same { OnErr result (self.new ≡ self.old) }
    {
        let marks = Vec::from_slice(alloc, marks)?;
        self.states.insert(marks)?;
        Ok(())
    }
}
