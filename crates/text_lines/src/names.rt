//! Names in the order in which they came first.
ghost use Rattle.std.specs.Prelude.{◌≡◌, ◌∷◌, ◌++◌, [], not, position, is_some, if◌then◌else◌, IfOk, OnErr};
ghost use Rattle.std.specs.List.{list_any};
ghost use Rattle.cost_base.specs.Lists.{same_bytes};

use cost_base::OutOfMemory;
use indexmap::IndexSet;
use std::alloc::Global;
use std::marker::Model;

/// Names, each once, in the order in which they came first. Contracts see the list of them.
#[derive(Drop)]
pub struct Names<'a> {
    names: IndexSet<&'a [u8]>,
}

impl<'a> Model for Names<'a> {
    ghost use Rattle.std.specs.Prelude.{ℕ, List, map};

    ghost Value = { List (List ℕ) };

    ghost view = { λ n. map (λ name. name.now) n.names.keys };
}

impl<'a> Names<'a> {
    /// No name.
    pub fn new(alloc: Global) -> Names<'a>
        ensures { result ≡ [] }
    {
        Names {
            names: IndexSet::new(alloc),
        }
    }

    /// Adds a name, unless it is there; tells whether it is new. The names stay as they were where there is no memory.
    ///
    /// # Errors
    ///
    /// `OutOfMemory`.
    pub fn add(&mut self, name: &'a [u8]) -> Result<bool, OutOfMemory>
        ensures new { IfOk result (λ new. new ≡ not (list_any (same_bytes name.now) self.old)) }
        ensures kept { OnErr result (self.new ≡ self.old) }
        ensures names { IfOk result
            (λ new. self.new ≡ (if list_any (same_bytes name.now) self.old then self.old
            else self.old ++ name.now ∷ [])) }
    {
        let (_, new) = self.names.insert_full(name)?;
        Ok(new)
    }

    /// The place of a name.
    pub fn place(&self, name: &'a [u8]) -> Option<usize>
        ensures place { result ≡ position (same_bytes name.now) self.now }
        ensures found { is_some result ≡ list_any (same_bytes name.now) self.now }
    {
        self.names.get_index_of(name)
    }
}
