//! The names of the calls that failed.

ghost use Rattle.std.specs.Prelude.{◌≡◌, ◌∷◌, [], ◌++◌, ◌<◌, IfOk, OnOk, vec_len, vec_capacity};

use crate::{Name, OutOfMemory};
use std::alloc::Global;

/// The names of the files whose `take` failed, one for each such call. How often a name stands here is its
/// count of faults.
#[derive(Drop)]
pub(crate) struct FailedCalls {
    names: Vec<Name>,
}

impl FailedCalls {
    /// No call has failed. Later growth is asked of this allocator.
    pub(crate) fn new(alloc: Global) -> FailedCalls
        ensures { result.names.items ≡ [] }
    {
        FailedCalls {
            names: Vec::new(alloc),
        }
    }

    /// Makes room for one more name, and copies this name for it.
    pub(crate) fn make_room(&mut self, name: &[u8]) -> Result<Name, OutOfMemory>
        ensures copy { IfOk result (λ copy. copy ≡ name.now) }
        ensures room { OnOk result (vec_len self.new.names < vec_capacity self.new.names) }
        ensures same { self.new.names.items ≡ self.old.names.items }
    {
        if self.names.reserve(1).is_err() {
            return Err(OutOfMemory);
        }
        Name::from_bytes(*self.names.allocator(), name)
    }

    /// Adds a name, for which there is room.
    pub(crate) fn note(&mut self, name: Name)
        requires { vec_len self.old.names < vec_capacity self.old.names }
        ensures { self.new.names.items ≡ self.old.names.items ++ name ∷ [] }
    {
        let _ = self.names.push(name);
    }
}
