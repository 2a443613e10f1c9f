//! A shelf in memory that fails where it is told to.

ghost use Rattle.std.specs.Prelude.{◌≡◌, ◌⊎◌, ℕ, List, [], ◌∷◌, ◌+◌, ◌^◌, ◌<◌, min, ◌-◌, IfSome, Some, None};
ghost use Rattle.cost_base.specs.Outside.{IsReadUpTo, CountsFaults};
ghost use Rattle.cost_base.specs.Histories.{HasGiven, came_of};
ghost use Rattle.cost_base.specs.HistoryLaws.{given_none, given_more, given_counts};
ghost use Rattle.cost_base.specs.Files.{first_file, count_of_name};
ghost use Rattle.cost_base.specs.Fakes.{IsListed, FailsWhere, IsNextCall};

use crate::content::{copy_within, find_first};
use crate::failed_calls::FailedCalls;
use crate::{Name, Shelf, ShelfStop};

/// A shelf over files in memory, for tests. It fails at the calls whose numbers it was given, and where a
/// name is missing.
///
/// Calls are numbered from 0. The first file of a name counts. The shelf tells its bytes.
#[derive(Drop)]
pub struct MemoryShelf {
    files: Vec<(Name, Name)>,
    fail: Vec<u64>,
    calls: u64,
    failed: FailedCalls,
}

impl MemoryShelf {
    /// A shelf that has these files, each a name and its bytes, and fails at the calls with the numbers in `fail`.
    ///
    /// No call has been made, so every count of faults is 0.
    pub fn new(files: Vec<(Name, Name)>, fail: Vec<u64>) -> MemoryShelf
        ensures held { (name : List ℕ) → ⟦<MemoryShelf as Shelf>⟧.held result name ≡
            first_file files.items name }
        ensures faults { (name : List ℕ) → ⟦<MemoryShelf as Shelf>⟧.faults result name ≡ 0 }
        ensures fail { result.fail.items ≡ fail.items }
        ensures calls { result.calls ≡ 0 }
    {
        let failed = FailedCalls::new(*fail.allocator());
        MemoryShelf {
            files,
            fail,
            calls: 0,
            failed,
        }
    }

    /// The number of the call that begins now.
    fn begin_call(&mut self) -> u64
        ensures number { result ≡ self.old.calls }
        ensures next { self.new.calls ≡ min (self.old.calls + 1) (2 ^ 64 - 1) }
        ensures files { self.new.files ≡ self.old.files }
        ensures fail { self.new.fail ≡ self.old.fail }
        ensures failed { self.new.failed ≡ self.old.failed }
    {
        let call = self.calls;
        self.calls = call.saturating_add(1);
        call
    }

    /// The bytes that a call hands out, or None where the call is to fail or the name is missing.
    fn content(&self, call: u64, name: &[u8]) -> Option<&[u8]>
        ensures none { result ≡ None → IsListed self.now.fail.items call ⊎
            (first_file self.now.files.items name.now ≡ None) }
        ensures some { IfSome result (λ bytes. (IsListed self.now.fail.items call → ⊥) ×
            (first_file self.now.files.items name.now ≡ Some bytes.now)) }
    {
        if self.fail.contains(&call) {
            return None;
        }
        find_first(self.files.as_slice(), name)
    }
}

impl Shelf for MemoryShelf {
    ghost held = { λ shelf name. first_file shelf.files.items name };

    ghost faults = { λ shelf name. count_of_name shelf.failed.names.items name };

    ghost gave = { λ before now came.
        HasGiven (first_file before.files.items) (first_file now.files.items)
        before.failed.names.items now.failed.names.items came };

    #[tactic(auto, using(crate::proofs::FaultCounts::noted))]
    fn take(&mut self, name: &str, most: usize, into: &mut Vec<u8>) -> Result<(), ShelfStop>
        // A file of at most so many bytes is read, or the first bytes of a longer one.
        requires empty { into.old.items ≡ [] }
        requires most { most < 2 ^ 31 }
        ensures read { IsReadUpTo (first_file self.old.files.items name.now) most result
            into.new.items }

        // It fails where it was told to, or where the name is missing, and counts that.
        ensures fails { FailsWhere (IsListed self.old.fail.items self.old.calls ⊎
            (first_file self.old.files.items name.now ≡ None)) result }
        ensures faults { CountsFaults (count_of_name self.old.failed.names.items)
            (count_of_name self.new.failed.names.items) name.now result }

        // The call is counted, and the history has what came.
        ensures next { IsNextCall self.old self.new }
        ensures gave { HasGiven (first_file self.old.files.items) (first_file self.new.files.items)
            self.old.failed.names.items self.new.failed.names.items
            (record { name = name.now; most = most; came = came_of result into.new.items } ∷ []) }
    {
        let call = self.begin_call();
        let Ok(copy) = self.failed.make_room(name.as_bytes()) else {
            return Err(ShelfStop::OutOfMemory);
        };
        match self.content(call, name.as_bytes()) {
            Some(bytes) => copy_within(bytes, most, into),
            None => {
                self.failed.note(copy);
                Err(ShelfStop::Failed)
            }
        }
    }

    ghost gave_none = { λ a. given_none (first_file a.files.items) a.failed.names.items };

    ghost gave_more = { λ a b c first later.
        given_more (first_file a.files.items) (first_file b.files.items) (first_file c.files.items)
        a.failed.names.items b.failed.names.items c.failed.names.items first later };

    ghost gave_held = { λ a b came given. given.held };

    ghost gave_told = { λ a b came given. given.told };

    ghost gave_counted = { λ a b came given.
        given_counts (first_file a.files.items) (first_file b.files.items)
        a.failed.names.items b.failed.names.items came given };
}
