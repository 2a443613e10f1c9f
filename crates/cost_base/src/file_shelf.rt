//! The files of the machine.

ghost use Rattle.std.specs.Prelude.{◌≡◌, ℕ, List, [], ◌∷◌, ◌^◌, ◌<◌, OnOk, IsErrOf, Option, None, refl};
ghost use Rattle.cost_base.specs.Outside.{IsFile, IsLonger, LeavesWithin, IsReadUpTo, CountsFaults};
ghost use Rattle.cost_base.specs.Histories.{HasGiven, came_of};
ghost use Rattle.cost_base.specs.HistoryLaws.{given_none, given_more, given_counts, same_after};
ghost use Rattle.cost_base.specs.Files.{count_of_name};

use crate::failed_calls::FailedCalls;
use crate::{Shelf, ShelfStop};
use std::alloc::Global;
use std::fs;
use std::io::{ErrorKind, Read};
use std::rt::Files;

/// A shelf over the files of a runtime, whose names are paths. It tells nothing of content.
#[derive(Drop)]
pub struct FileShelf<R> {
    files: R,
    failed: FailedCalls,
}

impl<R: Files> FileShelf<R> {
    /// A shelf over these files, a runtime or a reference to one. Every count of faults is 0.
    pub fn new(alloc: Global, files: R) -> FileShelf<R>
        ensures files { result.files ≡ files }
        ensures faults { (name : List ℕ) → ⟦<FileShelf<R> as Shelf>⟧.faults result name ≡ 0 }
    {
        FileShelf {
            files,
            failed: FailedCalls::new(alloc),
        }
    }
}

impl<R: Files> Shelf for FileShelf<R> {
    ghost held = { λ shelf name. None };

    ghost faults = { λ shelf name. count_of_name shelf.failed.names.items name };

    ghost gave = { λ before now came. (now.files ≡ before.files) ×
        HasGiven (λ name. None) (λ name. None) before.failed.names.items
        now.failed.names.items came };

    #[tactic(auto, using(crate::proofs::FaultCounts::noted))]
    fn take(&mut self, name: &str, most: usize, into: &mut Vec<u8>) -> Result<(), ShelfStop>
        // A file of at most so many bytes is read, or the first bytes of a longer one.
        requires empty { into.old.items ≡ [] }
        requires most { most < 2 ^ 31 }
        ensures read { OnOk result ((file : R.File) × IsFile (R.File.remaining file)
            into.new.items) }
        ensures too_long { IsErrOf result ShelfStop.TooLong → (file : R.File) ×
            IsLonger (R.File.remaining file) most }
        ensures within { LeavesWithin most result into.new.items }

        // A failure is counted under the file's name, and the history has what came.
        ensures faults { CountsFaults (count_of_name self.old.failed.names.items)
            (count_of_name self.new.failed.names.items) name.now result }
        ensures gave { (self.new.files ≡ self.old.files) × HasGiven (λ other. None) (λ other. None)
            self.old.failed.names.items self.new.failed.names.items
            (record { name = name.now; most = most; came = came_of result into.new.items } ∷ []) }
    {
        let Ok(copy) = self.failed.make_room(name.as_bytes()) else {
            return Err(ShelfStop::OutOfMemory);
        };
        match read_file(&self.files, name, most, into) {
            Err(ShelfStop::Failed) => {
                self.failed.note(copy);
                Err(ShelfStop::Failed)
            }
            result => result,
        }
    }

    ghost gave_none = { λ a. (refl, given_none (λ name. None) a.failed.names.items) };

    ghost gave_more = { λ a b c first later one two. (
      same_after a.files b.files c.files one.0 two.0,
      given_more (λ name. None) (λ name. None) (λ name. None)
          a.failed.names.items b.failed.names.items c.failed.names.items first later one.1 two.1,
    ) };

    ghost gave_held = { λ a b came given. given.1.held };

    ghost gave_told = { λ a b came given. given.1.told };

    ghost gave_counted = { λ a b came given. given_counts (λ name. None) (λ name. None)
        a.failed.names.items b.failed.names.items came given.1 };
}

/// Reads the file at a path, or the first `most + 1` bytes of it where it has more than `most`.
fn read_file<R: Files>(
    files: &R,
    path: &str,
    most: usize,
    into: &mut Vec<u8>,
) -> Result<(), ShelfStop>
    requires empty { into.old.items ≡ [] }
    requires most { most < 2 ^ 31 }
    ensures read { OnOk result ((file : R.File) × IsFile (R.File.remaining file) into.new.items) }
    ensures too_long { IsErrOf result ShelfStop.TooLong → (file : R.File) ×
        IsLonger (R.File.remaining file) most }
    ensures within { LeavesWithin most result into.new.items }
{
    match fs::open(files, path) {
        Ok(mut file) => read_within(&mut file, most, into),
        Err(_) => Err(ShelfStop::Failed),
    }
}

/// Reads to the end, or the first `most + 1` bytes where there are more than `most`.
fn read_within<F: Read>(reader: &mut F, most: usize, into: &mut Vec<u8>) -> Result<(), ShelfStop>
    requires empty { into.old.items ≡ [] }
    requires most { most < 2 ^ 31 }
    ensures read { IsReadUpTo (F.remaining reader.old) most result into.new.items }
{
    let mut buffer = [0u8; 8192];
    for _ in 0..u64::MAX {
        let room = (most + 1 - into.len()).min(buffer.len());
        match reader.read(&mut buffer[..room]) {
            Ok(0) => return Ok(()),
            Ok(count) => {
                if into.extend_from_slice(&buffer[..count]).is_err() {
                    return Err(ShelfStop::OutOfMemory);
                }
                if into.len() > most {
                    return Err(ShelfStop::TooLong);
                }
            }
            Err(error) if error.kind() == ErrorKind::Interrupted => {}
            Err(_) => return Err(ShelfStop::Failed),
        }
    }
    Err(ShelfStop::Failed)
}
