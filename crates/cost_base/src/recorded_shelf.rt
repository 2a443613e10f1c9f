//! A shelf that records what another one hands out.

ghost use Rattle.std.specs.Prelude.{◌≡◌, [], ◌∷◌, IfOk, false};
ghost use Rattle.cost_base.specs.Histories.{Taken, came_of};
ghost use Rattle.cost_base.specs.Outside.{GotAll};
ghost use Rattle.cost_base.specs.Records.{IsNoted, unless_lacking};
ghost use Rattle.cost_base.specs.RecordLaws.{noted_none, noted_more};

use crate::{Name, OutOfMemory, Shelf, ShelfStop};
use std::alloc::Global;
use std::marker::Model;

/// A file that was asked for, up to so many bytes, and what came of it.
#[derive(Drop)]
struct TakenFile {
    name: Name,
    most: usize,
    came: Result<Name, ShelfStop>,
}

impl Model for TakenFile {
    ghost Value = { Taken };

    ghost view = { λ file. record { name = file.name; most = file.most; came = file.came } };
}

impl TakenFile {
    /// What came of a call of `take` that answered this and read these bytes.
    fn of_call(
        alloc: Global,
        name: &str,
        most: usize,
        answer: &Result<(), ShelfStop>,
        read: &[u8],
    ) -> Result<TakenFile, OutOfMemory>
        ensures { IfOk result (λ file. file ≡ record {
          name = name.now;
          most = most;
          came = came_of answer.now read.now;
        }) }
    {
        let came = match answer {
            Ok(()) => Ok(Name::from_bytes(alloc, read)?),
            Err(stop) => Err(*stop),
        };
        let name = Name::from_bytes(alloc, name.as_bytes())?;
        Ok(TakenFile { name, most, came })
    }
}

/// A shelf that answers as the one in it does, and records what came of each file that it was asked for.
///
/// The record keeps all bytes. Where it got no memory for a file it tells nothing from then on.
#[derive(Drop)]
pub struct RecordedShelf<S> {
    shelf: S,
    files: Vec<TakenFile>,
    lacking: bool,
}

impl<S: Shelf> RecordedShelf<S> {
    /// A shelf with an empty record, over this one.
    pub fn new(alloc: Global, shelf: S) -> RecordedShelf<S>
        ensures shelf { result.shelf ≡ shelf }
        ensures files { result.files.items ≡ [] }
        ensures lacking { result.lacking ≡ false }
    {
        RecordedShelf {
            shelf,
            files: Vec::new(alloc),
            lacking: false,
        }
    }

    /// Whether memory for the record was wanting, so that it tells nothing.
    pub fn is_lacking(&self) -> bool
        ensures { result ≡ self.now.lacking }
    {
        self.lacking
    }

    /// Puts what came of a call of `take` at the end of the record, where memory suffices.
    #[tactic(auto, using(crate::proofs::RecordSteps::grew_one))]
    fn note(&mut self, name: &str, most: usize, answer: &Result<(), ShelfStop>, read: &[u8])
        ensures shelf { self.new.shelf ≡ self.old.shelf }
        ensures noted { GotAll
            (unless_lacking self.old.lacking self.old.files.items)
            (unless_lacking self.new.lacking self.new.files.items)
            (record { name = name.now; most = most; came = came_of answer.now read.now } ∷ []) }
    {
        match TakenFile::of_call(*self.files.allocator(), name, most, answer, read) {
            Ok(file) => {
                if self.files.push(file).is_err() {
                    self.lacking = true;
                }
            }
            Err(OutOfMemory) => self.lacking = true,
        }
    }
}

impl<S: Shelf> Shelf for RecordedShelf<S> {
    ghost held = { λ shelf name. S.held shelf.shelf name };

    ghost faults = { λ shelf name. S.faults shelf.shelf name };

    ghost gave = { λ before now came. IsNoted (S.gave before.shelf now.shelf)
        (unless_lacking before.lacking before.files.items)
        (unless_lacking now.lacking now.files.items) came };

    fn take(&mut self, name: &str, most: usize, into: &mut Vec<u8>) -> Result<(), ShelfStop> {
        let answer = self.shelf.take(name, most, into);
        self.note(name, most, &answer, into.as_slice());
        answer
    }

    ghost gave_none = { λ a. noted_none (S.gave a.shelf a.shelf)
        (unless_lacking a.lacking a.files.items) (S.gave_none a.shelf) };

    ghost gave_more = { λ a b c first later.
        noted_more (S.gave a.shelf b.shelf) (S.gave b.shelf c.shelf) (S.gave a.shelf c.shelf)
        (unless_lacking a.lacking a.files.items) (unless_lacking b.lacking b.files.items)
        (unless_lacking c.lacking c.files.items) first later
        (S.gave_more a.shelf b.shelf c.shelf first later) };

    ghost gave_held = { λ a b came noted. S.gave_held a.shelf b.shelf came noted.given };

    ghost gave_told = { λ a b came noted. S.gave_told a.shelf b.shelf came noted.given };

    ghost gave_counted = { λ a b came noted. S.gave_counted a.shelf b.shelf came noted.given };
}
