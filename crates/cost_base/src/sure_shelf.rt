//! A shelf in memory that never fails.

ghost use Rattle.std.specs.Prelude.{◌≡◌, ℕ, List, [], ◌^◌, ◌<◌, Option, Some};
ghost use Rattle.cost_base.specs.Outside.{IsReadUpTo, CountsFaults};
ghost use Rattle.cost_base.specs.Histories.{HasGiven, came_of};
ghost use Rattle.cost_base.specs.HistoryLaws.{given_none, given_more, given_surely};
ghost use Rattle.cost_base.specs.Files.{first_file, or_empty, sure_file};

use crate::content::{copy_within, find_first};
use crate::{Name, Shelf, ShelfStop};

/// A shelf over files in memory that never fails. A missing name is an empty file.
///
/// The first file of a name counts. The shelf tells its bytes.
#[derive(Drop)]
pub struct SureShelf {
    files: Vec<(Name, Name)>,
}

impl SureShelf {
    /// A shelf that has these files, each a name and its bytes. Every count of faults is 0, now and later.
    pub fn new(files: Vec<(Name, Name)>) -> SureShelf
        ensures held { (name : List ℕ) → ⟦<SureShelf as Shelf>⟧.held result name ≡
            Some (or_empty (first_file files.items name)) }
        ensures faults { (name : List ℕ) → ⟦<SureShelf as Shelf>⟧.faults result name ≡ 0 }
    {
        SureShelf { files }
    }
}

impl Shelf for SureShelf {
    ghost held = { λ shelf name. sure_file shelf.files.items name };

    ghost faults = { λ shelf name. 0 };

    ghost gave = { λ before now came.
        HasGiven (sure_file before.files.items) (sure_file now.files.items) [] [] came };

    fn take(&mut self, name: &str, most: usize, into: &mut Vec<u8>) -> Result<(), ShelfStop> {
        let bytes = find_first(self.files.as_slice(), name.as_bytes()).unwrap_or(&[]);
        copy_within(bytes, most, into)
    }

    ghost gave_none = { λ a. given_none (sure_file a.files.items) [] };

    ghost gave_more = { λ a b c first later.
        given_more (sure_file a.files.items) (sure_file b.files.items) (sure_file c.files.items)
        [] [] [] first later };

    ghost gave_held = { λ a b came given. given.held };

    ghost gave_told = { λ a b came given. given.told };

    ghost gave_counted = { λ a b came given.
        given_surely (sure_file a.files.items) (sure_file b.files.items) came given };
}
