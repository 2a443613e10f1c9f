//! Reading a file of LSAs.
ghost use Rattle.std.specs.Prelude.{◌≡◌};
ghost use Rattle.input_files.specs.Readings.{Gave};
ghost use Rattle.input_files.specs.Stops.{IsReadAs};
ghost use Rattle.live_input.specs.LsaFiles.{lsas_read};

use crate::LONGEST_DATABASE;
use cost_base::Shelf;
use input_files::{Stop, read_file, said_or_stop};
use lsa_bytes::{LsaDatabase, read_lsas};
use std::alloc::Global;

/// The LSAs of a file.
///
/// # Errors
///
/// `Stop`: the file failed or is too long, or its LSAs have a fault, with its offset as the line; want of memory.
pub fn read_database<'a, S: Shelf>(
    alloc: Global,
    shelf: &mut S,
    name: &'a str,
) -> Result<LsaDatabase, Stop<'a>>
    ensures { Gave (S.gave shelf.old shelf.new) (λ came. IsReadAs (lsas_read name.now) came
        (λ database lsas. database ≡ lsas) result) }
{
    let bytes = read_file(alloc, shelf, name, LONGEST_DATABASE)?;
    said_or_stop(read_lsas(alloc, &bytes), name)
}
