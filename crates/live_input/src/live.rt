//! Reading a live file.
ghost use Rattle.std.specs.Prelude.{◌≡◌};
ghost use Rattle.input_files.specs.Readings.{Gave};
ghost use Rattle.input_files.specs.Stops.{IsReadAs};
ghost use Rattle.live_input.specs.LiveReadings.{live_read};

use crate::LONGEST_DATABASE;
use cost_base::Shelf;
use input_files::{Stop, read_file, said_or_stop};
use live_reader::read_live;
use lsa_bytes::LsaDatabase;
use std::alloc::Global;

/// The LSAs of an area that count, as a live file says them: JSON as FRRouting prints it, or LSA bytes.
///
/// # Errors
///
/// `Stop`: the file failed or is too long, or has a fault, with the line of JSON or the offset in LSA bytes as the
/// line; want of memory.
pub fn read_live_file<'a, S: Shelf>(
    alloc: Global,
    shelf: &mut S,
    name: &'a str,
    area: u32,
) -> Result<LsaDatabase, Stop<'a>>
    ensures { Gave (S.gave shelf.old shelf.new) (λ came. IsReadAs (live_read name.now area) came
        (λ database lsas. database ≡ lsas) result) }
{
    let bytes = read_file(alloc, shelf, name, LONGEST_DATABASE)?;
    said_or_stop(read_live(alloc, &bytes, area), name)
}
