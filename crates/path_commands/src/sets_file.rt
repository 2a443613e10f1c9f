//! The file of sets, read after the problem.
ghost use Rattle.std.specs.Prelude.{◌≡◌, IfOk};
ghost use Rattle.set_reader.specs.SpreadSets.{AreSetsOf};
ghost use Rattle.input_files.specs.Outcomes.{Input};
ghost use Rattle.input_files.specs.Readings.{Gave};
ghost use Rattle.input_files.specs.Stops.{IsReadAs};
ghost use Rattle.path_commands.specs.SetFiles.{AreSetsIn, sets_read};

use cost_base::Shelf;
use design_problem::Problem;
use input_files::{Stop, read_file, said_or_stop};
use set_reader::{Sets, read_sets};
use std::alloc::Global;

/// The greatest length of a file of sets: 4 MiB.
const LONGEST_SETS: usize = 4_194_304;

/// The sets of a problem's wanted paths that a file says, whichever input the problem is of.
///
/// # Errors
///
/// `Stop`: the file failed or is too long, or a line of it has a fault; want of memory.
pub(crate) fn read_sets_file<'a, S: Shelf>(
    alloc: Global,
    shelf: &mut S,
    name: &'a str,
    problem: &Problem,
) -> Result<Sets, Stop<'a>>
    ensures read { (d : Input) → d.problem ≡ problem.now → Gave (S.gave shelf.old shelf.new)
        (λ came. IsReadAs (sets_read name.now d) came (λ sets sharing. (sharing.input ≡ d) ×
        AreSetsIn sets sharing) result) }
    ensures lawful { IfOk result (AreSetsOf problem.now) }
{
    let bytes = read_file(alloc, shelf, name, LONGEST_SETS)?;
    said_or_stop(read_sets(alloc, &bytes, problem), name)
}
