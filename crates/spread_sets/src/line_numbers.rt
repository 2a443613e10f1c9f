//! Beside each path the number of the line in which it stands.
ghost use Rattle.std.specs.Prelude.{◌≡◌, ◌==◌, ℕ, ◌<◌, Some, None, cond, length, slice_index_or, IfOk};
ghost use Rattle.set_reader.specs.Reading.{stands_in};
ghost use Rattle.spread_sets.specs.MemberSets.{AreLineNumbers};

use cost_base::{Listed, OutOfMemory};
use std::alloc::Global;

/// Puts a number beside a path, where it has a place.
fn put_number(numbers: &mut Vec<Option<usize>>, path: u32, number: usize)
    ensures count { length numbers.new.items ≡ length numbers.old.items }
    ensures each { (k : ℕ) → k < length numbers.old.items → slice_index_or numbers.new.items k None
        ≡ cond (k == path) (Some number) (slice_index_or numbers.old.items k None) }
{
    if (path as usize) < numbers.len() {
        numbers[path as usize] = Some(number);
    }
}

/// Puts the number of a line beside each of its members.
fn put_line(numbers: &mut Vec<Option<usize>>, line: &[u32], number: usize)
    ensures count { length numbers.new.items ≡ length numbers.old.items }
    ensures each { (k : ℕ) → k < length numbers.old.items → slice_index_or numbers.new.items k None
        ≡ cond (stands_in k line.now) (Some number) (slice_index_or numbers.old.items k None) }
{
    for member in line {
        put_number(numbers, *member, number);
    }
}

/// Beside each of so many paths the number of the first line in which it stands; None beside one that stands in none.
/// It takes time in proportion to the paths and the members of the lines.
pub(crate) fn line_numbers(
    alloc: Global,
    lines: &[Listed<u32>],
    paths: u32,
) -> Result<Vec<Option<usize>>, OutOfMemory>
    ensures count { IfOk result (λ numbers. length numbers.items ≡ paths) }
    ensures each { IfOk result (λ numbers. AreLineNumbers 0 lines.now numbers.items) }
{
    let mut numbers = vec![in alloc; None; paths as usize]?;
    let mut left = lines.len();
    while left > 0 {
        left -= 1;
        put_line(&mut numbers, lines[left].as_slice(), left);
    }
    Ok(numbers)
}
