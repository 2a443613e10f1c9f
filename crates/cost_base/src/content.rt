//! Files in memory: a list of names and bytes, of which the first file of a name counts.

ghost use Rattle.std.specs.Prelude.{◌≡◌, ◌^◌, ◌<◌, List, [], IsErrOf, MatchOption, Some, None};
ghost use Rattle.cost_base.specs.Outside.{IsReadUpTo};
ghost use Rattle.cost_base.specs.Files.{first_file};

use crate::{Name, ShelfStop};

/// The bytes of the first file of a name.
pub(crate) fn find_first<'a>(files: &'a [(Name, Name)], name: &[u8]) -> Option<&'a [u8]>
    ensures { MatchOption result (first_file files.now name.now ≡ None)
        (λ found. first_file files.now name.now ≡ Some found.now) }
{
    for file in files {
        if file.0.as_bytes() == name {
            return Some(file.1.as_bytes());
        }
    }
    None
}

/// Copies the bytes of a file, or the first `most + 1` of them where there are more than `most`.
pub(crate) fn copy_within(bytes: &[u8], most: usize, into: &mut Vec<u8>) -> Result<(), ShelfStop>
    requires empty { into.old.items ≡ [] }
    requires most { most < 2 ^ 31 }
    ensures read { IsReadUpTo (Some bytes.now) most result into.new.items }
    ensures never_fails { IsErrOf result ShelfStop.Failed → ⊥ }
{
    let is_long = most < bytes.len();
    let part = if is_long { &bytes[..most + 1] } else { bytes };
    if into.extend_from_slice(part).is_err() {
        return Err(ShelfStop::OutOfMemory);
    }
    if is_long {
        Err(ShelfStop::TooLong)
    } else {
        Ok(())
    }
}
