//! Bytes and numbers behind a text.
ghost use Rattle.std.specs.Prelude.{◌≡◌, ◌++◌, OnOk};
ghost use Rattle.cost_base.specs.Decimal.{decimal};

use crate::number_writer::number_bytes;
use cost_base::OutOfMemory;

/// Adds bytes at the end.
///
/// # Errors
///
/// `OutOfMemory`.
pub fn push_bytes(text: &mut Vec<u8>, bytes: &[u8]) -> Result<(), OutOfMemory>
    ensures { OnOk result (text.new.items ≡ text.old.items ++ bytes.now) }
{
    text.extend_from_slice(bytes)?;
    Ok(())
}

/// Adds the decimal digits of a number at the end.
///
/// # Errors
///
/// `OutOfMemory`.
pub fn push_number(text: &mut Vec<u8>, number: u128) -> Result<(), OutOfMemory>
    ensures { OnOk result (text.new.items ≡ text.old.items ++ decimal number) }
{
    let mut room = [0; 40];
    let length = number_bytes(number, &mut room);
    push_bytes(text, &room[..length])
}
