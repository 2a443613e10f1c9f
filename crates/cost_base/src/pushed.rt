//! Things that are put at the end of a list.
ghost use Rattle.std.specs.Prelude.{◌≡◌, ◌++◌, ◌∷◌, [], cond, option_to_list, OnErr, OnOk};

use crate::OutOfMemory;

/// Puts a thing at the end of a list, if it is one of those that are sought.
///
/// # Errors
///
/// `OutOfMemory`.
pub fn push_if<T: Drop>(things: &mut Vec<T>, thing: T, is_sought: bool) -> Result<(), OutOfMemory>
    ensures { OnOk result (things.new.items ≡ cond is_sought (things.old.items ++ thing ∷ [])
        things.old.items) }
{
    if is_sought {
        things.push(thing)?;
    }
    Ok(())
}

/// Puts a thing at the end of a list.
///
/// # Errors
///
/// `OutOfMemory`: the list is as it was.
pub fn push_last<T: Drop>(things: &mut Vec<T>, thing: T) -> Result<(), OutOfMemory>
    ensures added { OnOk result (things.new.items ≡ things.old.items ++ thing ∷ []) }
    ensures kept { OnErr result (things.new.items ≡ things.old.items) }
{
    things.push(thing)?;
    Ok(())
}

/// Puts a thing at the end of a list, if there is one.
///
/// # Errors
///
/// `OutOfMemory`: the list is as it was.
pub fn push_some<T: Drop>(things: &mut Vec<T>, thing: Option<T>) -> Result<(), OutOfMemory>
    ensures added { OnOk result (things.new.items ≡ things.old.items ++ option_to_list thing) }
    ensures kept { OnErr result (things.new.items ≡ things.old.items) }
{
    if let Some(thing) = thing {
        things.push(thing)?;
    }
    Ok(())
}
