//! What the work on a tableau answers, and how far it is.

use cost_base::OutOfMemory;
use std::alloc::AllocFailed;
use wide_fraction::Wide;

/// How the work on a tableau ended.
#[derive(Clone, Copy, Debug, PartialEq, Eq)]
pub enum Solved {
    /// Some rational point of the box meets all rows.
    Feasible,
    /// No rational point of the box does. The number is that of a form, counted from 0 in the order of the table's
    /// forms (x - low for each variable, high - x for each variable, rows as they were added): it can't be made
    /// non-negative.
    Refuted(u64),
}

/// How far the work on a tableau is.
#[derive(Clone, Copy, Debug, PartialEq, Eq)]
pub enum Stage {
    /// Rows or bounds came since it was solved, or it wasn't solved yet.
    Open,
    /// It was solved with this answer.
    Ended(Solved),
    /// A step of `add_row` or `solve` needed too wide a number.
    Stopped(Wide),
}

/// Why a call gave no answer.
#[derive(Clone, Copy, Debug, PartialEq, Eq)]
pub enum SimplexStop {
    /// A step of fractions needed too wide a number.
    TooWide(Wide),
    /// Want of memory.
    OutOfMemory,
}

impl From<Wide> for SimplexStop {
    ghost use Rattle.std.specs.Prelude.{◌≡◌};
    ghost use Rattle.fraction_table.specs.declared.stage.SimplexStop.TheVariants.{TooWide};

    ghost from_gives = { λ wide stop. stop ≡ TooWide wide };

    fn from(wide: Wide) -> SimplexStop {
        SimplexStop::TooWide(wide)
    }
}

impl From<OutOfMemory> for SimplexStop {
    ghost use Rattle.std.specs.Prelude.{◌≡◌};
    ghost use Rattle.fraction_table.specs.declared.stage.SimplexStop.TheVariants.{OutOfMemory as NoMemory};

    ghost from_gives = { λ _ stop. stop ≡ NoMemory };

    fn from(_error: OutOfMemory) -> SimplexStop {
        SimplexStop::OutOfMemory
    }
}

impl<T: Drop> From<AllocFailed<T>> for SimplexStop {
    ghost use Rattle.std.specs.Prelude.{◌≡◌};
    ghost use Rattle.fraction_table.specs.declared.stage.SimplexStop.TheVariants.{OutOfMemory as NoMemory};

    ghost from_gives = { λ _ stop. stop ≡ NoMemory };

    fn from(_error: AllocFailed<T>) -> SimplexStop {
        SimplexStop::OutOfMemory
    }
}
