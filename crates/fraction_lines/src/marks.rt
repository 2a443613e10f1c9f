//! Marks of columns: a column without them isn't in the list.
ghost use Rattle.std.specs.Prelude.{◌≡◌, ◌≢◌, ℕ, ◌%◌, false};
ghost use Rattle.std.specs.Int.{bit_at};
ghost use Rattle.fraction_lines.specs.Marks.{AllMarked, IsColumnMarked, IsSet};

use wide_fraction::Frac;

/// Two marks for each column, which it shares with others: one with those that are equal up to a multiple of 128, and
/// one with its neighbours. So few columns that the list lacks have both.
#[derive(Clone, Copy)]
pub struct Marks {
    near: u128,
    far: u128,
}

/// The bits with that of one more number.
#[inline]
fn with_bit(bits: u128, number: u32) -> u128
    ensures here { IsSet result number }
    ensures kept { (k : ℕ) → IsSet bits k → IsSet result k }
{
    bits | (1u128 << (number % 128))
}

/// Whether the bit of a number is set.
#[inline]
fn has_bit(bits: u128, number: u32) -> bool
    ensures { result ≡ false → bit_at bits (number % 128) ≡ 0 }
{
    (bits >> (number % 128)) & 1 != 0
}

/// No marks.
pub fn no_marks() -> Marks
    ensures { (column : ℕ) → IsColumnMarked result column → ⊥ }
{
    Marks { near: 0, far: 0 }
}

/// The marks with those of one more column.
#[inline]
pub fn marked(marks: Marks, column: u32) -> Marks
    ensures here { IsColumnMarked result column }
    ensures kept { (k : ℕ) → IsColumnMarked marks k → IsColumnMarked result k }
{
    Marks {
        near: with_bit(marks.near, column),
        far: with_bit(marks.far, column / 5),
    }
}

/// Whether a column may be in the list.
#[inline]
pub fn is_marked(marks: Marks, column: u32) -> bool
    ensures { result ≡ false → IsColumnMarked marks column → ⊥ }
{
    if has_bit(marks.near, column) {
        has_bit(marks.far, column / 5)
    } else {
        false
    }
}

/// The marks of a list's columns.
pub fn marks_of(entries: &[(u32, Frac)]) -> Marks
    ensures { AllMarked result entries.now }
{
    let mut marks = no_marks();
    for entry in entries {
        marks = marked(marks, entry.0);
    }
    marks
}
