//! The bounds within which whole numbers turn, the greater of two sizes, and the greatest of some.
ghost use Rattle.std.specs.Prelude.{◌≡◌, ℕ, ◌^◌, ◌≤◌, ◌↔◌, ◌⊎◌, pos, ◌≤ℤ◌, nat_abs, IsTrue};
ghost use Rattle.integer_pivots.specs.Numbers.{AllWithin};

/// The greatest size of a number of a line at a column, and of a denominator: 2^30.
pub const ENTRY_LIMIT: i64 = 1 << 30;

/// The greatest size of the constant of a form x - low over the common denominator: 2^44.
pub const CONSTANT_LIMIT: i64 = 1 << 44;

/// The greatest sum of the sizes of a row's coefficients: 2^16.
pub const WEIGHT_LIMIT: i64 = 1 << 16;

/// The greatest sum of the sizes of the factors of which the line of a row is made: 2^32.
pub const FACTOR_LIMIT: i64 = 1 << 32;

/// The greater of a size and a number's size.
pub(crate) fn greater_size(most: i64, number: i64) -> i64
    // `most` is a size, and that of the number is at most 2^62.
    requires from_zero { pos 0 ≤ℤ most }
    requires number { nat_abs number ≤ 2 ^ 62 }

    // Neither size passes the result, which is one of the two.
    ensures from_zero { pos 0 ≤ℤ result }
    ensures most { nat_abs most ≤ nat_abs result }
    ensures number { nat_abs number ≤ nat_abs result }
    ensures either { (result ≡ most) ⊎ (nat_abs result ≡ nat_abs number) }
{
    let size = number.abs();
    if most < size { size } else { most }
}

/// The greatest size of some numbers; 0 where there are none.
pub fn greatest(numbers: &[i64]) -> i64
    requires { AllWithin (2 ^ 62) numbers.now }
    ensures within { AllWithin (nat_abs result) numbers.now }
    ensures least { (most : ℕ) → AllWithin most numbers.now → nat_abs result ≤ most }
    ensures from_zero { pos 0 ≤ℤ result }
{
    let mut most = 0;
    for index in 0..numbers.len() {
        most = greater_size(most, numbers[index]);
    }
    most
}

/// Whether a number is at most the limit in size.
pub fn within(number: i64, limit: i64) -> bool
    requires { pos 0 ≤ℤ limit }
    ensures { IsTrue result ↔ (nat_abs number ≤ nat_abs limit) }
{
    number.unsigned_abs() <= limit as u64
}
