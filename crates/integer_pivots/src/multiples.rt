//! Multiples of numbers, place by place.
ghost use Rattle.std.specs.Prelude.{◌≡◌, ℕ, ◌+◌, ◌*◌, ◌^◌, ◌<◌, ◌≤◌, pos, nat_abs, length, All};
ghost use Rattle.whole_numbers.specs.Lists.{number_at};
ghost use Rattle.integer_pivots.specs.Numbers.{AllWithin, more_sums};

use crate::marked::MarkedNumbers;

/// Puts a multiple of some numbers to sums, place by place.
pub fn put_multiple(sums: &mut MarkedNumbers, factor: i64, numbers: &MarkedNumbers)
    requires long { length sums.old ≡ length numbers.now }
    requires factor { nat_abs factor ≤ 2 ^ 32 }
    requires sums { All (λ sum. nat_abs sum + nat_abs factor * 2 ^ 30 ≤ 2 ^ 62) sums.old }
    requires numbers { AllWithin (2 ^ 30) numbers.now }
    ensures { sums.new ≡ more_sums sums.old factor numbers.now }
{
    let line = numbers.as_slice();
    let mut column = numbers.next(0);
    while column < line.len() {
        let sum = sums.as_slice()[column];
        sums.set(column, sum + factor * line[column]);
        column = numbers.next(column + 1);
    }
}

/// Puts 0 at each place.
pub fn clear(line: &mut MarkedNumbers)
    ensures count { length line.new ≡ length line.old }
    ensures zeros { (place : ℕ) → place < length line.old → number_at line.new place ≡ pos 0 }
{
    let mut place = line.next(0);
    while place < line.as_slice().len() {
        line.set(place, 0);
        place = line.next(place + 1);
    }
}
