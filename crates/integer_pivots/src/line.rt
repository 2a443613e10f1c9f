//! Lines: whole numbers over one denominator each.
ghost use Rattle.std.specs.Prelude.{◌≡◌, ℕ, ◌^◌, ◌<◌, ◌≤◌, ◌↔◌, pos, ◌*ℤ◌, ◌<ℤ◌, ◌≤ℤ◌, nat_abs, length, IsTrue};
ghost use Prim.Native.Nat.{◌∣◌};
ghost use Rattle.whole_numbers.specs.Fractions.{exact_quotient, gcd};
ghost use Rattle.whole_numbers.specs.Lists.{number_at};
ghost use Rattle.integer_pivots.specs.Lines.{IsLowered, IsReduced, IsReducible};
ghost use Rattle.integer_pivots.specs.Numbers.{AllWithin};

use crate::bounds::greatest;
use crate::marked::MarkedNumbers;
use whole_numbers::greatest_common_divisor;

/// A reach above this is looked up: 2^20.
const LARGE_REACH: i64 = 1 << 20;

/// A form at a basis in whole numbers over one denominator: its constant there, and its numbers at the columns.
#[derive(Drop)]
pub struct Line {
    /// What all numbers stand over; it is positive.
    pub denominator: i64,
    /// The form's value where all forms of the basis are 0.
    pub constant: i64,
    /// How far the form rises with the form of each column.
    pub numbers: MarkedNumbers,
    /// No number at a column is greater in size.
    pub reach: i64,
}

/// Whether a positive number goes into another.
fn goes_into(part: i64, number: i64) -> bool
    requires part { pos 0 <ℤ part }
    ensures { IsTrue result ↔ (nat_abs part ∣ nat_abs number) }
{
    number.unsigned_abs() % part.unsigned_abs() == 0
}

/// The greatest common divisor of a number's size and a positive number. A number that the other goes into takes one
/// division.
pub fn common_with(number: i64, part: i64) -> i64
    requires part { pos 0 <ℤ part }
    ensures value { result ≡ pos (gcd (nat_abs number) (nat_abs part)) }
    ensures positive { pos 0 <ℤ result }
    ensures least { result ≤ℤ part }
{
    if part == 1 || goes_into(part, number) {
        return part;
    }
    greatest_common_divisor(
        u128::from(number.unsigned_abs()),
        u128::from(part.unsigned_abs()),
    ) as i64
}

/// A number into which a divisor goes, over it.
pub fn over(number: i64, part: i64) -> i64
    // The divisor is positive and goes into the number, which is at most 2^62 in size.
    requires part { pos 0 <ℤ part }
    requires whole { nat_abs part ∣ nat_abs number }
    requires size { nat_abs number ≤ 2 ^ 62 }

    // The quotient is exact, and no greater in size than the number.
    ensures value { result ≡ exact_quotient number (nat_abs part) }
    ensures times { (result *ℤ part) ≡ number }
    ensures size { nat_abs result ≤ nat_abs number }
{
    if number == 0 {
        return 0;
    }
    number / part
}

/// Puts each number, into which a divisor goes, over it.
fn divide(numbers: &mut MarkedNumbers, part: i64)
    requires part { pos 0 <ℤ part }
    requires whole { (c : ℕ) → c < length numbers.old → nat_abs part ∣
        nat_abs (number_at numbers.old c) }
    requires sizes { AllWithin (2 ^ 62) numbers.old }
    ensures count { length numbers.new ≡ length numbers.old }
    ensures numbers { (c : ℕ) → c < length numbers.old → (number_at numbers.new c *ℤ part) ≡
        number_at numbers.old c }
{
    let mut column = numbers.next(0);
    while column < numbers.as_slice().len() {
        let number = numbers.as_slice()[column];
        numbers.set(column, over(number, part));
        column = numbers.next(column + 1);
    }
}

impl Line {
    /// What the denominator, the constant and all numbers have in common.
    fn common_part(&self) -> i64
        // The denominator is positive, and no number of the line passes 2^62 in size.
        requires { IsReducible (2 ^ 62) self.now }

        // The result is positive, and goes into the denominator, the constant and all numbers.
        ensures positive { pos 0 <ℤ result }
        ensures denominator { nat_abs result ∣ nat_abs self.now.denominator }
        ensures constant { nat_abs result ∣ nat_abs self.now.constant }
        ensures numbers { (c : ℕ) → c < length self.now.numbers → nat_abs result ∣
            nat_abs (number_at self.now.numbers c) }

        // Whatever goes into all of them goes into it too, so it's the greatest such number.
        ensures greatest { (d : ℕ) → d ∣ nat_abs self.now.denominator →
            d ∣ nat_abs self.now.constant → ((c : ℕ) → c < length self.now.numbers →
            d ∣ nat_abs (number_at self.now.numbers c)) → d ∣ nat_abs result }
    {
        let mut part = common_with(self.constant, self.denominator);
        let numbers = self.numbers.as_slice();
        let mut column = self.numbers.next(0);
        while column < numbers.len() {
            if part == 1 {
                return 1;
            }
            part = common_with(numbers[column], part);
            column = self.numbers.next(column + 1);
        }
        part
    }

    /// Puts the denominator, the constant and all numbers over a number that goes into each.
    fn put_over(&mut self, part: i64)
        // The part is positive, and goes into the denominator, the constant and all numbers.
        requires part { pos 0 <ℤ part }
        requires denominator { nat_abs part ∣ nat_abs self.old.denominator }
        requires constant { nat_abs part ∣ nat_abs self.old.constant }
        requires numbers { (c : ℕ) → c < length self.old.numbers → nat_abs part ∣
            nat_abs (number_at self.old.numbers c) }

        // None of these passes 2^62 in size.
        requires sizes { (nat_abs self.old.denominator ≤ 2 ^ 62) ×
            (nat_abs self.old.constant ≤ 2 ^ 62) × AllWithin (2 ^ 62) self.old.numbers }

        // Each of them stands over the part now, without a remainder.
        ensures { IsReduced self.old self.new (nat_abs part) }
    {
        if part == 1 {
            return;
        }
        self.denominator = over(self.denominator, part);
        self.constant = over(self.constant, part);
        divide(&mut self.numbers, part);
    }

    /// Brings a line into lowest terms: what its denominator, its constant and all its numbers have in common goes out.
    /// Its reach is the greatest of the numbers then.
    pub fn reduce(&mut self)
        requires { IsReducible (2 ^ 62) self.old }
        ensures lowered { IsLowered self.old self.new }
        ensures least { (most : ℕ) → AllWithin most self.old.numbers →
            nat_abs self.new.reach ≤ most }
        ensures reached { (most : ℕ) → AllWithin most self.new.numbers →
            nat_abs self.new.reach ≤ most }
    {
        let part = self.common_part();
        self.put_over(part);
        self.reach = greatest(self.numbers.as_slice());
    }

    /// A size that no number of the line passes: this one, or where it is large, the greatest number's.
    pub(crate) fn reach_by(&self, most: i64) -> i64
        // No number passes the size, nor 2^30.
        requires from_zero { pos 0 ≤ℤ most }
        requires most { AllWithin (nat_abs most) self.now.numbers }
        requires sizes { AllWithin (2 ^ 30) self.now.numbers }

        // Nor does one pass the result, which is at most 2^30.
        ensures from_zero { pos 0 ≤ℤ result }
        ensures small { nat_abs result ≤ 2 ^ 30 }
        ensures within { AllWithin (nat_abs result) self.now.numbers }
    {
        if most <= LARGE_REACH {
            return most;
        }
        greatest(self.numbers.as_slice())
    }
}
