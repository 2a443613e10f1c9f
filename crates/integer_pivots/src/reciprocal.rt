//! Divisions by one number, as products with its reciprocal.
ghost use Rattle.std.specs.Prelude.{◌≡◌, ℕ, ◌*◌, ◌^◌, ◌≤◌, ◌↔◌, pos, ◌*ℤ◌, ◌<ℤ◌, ◌≤ℤ◌, nat_abs, IsTrue};
ghost use Prim.Native.Nat.{◌∣◌};
ghost use Rattle.whole_numbers.specs.Fractions.{gcd};
ghost use Rattle.integer_pivots.specs.Reciprocals.{IsReciprocal};

use crate::line::common_with;

/// A positive number to divide by, and what one product gives the quotient with: a division takes ten times as long.
#[derive(Clone, Copy)]
pub struct Divisor {
    /// What is divided by.
    pub number: i64,
    /// 2^63 over the number, and 1 more.
    pub reciprocal: u64,
}

impl Divisor {
    /// A number of at most 2^30 to divide by.
    pub fn new(number: i64) -> Divisor
        requires { (pos 0 <ℤ number) × (number ≤ℤ pos (2 ^ 30)) }
        ensures number { result.number ≡ number }
        ensures reciprocal { IsReciprocal result }
    {
        Divisor {
            number,
            reciprocal: (1 << 63) / number.unsigned_abs() + 1,
        }
    }

    /// How often it goes into a multiple of it.
    fn quotient(self, size: u64) -> u64
        requires reciprocal { IsReciprocal self }
        requires size { size ≤ 2 ^ 62 }
        ensures times { (times : ℕ) → size ≡ times * nat_abs self.number → result ≡ times }
        ensures near { result * nat_abs self.number ≤ 2 ^ 63 }
    {
        ((u128::from(size) * u128::from(self.reciprocal)) >> 63) as u64
    }

    /// Whether it goes into a number.
    pub fn divides(self, number: i64) -> bool
        requires reciprocal { IsReciprocal self }
        requires size { nat_abs number ≤ 2 ^ 62 }
        ensures { IsTrue result ↔ (nat_abs self.number ∣ nat_abs number) }
    {
        let size = number.unsigned_abs();
        self.quotient(size) * self.number.unsigned_abs() == size
    }

    /// What it has in common with a number.
    pub fn shared_with(self, number: i64) -> Divisor
        requires reciprocal { IsReciprocal self }
        requires size { nat_abs number ≤ 2 ^ 62 }
        ensures value { result.number ≡ pos (gcd (nat_abs number) (nat_abs self.number)) }
        ensures reciprocal { IsReciprocal result }
    {
        if self.divides(number) {
            return self;
        }
        Divisor::new(common_with(number, self.number))
    }

    /// A number into which it goes, over it.
    pub fn over(self, number: i64) -> i64
        requires reciprocal { IsReciprocal self }
        requires size { nat_abs number ≤ 2 ^ 62 }
        requires whole { nat_abs self.number ∣ nat_abs number }
        ensures { (result *ℤ self.number) ≡ number }
    {
        let times = self.quotient(number.unsigned_abs()) as i64;
        if number < 0 { -times } else { times }
    }
}
