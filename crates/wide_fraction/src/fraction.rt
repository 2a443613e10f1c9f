//! Fractions in lowest terms.
ghost use Rattle.std.specs.Prelude.{◌≡◌, ℕ, ◌^◌, ◌<◌, ◌≤◌, ℤ, pos, ◌<ℤ◌, nat_abs, ◌≢◌, IsTrue, ◌↔◌, MatchOption};
ghost use Rattle.whole_numbers.specs.Fractions.{whole, negated, inverse, reduced};
ghost use Rattle.wide_fraction.specs.Widths.{IsFractionIn127Bits, IsWithin, IsFractionTooWide};

use crate::Top;
use crate::word_arithmetic::{quotient, signed_quotient, with_sign_of};
use std::marker::Model;
use whole_numbers::greatest_common_divisor;

/// A fraction in lowest terms with a positive denominator; zero is 0/1. Each of its numbers has at most 127 bits.
#[derive(Clone, Copy, Debug, PartialEq, Eq)]
pub struct Frac {
    pub(crate) numerator: i128,
    pub(crate) denominator: u128,
}

impl Model for Frac {
    ghost use Rattle.whole_numbers.specs.Fractions.{Fraction};
    ghost use Rattle.wide_fraction.specs.Widths.{IsFractionIn127Bits};

    ghost Value = { Fraction };

    ghost view = { λ q. record { numerator = q.numerator; denominator = q.denominator } };

    ghost invariant = { λ q. IsFractionIn127Bits (record {
      numerator = q.numerator;
      denominator = q.denominator;
    }) };

    ghost inverse = { λ q. record { numerator = q.numerator; denominator = q.denominator } };
}

impl Frac {
    /// The fraction in lowest terms. None exactly where one of its two numbers passes `top` in size.
    pub fn new(numerator: i128, denominator: i128, top: Top) -> Option<Frac>
        requires positive { pos 0 <ℤ denominator }
        requires not_least { nat_abs numerator < 2 ^ 127 }
        ensures { MatchOption result
            (IsFractionTooWide top (reduced numerator (nat_abs denominator)))
            (λ q. (q ≡ reduced numerator (nat_abs denominator)) × IsWithin top q) }
    {
        let fraction = Frac::reduced(numerator, denominator as u128);
        if top.size() < fraction.numerator.unsigned_abs() {
            None
        } else if top.size() < fraction.denominator {
            None
        } else {
            Some(fraction)
        }
    }

    /// The fraction in lowest terms.
    fn reduced(numerator: i128, denominator: u128) -> Frac
        requires positive { 0 < denominator }
        requires not_least { nat_abs numerator < 2 ^ 127 }
        requires fits { denominator < 2 ^ 127 }
        ensures { result ≡ reduced numerator denominator }
    {
        let common = greatest_common_divisor(numerator.unsigned_abs(), denominator);
        Frac {
            numerator: signed_quotient(numerator, common),
            denominator: quotient(denominator, common),
        }
    }

    /// A whole number.
    pub fn whole(value: i64) -> Frac
        ensures { result ≡ whole value }
    {
        Frac {
            numerator: i128::from(value),
            denominator: 1,
        }
    }

    /// A whole number of up to 127 bits.
    pub fn whole_wide(value: i128) -> Frac
        requires { nat_abs value < 2 ^ 127 }
        ensures { result ≡ whole value }
    {
        Frac {
            numerator: value,
            denominator: 1,
        }
    }

    /// The number above the line.
    pub fn numerator(&self) -> i128
        ensures value { result ≡ self.now.numerator }
        ensures kept { IsFractionIn127Bits self.now }
    {
        self.numerator
    }

    /// The number below the line.
    pub fn denominator(&self) -> i128
        ensures value { result ≡ pos self.now.denominator }
        ensures kept { IsFractionIn127Bits self.now }
    {
        self.denominator as i128
    }

    /// Whether it is 0.
    pub fn is_zero(&self) -> bool
        ensures { IsTrue result ↔ (self.now.numerator ≡ pos 0) }
    {
        self.numerator == 0
    }

    /// Whether it is less than 0.
    pub fn is_negative(&self) -> bool
        ensures { IsTrue result ↔ (self.now.numerator <ℤ pos 0) }
    {
        self.numerator < 0
    }

    /// Whether it is greater than 0.
    pub fn is_positive(&self) -> bool
        ensures { IsTrue result ↔ (pos 0 <ℤ self.now.numerator) }
    {
        0 < self.numerator
    }

    /// The fraction with the other sign.
    pub fn negated(self) -> Frac
        ensures { result ≡ negated self }
    {
        Frac {
            numerator: -self.numerator,
            denominator: self.denominator,
        }
    }

    /// The fraction upside down, with the sign in the numerator.
    pub fn inverted(self) -> Frac
        requires { self.numerator ≢ pos 0 }
        ensures { result ≡ inverse self }
    {
        Frac {
            numerator: with_sign_of(self.numerator, self.denominator),
            denominator: self.numerator.unsigned_abs(),
        }
    }
}
