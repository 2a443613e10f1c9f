//! The order of fractions, and the whole number below one. Neither needs numbers of more than 128 bits.
ghost use Rattle.std.specs.Prelude.{◌≡◌, ℕ, ◌*◌, ◌<◌, pos, ◌*ℤ◌, Option, Some, IfSome};
ghost use Rattle.std.specs.Ordering.{MatchOrdering, nat_cmp, int_cmp};
ghost use Rattle.whole_numbers.specs.Fractions.{order, IsLess, IsSame, IsFloor};

use crate::Frac;
use crate::word_arithmetic::{quotient, whole_and_rest, word_product};
use std::cmp::Ordering;

/// How two fractions are ordered.
pub fn cmp(left: Frac, right: Frac) -> Ordering
    ensures value { result ≡ order left right }
    ensures ranks { MatchOrdering result (IsLess left right) (IsSame left right)
        (IsLess right left) }
{
    if left.denominator == right.denominator {
        left.numerator.cmp(&right.numerator)
    } else {
        match (narrow(left), narrow(right)) {
            (Some(left), Some(right)) => cmp_narrow(left, right),
            _ => cmp_by_sign(left, right),
        }
    }
}

/// Numerator and denominator as words, where both fit.
#[inline]
fn narrow(value: Frac) -> Option<(i64, i64)>
    ensures { IfSome result (λ words. (words.0 ≡ value.numerator) ×
        (words.1 ≡ pos value.denominator)) }
{
    match (
        i64::try_from(value.numerator),
        i64::try_from(value.denominator),
    ) {
        (Ok(numerator), Ok(denominator)) => Some((numerator, denominator)),
        _ => None,
    }
}

/// How two fractions of words are ordered, by cross products.
#[inline]
fn cmp_narrow(left: (i64, i64), right: (i64, i64)) -> Ordering
    ensures { result ≡ int_cmp (left.0 *ℤ right.1) (right.0 *ℤ left.1) }
{
    word_product(left.0, right.1).cmp(&word_product(right.0, left.1))
}

/// How two fractions are ordered, by their signs and sizes.
fn cmp_by_sign(left: Frac, right: Frac) -> Ordering
    ensures { result ≡ order left right }
{
    let left_size = left.numerator.unsigned_abs();
    let right_size = right.numerator.unsigned_abs();
    if left.numerator < 0 {
        if right.numerator < 0 {
            cmp_sizes(right_size, right.denominator, left_size, left.denominator)
        } else {
            Ordering::Less
        }
    } else if right.numerator < 0 {
        Ordering::Greater
    } else {
        cmp_sizes(left_size, left.denominator, right_size, right.denominator)
    }
}

/// How `left / left_below` and `right / right_below` are ordered: by their whole parts, and where these are equal by
/// the reciprocals of the rests, the other way round.
fn cmp_sizes(left: u128, left_below: u128, right: u128, right_below: u128) -> Ordering
    requires left_positive { 0 < left_below }
    requires right_positive { 0 < right_below }
    ensures { result ≡ nat_cmp (left * right_below) (right * left_below) }
{
    let mut first = left;
    let mut first_below = left_below;
    let mut second = right;
    let mut second_below = right_below;
    'parts: loop {
        let (first_whole, first_rest) = whole_and_rest(first, first_below);
        let (second_whole, second_rest) = whole_and_rest(second, second_below);
        if first_whole != second_whole {
            return first_whole.cmp(&second_whole);
        }
        if first_rest == 0 {
            return first_rest.cmp(&second_rest);
        }
        if second_rest == 0 {
            return first_rest.cmp(&second_rest);
        }
        first = second_below;
        second = first_below;
        first_below = second_rest;
        second_below = first_rest;
    }
}

/// The greatest whole number that isn't above the fraction.
pub fn floor(value: Frac) -> i128
    ensures { IsFloor value result }
{
    if value.numerator < 0 {
        -1 - quotient(value.numerator.unsigned_abs() - 1, value.denominator) as i128
    } else {
        quotient(value.numerator as u128, value.denominator) as i128
    }
}
