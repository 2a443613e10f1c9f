//! Steps of fractions, each exact or refused.
ghost use Rattle.std.specs.Prelude.{◌≡◌, ◌≢◌, ℕ, ◌*◌, ◌^◌, ◌<◌, ◌≤◌, ◌<ℤ◌, ◌≤ℤ◌, pos, ◌*ℤ◌, nat_abs, MatchOption, IfOk, IfErr, OnOk};
ghost use Rattle.whole_numbers.specs.Fractions.{plus, minus, times, divided, whole, lcm, numbers_of_sum, numbers_of_product};
ghost use Rattle.wide_fraction.specs.Widths.{Fits, IsExactOrTooWide, IsWithin};
ghost use Rattle.wide_fraction.specs.WideSteps.{IsTooWide};

use crate::word_arithmetic::{
    bounded_cross_sum, bounded_product, bounded_signed_product, bounded_sum, quotient,
    signed_quotient,
};
use crate::{Frac, Top};
use cost_base::StepName;
use whole_numbers::greatest_common_divisor;

/// What `scale` multiplies by, 2^27.
const SCALE: i128 = 134217728;

/// A step that makes a whole number which passes the width, with its operands as they were handed in.
#[derive(Clone, Copy, Debug, PartialEq, Eq)]
pub struct Wide {
    pub step: StepName,
    /// The step's first fraction.
    pub left: Frac,
    /// Its second fraction.
    pub right: Frac,
}

/// The sum in lowest terms. `Wide` comes exactly where a whole number that the sum makes on its way passes `top` in
/// size: with g the greatest common divisor of the denominators of a/b and c/d, these are a(d/g), c(b/g), their sum s
/// and (b/g)(d/h), where h is the greatest common divisor of s and g.
pub fn add(left: Frac, right: Frac, top: Top) -> Result<Frac, Wide>
    // The numbers of both fractions are within the top.
    requires left_within { IsWithin top left }
    requires right_within { IsWithin top right }

    // On Ok the sum is exact, and no whole number on its way passes the top.
    ensures exact { IfOk result (λ q. q ≡ plus left right) }
    ensures within { IfOk result (λ q. IsWithin top q) }
    ensures fits { OnOk result (Fits top StepName.Add left right) }

    // On Err the step is named, and a whole number that it makes passes the top.
    ensures wide { IfErr result (IsTooWide top StepName.Add left right) }
{
    sum(left, right, top).ok_or(Wide {
        step: StepName::Add,
        left,
        right,
    })
}

/// The difference in lowest terms. `Wide` comes exactly where the sum of `left` and the negated `right` makes a whole
/// number that passes `top` in size, and names the two as they were handed in.
pub fn sub(left: Frac, right: Frac, top: Top) -> Result<Frac, Wide>
    // The numbers of both fractions are within the top.
    requires left_within { IsWithin top left }
    requires right_within { IsWithin top right }

    // On Ok the difference is exact, and no whole number on its way passes the top.
    ensures exact { IfOk result (λ q. q ≡ minus left right) }
    ensures within { IfOk result (λ q. IsWithin top q) }
    ensures fits { OnOk result (Fits top StepName.Sub left right) }

    // On Err the step is named, and a whole number that it makes passes the top.
    ensures wide { IfErr result (IsTooWide top StepName.Sub left right) }
{
    sum(left, right.negated(), top).ok_or(Wide {
        step: StepName::Sub,
        left,
        right,
    })
}

/// The product in lowest terms. `Wide` comes exactly where its numerator or its denominator passes `top` in size.
pub fn mul(left: Frac, right: Frac, top: Top) -> Result<Frac, Wide>
    // The numbers of both fractions are within the top.
    requires left_within { IsWithin top left }
    requires right_within { IsWithin top right }

    // On Ok the product is exact, and no whole number on its way passes the top.
    ensures exact { IfOk result (λ q. q ≡ times left right) }
    ensures within { IfOk result (λ q. IsWithin top q) }
    ensures fits { OnOk result (Fits top StepName.Mul left right) }

    // On Err the step is named, and a whole number that it makes passes the top.
    ensures wide { IfErr result (IsTooWide top StepName.Mul left right) }
{
    product(left, right, top).ok_or(Wide {
        step: StepName::Mul,
        left,
        right,
    })
}

/// The quotient in lowest terms. `Wide` comes exactly where its numerator or its denominator passes `top` in size, and
/// names the two as they were handed in.
pub fn div(left: Frac, right: Frac, top: Top) -> Result<Frac, Wide>
    // The numbers of both fractions are within the top, and the divisor isn't 0.
    requires left_within { IsWithin top left }
    requires right_within { IsWithin top right }
    requires not_zero { right.numerator ≢ pos 0 }

    // On Ok the quotient is exact, and no whole number on its way passes the top.
    ensures exact { IfOk result (λ q. q ≡ divided left right) }
    ensures within { IfOk result (λ q. IsWithin top q) }
    ensures fits { OnOk result (Fits top StepName.Div left right) }

    // On Err the step is named, and a whole number that it makes passes the top.
    ensures wide { IfErr result (IsTooWide top StepName.Div left right) }
{
    product(left, right.inverted(), top).ok_or(Wide {
        step: StepName::Div,
        left,
        right,
    })
}

/// The sum, or nothing where a whole number on its way passes `top`. Two whole numbers take the short way.
#[inline]
fn sum(left: Frac, right: Frac, top: Top) -> Option<Frac>
    requires left_within { IsWithin top left }
    requires right_within { IsWithin top right }
    ensures { IsExactOrTooWide top (numbers_of_sum left right) (plus left right) result }
{
    if left.denominator != 1 {
        fraction_sum(left, right, top)
    } else if right.denominator != 1 {
        fraction_sum(left, right, top)
    } else {
        whole_sum(left.numerator, right.numerator, top)
    }
}

/// The sum of two whole numbers.
#[inline]
fn whole_sum(left: i128, right: i128, top: Top) -> Option<Frac>
    requires left_within { IsWithin top (whole left) }
    requires right_within { IsWithin top (whole right) }
    ensures { IsExactOrTooWide top (numbers_of_sum (whole left) (whole right))
        (plus (whole left) (whole right)) result }
{
    match bounded_sum(left, right, top.size()) {
        None => None,
        Some(sum) => Some(Frac::whole_wide(sum)),
    }
}

/// The sum of two fractions.
fn fraction_sum(left: Frac, right: Frac, top: Top) -> Option<Frac>
    requires left_within { IsWithin top left }
    requires right_within { IsWithin top right }
    ensures { IsExactOrTooWide top (numbers_of_sum left right) (plus left right) result }
{
    let most = top.size();
    let shared = greatest_common_divisor(left.denominator, right.denominator);
    let left_part = quotient(left.denominator, shared);
    let right_part = quotient(right.denominator, shared);
    match bounded_cross_sum(left.numerator, right_part, right.numerator, left_part, most) {
        None => None,
        Some(sum) => {
            let common = greatest_common_divisor(sum.unsigned_abs(), shared);
            match bounded_product(left_part, quotient(right.denominator, common), most) {
                None => None,
                Some(denominator) => Some(Frac {
                    numerator: signed_quotient(sum, common),
                    denominator,
                }),
            }
        }
    }
}

/// The product, or nothing where a whole number on its way passes `top`. Two whole numbers take the short way.
#[inline]
fn product(left: Frac, right: Frac, top: Top) -> Option<Frac>
    requires { IsWithin top left }
    ensures { IsExactOrTooWide top (numbers_of_product left right) (times left right) result }
{
    if left.denominator != 1 {
        fraction_product(left, right, top)
    } else if right.denominator != 1 {
        fraction_product(left, right, top)
    } else {
        whole_product(left.numerator, right.numerator, top)
    }
}

/// The product of two whole numbers.
#[inline]
fn whole_product(left: i128, right: i128, top: Top) -> Option<Frac>
    requires { IsWithin top (whole left) }
    ensures { IsExactOrTooWide top (numbers_of_product (whole left) (whole right))
        (times (whole left) (whole right)) result }
{
    match bounded_signed_product(left, right, top.size()) {
        None => None,
        Some(product) => Some(Frac::whole_wide(product)),
    }
}

/// The product of two fractions.
fn fraction_product(left: Frac, right: Frac, top: Top) -> Option<Frac>
    ensures { IsExactOrTooWide top (numbers_of_product left right) (times left right) result }
{
    let most = top.size();
    let left_common = greatest_common_divisor(left.numerator.unsigned_abs(), right.denominator);
    let right_common = greatest_common_divisor(right.numerator.unsigned_abs(), left.denominator);
    let left_part = signed_quotient(left.numerator, left_common);
    let right_part = signed_quotient(right.numerator, right_common);
    match bounded_signed_product(left_part, right_part, most) {
        None => None,
        Some(numerator) => {
            let left_below = quotient(left.denominator, right_common);
            let right_below = quotient(right.denominator, left_common);
            match bounded_product(left_below, right_below, most) {
                None => None,
                Some(denominator) => Some(Frac {
                    numerator,
                    denominator,
                }),
            }
        }
    }
}

/// The least common multiple of two positive whole numbers. `Wide` comes exactly where it passes `top`.
pub fn lcm(left: i128, right: i128, top: Top) -> Result<i128, Wide>
    // Both numbers are positive, and within the top.
    requires left_positive { pos 0 <ℤ left }
    requires right_positive { pos 0 <ℤ right }
    requires left_within { nat_abs left ≤ top }
    requires right_within { nat_abs right ≤ top }

    // On Ok it is the least common multiple, within the top.
    ensures exact { IfOk result (λ n. n ≡ pos (lcm (nat_abs left) (nat_abs right))) }
    ensures within { IfOk result (λ n. nat_abs n ≤ top) }
    ensures fits { OnOk result (Fits top StepName.Lcm (whole left) (whole right)) }

    // On Err the step is named, and the least common multiple passes the top.
    ensures wide { IfErr result (IsTooWide top StepName.Lcm (whole left) (whole right)) }
{
    match multiple(left as u128, right as u128, top.size()) {
        Some(multiple) => Ok(multiple as i128),
        None => Err(Wide {
            step: StepName::Lcm,
            left: Frac::whole_wide(left),
            right: Frac::whole_wide(right),
        }),
    }
}

/// The least common multiple, where it is at most `most`.
fn multiple(left: u128, right: u128, most: u128) -> Option<u128>
    requires { 0 < right }
    ensures { MatchOption result (most < lcm left right) (λ n. (n ≡ lcm left right) × (n ≤ most)) }
{
    let common = greatest_common_divisor(left, right);
    bounded_product(quotient(left, common), right, most)
}

/// A positive whole number times 2^27. `Wide` comes exactly where it passes `top`.
pub fn scale(value: i128, top: Top) -> Result<i128, Wide>
    // The number is positive, and within the top.
    requires positive { pos 0 <ℤ value }
    requires value_within { nat_abs value ≤ top }

    // On Ok it is 2^27 times the number, within the top.
    ensures exact { IfOk result (λ n. n ≡ (value *ℤ pos (2 ^ 27))) }
    ensures within { IfOk result (λ n. nat_abs n ≤ top) }
    ensures fits { OnOk result (Fits top StepName.Scale (whole value) (whole (pos (2 ^ 27)))) }

    // On Err the step is named, and the product passes the top.
    ensures wide { IfErr result (IsTooWide top StepName.Scale (whole value)
        (whole (pos (2 ^ 27)))) }
{
    match bounded_signed_product(value, SCALE, top.size()) {
        Some(scaled) => Ok(scaled),
        None => Err(Wide {
            step: StepName::Scale,
            left: Frac::whole_wide(value),
            right: Frac::whole_wide(SCALE),
        }),
    }
}
