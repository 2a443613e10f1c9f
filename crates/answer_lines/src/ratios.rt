//! Reading the fractions of an answer.
ghost use Rattle.std.specs.Prelude.{◌≡◌, ◌≢◌, ℕ, ◌+◌, ◌<◌, ◌^◌, ℤ, nat_abs, MatchOption};
ghost use Rattle.cost_base.specs.declared.Ratio.{Ratio};
ghost use Rattle.cost_base.specs.Decimal.{decimal};
ghost use Rattle.std.specs.Prelude.{negsuc, pos};
ghost use Rattle.design_problem.specs.Text.{integer, ratio_word, IsPrintedRatio};

use crate::words::after;
use cost_base::Ratio;
use text_lines::{cut, printed_number};
use whole_numbers::greatest_common_divisor;

/// The greatest number of a fraction, in size: 2^127 - 1.
pub const GREATEST_SIZE: u128 = 170_141_183_460_469_231_731_687_303_715_884_105_727;

/// The fraction that a word says.
pub(crate) fn ratio_of(word: &[u8]) -> Option<Ratio>
    ensures { MatchOption result ((q : Ratio) → IsPrintedRatio q → word.now ≢ ratio_word q)
        (λ q. IsPrintedRatio q × (word.now ≡ ratio_word q)) }
{
    let (above, below) = cut(word, b'/')?;
    let numerator = integer_of(above)?;
    let denominator = printed_number(below, GREATEST_SIZE)?;
    lowest(numerator, denominator)
}

/// The fraction of two numbers, where it is in lowest terms.
fn lowest(numerator: i128, denominator: u128) -> Option<Ratio>
    requires above { nat_abs numerator < 2 ^ 127 }
    requires below { denominator < 2 ^ 127 }
    ensures { MatchOption result ((q : Ratio) → IsPrintedRatio q → q.numerator ≡ numerator →
        q.denominator ≡ pos denominator → ⊥) (λ q. IsPrintedRatio q × (q.numerator ≡ numerator) ×
        (q.denominator ≡ pos denominator)) }
{
    if denominator == 0 {
        return None;
    }
    if greatest_common_divisor(numerator.unsigned_abs(), denominator) == 1 {
        Some(Ratio {
            numerator,
            denominator: denominator as i128,
        })
    } else {
        None
    }
}

/// The number with its sign that a word says.
pub fn integer_of(word: &[u8]) -> Option<i128>
    ensures { MatchOption result ((z : ℤ) → nat_abs z < 2 ^ 127 → word.now ≢ integer z)
        (λ z. (nat_abs z < 2 ^ 127) × (word.now ≡ integer z)) }
{
    match after(word, b"-") {
        Some(digits) => negative_of(digits),
        None => {
            let size = printed_number(word, GREATEST_SIZE)?;
            Some(size as i128)
        }
    }
}

/// The number below 0 with these digits.
fn negative_of(digits: &[u8]) -> Option<i128>
    ensures { MatchOption result ((n : ℕ) → n + 1 < 2 ^ 127 → digits.now ≢ decimal (n + 1))
        (λ z. (n : ℕ) × (z ≡ negsuc n) × (n + 1 < 2 ^ 127) × (digits.now ≡ decimal (n + 1))) }
{
    let size = printed_number(digits, GREATEST_SIZE)?;
    if size == 0 {
        None
    } else {
        Some(-(size as i128))
    }
}
