//! Fractions that are begun: how many bytes they lack.
ghost use Rattle.std.specs.Prelude.{◌≡◌, ◌∷◌, [], ◌^◌, ◌<◌, ◌≤◌, ◌↔◌, ℕ, length};
ghost use Rattle.cost_base.specs.Decimal.{decimal};
ghost use Rattle.text_lines.specs.Numbers.{split};
ghost use Rattle.whole_numbers.specs.Fractions.{gcd};
ghost use Rattle.begun_lines.specs.BegunLines.{IsMissing, IsRatio, IsCoprimeInRange};

use crate::numbers::{Numbers, missing_digits};
use answer_lines::{GREATEST_SIZE, integer_of};
use text_lines::cut;

/// How many bytes a word lacks until it is a fraction.
pub(crate) fn missing_of_ratio(word: &[u8]) -> Option<usize>
    ensures { IsMissing IsRatio word.now result }
{
    match cut(word, b'/') {
        None => missing_of_numerator(word),
        Some((above, below)) => {
            let numerator = integer_of(above)?;
            missing_digits(below, denominators(numerator.unsigned_abs()))
        }
    }
}

/// How many bytes a word without a slash lacks until it is a fraction, which may have the denominator 1.
fn missing_of_numerator(word: &[u8]) -> Option<usize>
    requires { split 47 word.now ≡ word.now ∷ [] }
    ensures { IsMissing IsRatio word.now result }
{
    if word.is_empty() || word == b"-".as_slice() {
        return Some(3);
    }
    integer_of(word)?;
    Some(2)
}

/// The denominators of a numerator of this size. That of zero is 1.
fn denominators(size: u128) -> Numbers
    ensures least { gcd result.coprime_to result.least ≡ 1 }
    ensures fits { result.greatest < 2 ^ 128 }
    ensures among { (n : ℕ) →
        (IsCoprimeInRange result n ↔ ((0 < n) × (n < 2 ^ 127) × (gcd size n ≡ 1))) }
{
    if size == 0 {
        return Numbers {
            least: 1,
            greatest: 1,
            coprime_to: 1,
        };
    }
    Numbers {
        least: 1,
        greatest: GREATEST_SIZE,
        coprime_to: size,
    }
}
