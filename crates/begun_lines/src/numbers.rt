//! Numbers that are begun: how many digits they lack.
ghost use Rattle.std.specs.Prelude.{◌≡◌, ◌≢◌, ◌+◌, ◌-◌, ◌*◌, ◌^◌, ◌<◌, ◌≤◌, ◌↔◌, ℕ, MatchOption, IsTrue, length};
ghost use Rattle.cost_base.specs.Decimal.{decimal};
ghost use Rattle.whole_numbers.specs.Fractions.{gcd};
ghost use Rattle.begun_lines.specs.BegunLines.{IsMissing, IsNumberInRange, IsCoprimeInRange, Extends};

use text_lines::{number_bytes, printed_number};
use whole_numbers::greatest_common_divisor;

/// The numbers that may stand at a place of a line: those of a range that have no divisor in common with `coprime_to`.
#[derive(Clone, Copy)]
pub(crate) struct Numbers {
    pub(crate) least: u128,
    pub(crate) greatest: u128,
    pub(crate) coprime_to: u128,
}

/// How many bytes a word lacks until it is one of these numbers. The least of them is coprime.
pub(crate) fn missing_digits(word: &[u8], numbers: Numbers) -> Option<usize>
    requires coprime { gcd numbers.coprime_to numbers.least ≡ 1 }
    requires fits { numbers.greatest < 2 ^ 128 }
    ensures { IsMissing (IsNumberInRange numbers) word.now result }
{
    if word.is_empty() {
        return all_digits(numbers);
    }
    let begun = printed_number(word, numbers.greatest)?;
    if begun == 0 {
        return missing_behind_zero(numbers);
    }
    missing_behind(begun, numbers)
}

/// How many digits the shortest of these numbers has.
fn all_digits(numbers: Numbers) -> Option<usize>
    requires { gcd numbers.coprime_to numbers.least ≡ 1 }
    ensures { MatchOption result (numbers.greatest < numbers.least)
        (λ count. (numbers.least ≤ numbers.greatest) × (count ≡ length (decimal numbers.least))) }
{
    if numbers.least > numbers.greatest {
        return None;
    }
    let mut room = [0; 40];
    Some(number_bytes(numbers.least, &mut room))
}

/// No digit may follow a zero.
fn missing_behind_zero(numbers: Numbers) -> Option<usize>
    ensures { MatchOption result (IsCoprimeInRange numbers 0 → ⊥)
        (λ count. (count ≡ 0) × IsCoprimeInRange numbers 0) }
{
    if has_number(0, 0, numbers) {
        Some(0)
    } else {
        None
    }
}

/// How many digits a number that isn't zero lacks until it is one of these.
fn missing_behind(begun: u128, numbers: Numbers) -> Option<usize>
    requires some { 0 < begun }
    requires fits { numbers.greatest < 2 ^ 128 }
    ensures { MatchOption result ((k n : ℕ) → Extends begun k n → IsCoprimeInRange numbers n → ⊥)
        (λ count. ((n : ℕ) × Extends begun count n × IsCoprimeInRange numbers n) ×
        ((k n : ℕ) → Extends begun k n → IsCoprimeInRange numbers n → count ≤ k)) }
{
    for digits in 0..39u32 {
        if goes_on(begun, 10u128.pow(digits), numbers) {
            return Some(digits as usize);
        }
    }
    None
}

/// Whether one of these numbers is the begun one with more digits, of which the span is the power of 10.
fn goes_on(begun: u128, span: u128, numbers: Numbers) -> bool
    requires some { 0 < span }
    requires fits { numbers.greatest < 2 ^ 128 }
    ensures { IsTrue result ↔ ((n : ℕ) × (begun * span ≤ n) × (n < begun * span + span) ×
        IsCoprimeInRange numbers n) }
{
    match begun.checked_mul(span) {
        Some(low) => has_number(low, low.saturating_add(span - 1), numbers),
        None => false,
    }
}

/// Whether one of these numbers stands in a range.
fn has_number(low: u128, high: u128, numbers: Numbers) -> bool
    ensures { IsTrue result ↔ ((n : ℕ) × (low ≤ n) × (n ≤ high) × IsCoprimeInRange numbers n) }
{
    let first = low.max(numbers.least);
    let last = high.min(numbers.greatest);
    has_coprime(first, last, numbers.coprime_to)
}

/// Whether a range has a number with no divisor in common with another.
fn has_coprime(first: u128, last: u128, other: u128) -> bool
    ensures { IsTrue result ↔ ((n : ℕ) × (first ≤ n) × (n ≤ last) × (gcd other n ≡ 1)) }
{
    let mut number = first;
    while number <= last {
        if greatest_common_divisor(other, number) == 1 {
            return true;
        }
        if number == last {
            return false;
        }
        number += 1;
    }
    false
}
