//! The greatest common divisor of numbers of up to 128 bits. It takes 64-bit arithmetic where the numbers allow it.
ghost use Rattle.std.specs.Prelude.{◌≡◌, ◌%◌, ◌<◌};
ghost use Rattle.whole_numbers.specs.Fractions.{gcd};

/// The greatest number of 64 bits.
const WORD: u128 = 18446744073709551615;

/// The greatest common divisor of two words, by Euclid's steps.
fn gcd_of_words(left: u64, right: u64) -> u64
    ensures { result ≡ gcd left right }
{
    let mut larger = left;
    let mut smaller = right;
    while smaller != 0 {
        let rest = larger % smaller;
        larger = smaller;
        smaller = rest;
    }
    larger
}

/// The rest of a number at division by a word.
fn rest_by_word(value: u128, divisor: u64) -> u64
    requires { 0 < divisor }
    ensures { result ≡ value % divisor }
{
    if value <= WORD {
        value as u64 % divisor
    } else {
        (value % u128::from(divisor)) as u64
    }
}

/// The greatest common divisor of a number and a word.
fn gcd_with_word(value: u128, word: u64) -> u128
    ensures { result ≡ gcd value word }
{
    if word == 0 {
        value
    } else {
        u128::from(gcd_of_words(word, rest_by_word(value, word)))
    }
}

/// The greatest common divisor by Euclid's steps, on words as soon as one of the two fits.
fn gcd_by_steps(left: u128, right: u128) -> u128
    ensures { result ≡ gcd left right }
{
    let mut larger = left;
    let mut smaller = right;
    while WORD < smaller {
        let rest = larger % smaller;
        larger = smaller;
        smaller = rest;
    }
    gcd_with_word(larger, smaller as u64)
}

/// The greatest common divisor. Where one of the two is 1, nothing is computed.
#[inline]
pub fn greatest_common_divisor(left: u128, right: u128) -> u128
    ensures value { result ≡ gcd left right }
    ensures positive { 0 < right → 0 < result }
{
    if left == 1 || right == 1 {
        1
    } else {
        gcd_by_steps(left, right)
    }
}
