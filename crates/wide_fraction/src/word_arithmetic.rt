//! Whole numbers of up to 128 bits. Each call has one meaning and takes 64-bit arithmetic where the numbers allow it.
ghost use Rattle.std.specs.Prelude.{◌≡◌, ℕ, ◌*◌, ◌/◌, ◌%◌, ◌^◌, ◌<◌, ◌≤◌, pos, ◌+ℤ◌, ◌*ℤ◌, nat_abs, MatchOption};
ghost use Rattle.wide_fraction.specs.Laws.{signed_by};
ghost use Rattle.wide_fraction.specs.Widths.{IsCrossWide, IsCrossWithin};
ghost use Rattle.whole_numbers.specs.Fractions.{exact_quotient};

/// The greatest number of 64 bits.
const WORD: u128 = 18446744073709551615;

/// The quotient, rounded down.
#[inline]
pub(crate) fn quotient(value: u128, divisor: u128) -> u128
    requires { 0 < divisor }
    ensures { result ≡ value / divisor }
{
    if divisor == 1 {
        value
    } else if value <= WORD && divisor <= WORD {
        u128::from(value as u64 / divisor as u64)
    } else {
        value / divisor
    }
}

/// The quotient, rounded down, and the rest.
#[inline]
pub(crate) fn whole_and_rest(value: u128, divisor: u128) -> (u128, u128)
    requires { 0 < divisor }
    ensures whole { result.0 ≡ value / divisor }
    ensures rest { result.1 ≡ value % divisor }
{
    let whole = quotient(value, divisor);
    (whole, value - whole * divisor)
}

/// The product, where it is at most `most`.
#[inline]
pub(crate) fn bounded_product(left: u128, right: u128, most: u128) -> Option<u128>
    ensures { MatchOption result (most < left * right) (λ p. (p ≡ left * right) × (p ≤ most)) }
{
    let product = if left <= WORD && right <= WORD {
        u128::from(left as u64) * u128::from(right as u64)
    } else {
        match left.checked_mul(right) {
            Some(product) => product,
            None => return None,
        }
    };
    if product <= most { Some(product) } else { None }
}

/// A size with the sign of a value.
#[inline]
pub(crate) fn with_sign_of(value: i128, size: u128) -> i128
    requires { size < 2 ^ 127 }
    ensures { result ≡ signed_by value (pos size) }
{
    if value < 0 {
        -(size as i128)
    } else {
        size as i128
    }
}

/// The exact quotient of a whole number by a divisor of its size, with its sign.
#[inline]
pub(crate) fn signed_quotient(value: i128, divisor: u128) -> i128
    requires positive { 0 < divisor }
    requires not_least { nat_abs value < 2 ^ 127 }
    ensures { result ≡ exact_quotient value divisor }
{
    with_sign_of(value, quotient(value.unsigned_abs(), divisor))
}

/// The product of two whole numbers with their signs, where its size is at most `most`.
#[inline]
pub(crate) fn bounded_signed_product(left: i128, right: i128, most: u128) -> Option<i128>
    requires { most < 2 ^ 127 }
    ensures { MatchOption result (most < nat_abs (left *ℤ right))
        (λ p. (p ≡ left *ℤ right) × (nat_abs (left *ℤ right) ≤ most)) }
{
    match signed_product(left, right) {
        Some(product) => {
            if product.unsigned_abs() <= most {
                Some(product)
            } else {
                None
            }
        }
        None => None,
    }
}

/// The product of two whole numbers with their signs, where 128 bits hold it.
#[inline]
fn signed_product(left: i128, right: i128) -> Option<i128>
    ensures { MatchOption result (2 ^ 127 ≤ nat_abs (left *ℤ right)) (λ p. p ≡ left *ℤ right) }
{
    match (i64::try_from(left), i64::try_from(right)) {
        (Ok(left_word), Ok(right_word)) => Some(word_product(left_word, right_word)),
        _ => left.checked_mul(right),
    }
}

/// The product of two words with their signs.
#[inline]
pub(crate) fn word_product(left: i64, right: i64) -> i128
    ensures { result ≡ left *ℤ right }
{
    i128::from(left) * i128::from(right)
}

/// The sum, where its size is at most `most`.
#[inline]
pub(crate) fn bounded_sum(left: i128, right: i128, most: u128) -> Option<i128>
    requires { most < 2 ^ 127 }
    ensures { MatchOption result (most < nat_abs (left +ℤ right))
        (λ s. (s ≡ (left +ℤ right)) × (nat_abs (left +ℤ right) ≤ most)) }
{
    match left.checked_add(right) {
        Some(sum) => {
            if sum.unsigned_abs() <= most {
                Some(sum)
            } else {
                None
            }
        }
        None => None,
    }
}

/// The sum of two products with their signs, where the products and the sum are at most `most` in size.
#[inline]
pub(crate) fn bounded_cross_sum(
    left: i128,
    left_factor: u128,
    right: i128,
    right_factor: u128,
    most: u128,
) -> Option<i128>
    requires left_fits { left_factor < 2 ^ 127 }
    requires right_fits { right_factor < 2 ^ 127 }
    requires most { most < 2 ^ 127 }
    ensures { MatchOption result (IsCrossWide most (left *ℤ pos left_factor)
        (right *ℤ pos right_factor))
        (λ s. (s ≡ ((left *ℤ pos left_factor) +ℤ (right *ℤ pos right_factor))) ×
        IsCrossWithin most (left *ℤ pos left_factor) (right *ℤ pos right_factor)) }
{
    match bounded_signed_product(left, left_factor as i128, most) {
        Some(first) => match bounded_signed_product(right, right_factor as i128, most) {
            Some(second) => bounded_sum(first, second, most),
            None => None,
        },
        None => None,
    }
}
