//! Lists of columns that rise, each with its fraction.
ghost use Rattle.std.specs.Prelude.{◌≡◌, ◌≢◌, ℕ, ◌<◌, ◌≤◌, [], length, map, min, nat_abs, pos, ◌-ℤ◌, ◌*ℤ◌, vec_len, IfOk, IfErr, IfSome, OnOk};
ghost use Rattle.std.specs.Vec.{vec_capacity};
ghost use Rattle.whole_numbers.specs.Fractions.{minus, times, whole};
ghost use Rattle.fraction_lines.specs.TableLines.{IsTableNumber, fraction_at, nothing};
ghost use Rattle.fraction_lines.specs.Entries.{AreRising, AreLineEntries, HasLineEntries, IsCrossingTooWide, IsDivisionTooWide, IsHalfOf, IsMade};
ghost use Rattle.fraction_lines.specs.Entries.{IsPassing, IsPlaceOf, IsPutAtEnd, IsQuotientStep, IsTermStep, after_column};
ghost use Rattle.fraction_lines.specs.Entries.{crossed_at, divided_at, head_column, head_fraction, replaced};

use wide_fraction::{Frac, Top, Wide, div, mul, sub};

/// How far a line goes: its columns are below the width, and its numbers are within the top.
#[derive(Clone, Copy)]
pub struct Extent {
    /// How many columns a line has.
    pub width: u32,
    /// The greatest size of a whole number of a step.
    pub top: Top,
}

/// Puts a fraction at the end, unless it is 0. There is room for it.
pub fn put_entry(entries: &mut Vec<(u32, Frac)>, column: u32, value: Frac)
    requires room { vec_len entries.old < vec_capacity entries.old }
    ensures put { IsPutAtEnd entries.old.items column value entries.new.items }
    ensures capacity { vec_capacity entries.old ≤ vec_capacity entries.new }
{
    if value.is_zero() {
        return;
    }
    match entries.push((column, value)) {
        Ok(()) => {}
        // There is room for one more, so the push asks for no memory.
        Err(_) => unreachable!(),
    }
}

/// The next column of a list, or `past` at its end.
fn next_column(entries: &[(u32, Frac)], past: u32) -> u32
    ensures { result ≡ head_column entries.now past }
{
    match entries {
        [] => past,
        [(column, _), ..] => *column,
    }
}

/// The fraction of a column that isn't after the next one, and what follows it.
fn take_at(entries: &[(u32, Frac)], column: u32) -> (Frac, &[(u32, Frac)])
    ensures fraction { result.0 ≡ head_fraction entries.now column }
    ensures rest { result.1.now ≡ after_column entries.now column }
{
    match entries {
        [(at, value), rest @ ..] if *at == column => (*value, rest),
        _ => (Frac::whole(0), entries),
    }
}

/// The next column of two lists, or `past` at the end of both.
fn next_of(first: &[(u32, Frac)], second: &[(u32, Frac)], past: u32) -> u32
    ensures { result ≡ min (head_column first.now past) (head_column second.now past) }
{
    next_column(first, past).min(next_column(second, past))
}

/// The number of a whole fraction, where it is a word.
#[inline]
fn word_of(value: Frac) -> Option<i64>
    ensures { IfSome result (λ n. value ≡ whole n) }
{
    if value.denominator() != 1 {
        return None;
    }
    match i64::try_from(value.numerator()) {
        Ok(word) => Some(word),
        Err(_) => None,
    }
}

/// The product of two words, where its size is at most `most`.
#[inline]
fn bounded_product(left: i64, right: i64, most: u128) -> Option<i128>
    ensures { IfSome result (λ p. p ≡ left *ℤ right) }
{
    let product = i128::from(left) * i128::from(right);
    if product.unsigned_abs() <= most {
        Some(product)
    } else {
        None
    }
}

/// The difference, where its size is at most `most`.
#[inline]
fn bounded_difference(left: i128, right: i128, most: u128) -> Option<i128>
    ensures { IfSome result (λ d. (d ≡ left -ℤ right) × (nat_abs d ≤ most)) }
{
    match left.checked_sub(right) {
        Some(difference) => {
            if difference.unsigned_abs() <= most {
                Some(difference)
            } else {
                None
            }
        }
        None => None,
    }
}

/// A word less the product of two, where both this and the product are within `top`.
#[inline]
fn word_crossed(old: i64, factor: i64, quotient: i64, top: Top) -> Option<Frac>
    ensures { IfSome result (λ q. (q ≡ minus (whole old) (times (whole factor) (whole quotient))) ×
        IsTableNumber top q) }
{
    // For the prover: that `top` isn't 0 is known once it is read.
    let _ = top.value();
    match bounded_product(factor, quotient, top.size()) {
        Some(product) => match bounded_difference(i128::from(old), product, top.size()) {
            Some(value) => Some(Frac::whole_wide(value)),
            None => None,
        },
        None => None,
    }
}

/// A fraction less the factor times another one, where all three are words and no number on the way passes `top`.
#[inline]
fn short_crossed(old: Frac, factor: Frac, quotient: Frac, top: Top) -> Option<Frac>
    ensures { IfSome result (λ q. (q ≡ minus old (times factor quotient)) × IsTableNumber top q) }
{
    match (word_of(old), word_of(factor), word_of(quotient)) {
        (Some(old), Some(factor), Some(quotient)) => word_crossed(old, factor, quotient, top),
        _ => None,
    }
}

/// A fraction less the factor times another one, by the short way where there is one.
pub fn crossed(old: Frac, factor: Frac, quotient: Frac, top: Top) -> Result<Frac, Wide>
    // All three are numbers of the table.
    requires old { IsTableNumber top old }
    requires factor { IsTableNumber top factor }
    requires quotient { IsTableNumber top quotient }

    // On Ok the difference is exact, and a number of the table.
    ensures exact { IfOk result (λ q. q ≡ minus old (times factor quotient)) }
    ensures number { IfOk result (λ q. IsTableNumber top q) }

    // On Err the step is the product or the difference, and makes a number that passes the top.
    ensures step { IfErr result (λ wide. IsTermStep old factor quotient wide) }
    ensures passes { IfErr result (λ wide. IsPassing top wide) }
{
    if let Some(value) = short_crossed(old, factor, quotient, top) {
        return Ok(value);
    }
    if quotient.is_zero() {
        return Ok(old);
    }
    sub(old, mul(factor, quotient, top)?, top)
}

/// Makes the list that has at each column the fraction of `olds` less the factor times that of `quotients`. A fraction
/// of `olds` with no other one at its column is copied.
pub fn cross_entries(
    olds: &[(u32, Frac)],
    factor: Frac,
    quotients: &[(u32, Frac)],
    extent: Extent,
    made: &mut Vec<(u32, Frac)>,
) -> Result<(), Wide>
    // Both lists are entries of lines of this extent, and the factor is a number of the table.
    requires olds { AreLineEntries extent.width extent.top olds.now }
    requires quotients { AreLineEntries extent.width extent.top quotients.now }
    requires factor { IsTableNumber extent.top factor }

    // The new list is empty, with room for all columns.
    requires empty { made.old.items ≡ [] }
    requires room { extent.width ≤ vec_capacity made.old }

    // On Ok each column has its difference; in any case the list is of entries of a line.
    ensures made { OnOk result (IsMade extent.width (crossed_at factor) olds.now quotients.now
        made.new.items) }
    ensures entries { HasLineEntries extent.width extent.top made.new }

    // On Err the step is one for some column, and makes a number that passes the top.
    ensures wide { IfErr result (IsCrossingTooWide extent.width extent.top factor olds.now
        quotients.now) }
{
    let width = extent.width;
    let top = extent.top;
    let mut olds_left = olds;
    let mut quotients_left = quotients;
    'columns: loop {
        let column = next_of(olds_left, quotients_left, width);
        if width <= column {
            return Ok(());
        }
        let (old, olds_rest) = take_at(olds_left, column);
        if column < next_column(quotients_left, width) {
            put_entry(made, column, old);
            olds_left = olds_rest;
        } else {
            let (quotient, quotients_rest) = take_at(quotients_left, column);
            let value = crossed(old, factor, quotient, top)?;
            put_entry(made, column, value);
            olds_left = olds_rest;
            quotients_left = quotients_rest;
        }
    }
}

/// A fraction over the divisor, and 0 at the column that is left out.
fn quotient_at(
    left_out: u32,
    divisor: Frac,
    column: u32,
    value: Frac,
    top: Top,
) -> Result<Frac, Wide>
    // Both are numbers of the table, and the divisor isn't 0.
    requires value { IsTableNumber top value }
    requires divisor { IsTableNumber top divisor }
    requires not_zero { divisor.numerator ≢ pos 0 }

    // On Ok the quotient, or 0 at the column that is left out, is exact and a number of the table.
    ensures exact { IfOk result (λ q. q ≡ divided_at left_out divisor column value nothing) }
    ensures number { IfOk result (λ q. IsTableNumber top q) }

    // On Err the step is the division, and makes a number that passes the top.
    ensures step { IfErr result (λ wide. IsQuotientStep value divisor wide) }
    ensures passes { IfErr result (λ wide. IsPassing top wide) }
{
    if column == left_out {
        return Ok(Frac::whole(0));
    }
    div(value, divisor, top)
}

/// Makes the list that has at each column the fraction of `olds` over the divisor, and 0 at the column that
/// is left out.
pub fn divide_entries(
    olds: &[(u32, Frac)],
    divisor: Frac,
    left_out: u32,
    extent: Extent,
    made: &mut Vec<(u32, Frac)>,
) -> Result<(), Wide>
    // The list is of entries of a line, and the divisor is a number of the table that isn't 0.
    requires olds { AreLineEntries extent.width extent.top olds.now }
    requires divisor { IsTableNumber extent.top divisor }
    requires not_zero { divisor.numerator ≢ pos 0 }

    // The new list is empty, with room for all columns.
    requires empty { made.old.items ≡ [] }
    requires room { extent.width ≤ vec_capacity made.old }

    // On Ok each column has its quotient; in any case the list is of entries of a line.
    ensures made { OnOk result (IsMade extent.width (divided_at left_out divisor) olds.now []
        made.new.items) }
    ensures entries { HasLineEntries extent.width extent.top made.new }

    // On Err the step divides some column, and makes a number that passes the top.
    ensures wide { IfErr result (IsDivisionTooWide extent.width extent.top divisor olds.now) }
{
    let width = extent.width;
    let top = extent.top;
    let mut left = olds;
    'columns: loop {
        let column = next_column(left, width);
        if width <= column {
            return Ok(());
        }
        let (value, rest) = take_at(left, column);
        let quotient = quotient_at(left_out, divisor, column, value, top)?;
        put_entry(made, column, quotient);
        left = rest;
    }
}

/// What is left of the list around a column, found by halving: at most one pair, and before it how many stand in front.
#[inline]
fn halved(entries: &[(u32, Frac)], column: u32) -> (usize, &[(u32, Frac)])
    requires { AreRising entries.now }
    ensures half { IsHalfOf entries.now column result.0 result.1.now }
    ensures few { length result.1.now ≤ 1 }
{
    let mut place = 0;
    let mut left = entries;
    'halves: while 1 < left.len() {
        let middle = left.len() / 2;
        let (first, second) = left.split_at(middle);
        if column < next_column(second, column) {
            left = first;
        } else {
            left = second;
            place += middle;
        }
    }
    (place, left)
}

/// The fraction of a column.
#[inline(never)]
pub fn find_fraction(entries: &[(u32, Frac)], column: u32) -> Frac
    requires { AreRising entries.now }
    ensures { result ≡ fraction_at entries.now column }
{
    let (_, left) = halved(entries, column);
    take_at(left, column).0
}

/// The pair with another fraction, where it is that of the column.
fn replaced(entry: (u32, Frac), column: u32, value: Frac) -> (u32, Frac)
    ensures { result ≡ replaced column value entry }
{
    let (at, old) = entry;
    if at == column { (at, value) } else { (at, old) }
}

/// The place before which and behind which the list doesn't have the column.
fn place_of(entries: &[(u32, Frac)], column: u32) -> usize
    requires { AreRising entries.now }
    ensures { IsPlaceOf entries.now column result }
{
    let (place, _) = halved(entries, column);
    place
}

/// Puts another fraction at a column.
pub fn replace_fraction(entries: &mut [(u32, Frac)], column: u32, value: Frac)
    requires { AreRising entries.old }
    ensures { entries.new ≡ map (replaced column value) entries.old }
{
    let place = place_of(entries, column);
    if place < entries.len() {
        let entry = entries[place];
        entries[place] = replaced(entry, column, value);
    }
}
