//! The columns of which one is chosen: those that lead latest, and of these those with the least numbers.
ghost use Rattle.std.specs.Prelude.{◌≡◌, ℕ, ◌+◌, ◌^◌, ◌<◌, ◌≤◌, pos, ◌<ℤ◌, length, take, vec_capacity, vec_len};
ghost use Rattle.std.specs.Ordering.{int_cmp};
ghost use Rattle.whole_numbers.specs.Lists.{number_at};
ghost use Rattle.cost_base.specs.Lists.{Has};
ghost use Rattle.integer_pivots.specs.Choices.{AreLatest, AreLeast, IsPositiveAt, crosswise};
ghost use Rattle.integer_pivots.specs.Numbers.{AllWithin};

use crate::marked::MarkedNumbers;
use std::cmp::Ordering;

/// Looks at one more column: where the line is positive in it, it joins those that lead latest so far, or takes their
/// place. Gives the variable at which those lead that are left.
fn put_later(
    left: &mut Vec<usize>,
    line: &[i64],
    leads: &[usize],
    column: usize,
    latest: usize,
) -> usize
    // The line has the column, and there is a lead for each of its columns.
    requires column { column < length line.now }
    requires leads { length leads.now ≡ length line.now }

    // `left` has those columns before this one that lead latest, and room for one more.
    requires room { vec_len left.old < vec_capacity left.old }
    requires before { AreLatest line.now leads.now column latest left.old.items }

    // Now it has those up to this column, at most one more than before, in the same room.
    ensures latest { AreLatest line.now leads.now (column + 1) result left.new.items }
    ensures count { vec_len left.new ≤ vec_len left.old + 1 }
    ensures room { vec_capacity left.new ≡ vec_capacity left.old }
{
    let lead = leads[column];
    if line[column] <= 0 || lead < latest {
        return latest;
    }
    if latest < lead {
        left.clear();
    }
    left.push_reserved(column);
    lead
}

/// Puts those of the columns in which the line is positive into `left` that lead latest, and gives the variable at
/// which they lead.
pub fn put_latest(left: &mut Vec<usize>, line: &MarkedNumbers, leads: &[usize]) -> usize
    requires leads { length leads.now ≡ length line.now }
    requires room { length line.now ≤ vec_capacity left.old }
    ensures latest { AreLatest line.now leads.now (length line.now) result left.new.items }
    ensures room { vec_capacity left.new ≡ vec_capacity left.old }
{
    left.clear();
    let mut latest = 0;
    let mut column = line.next(0);
    while column < line.as_slice().len() {
        latest = put_later(left, line.as_slice(), leads, column, latest);
        column = line.next(column + 1);
    }
    latest
}

/// How a variable's numbers in two columns stand to each other, each over the line's there, which is positive.
fn column_order(numbers: &[i64], line: &[i64], column: usize, other: usize) -> Ordering
    // There is a number for each column of the line, and all are at most 2^30 in size.
    requires long { length line.now ≤ length numbers.now }
    requires small { AllWithin (2 ^ 30) numbers.now }
    requires line { AllWithin (2 ^ 30) line.now }

    // The line has both columns, and is positive in the other one.
    requires column { column < length line.now }
    requires other { other < length line.now }
    requires positive { pos 0 <ℤ number_at line.now other }

    // The order is that of the products crosswise: each number times the line's at the other place.
    ensures { result ≡ int_cmp (crosswise numbers.now line.now column other)
        (crosswise numbers.now line.now other column) }
{
    let own = numbers[column];
    let others = numbers[other];
    if others == 0 {
        return own.cmp(&0);
    }
    let first = own * line[other];
    let second = others * line[column];
    first.cmp(&second)
}

/// Of some columns puts those to the front in which a variable's number, over the line's, is least, and tells how many
/// they are.
fn put_least(left: &mut [usize], numbers: &[i64], line: &[i64]) -> usize
    // There is a column, and the line is positive in each of them.
    requires some { 0 < length left.old }
    requires positive { (c : ℕ) → Has left.old c → IsPositiveAt line.now c }

    // There is a number for each column of the line, and all are at most 2^30 in size.
    requires long { length line.now ≤ length numbers.now }
    requires small { AllWithin (2 ^ 30) numbers.now }
    requires line { AllWithin (2 ^ 30) line.now }

    // At least one column comes to the front, and those in front share the least quotient.
    ensures some { (0 < result) × (result ≤ length left.old) }
    ensures least { AreLeast numbers.now line.now left.old (take result left.new) }
{
    let mut kept = 1;
    for index in 1..left.len() {
        let column = left[index];
        match column_order(numbers, line, column, left[0]) {
            Ordering::Less => {
                left[0] = column;
                kept = 1;
            }
            Ordering::Equal => {
                left[kept] = column;
                kept += 1;
            }
            Ordering::Greater => {}
        }
    }
    kept
}

/// Keeps of some columns those in which a variable's number, over the line's, is least.
pub fn keep_least(left: &mut Vec<usize>, numbers: &[i64], line: &[i64])
    // There is a column, and the line is positive in each of them.
    requires some { 0 < vec_len left.old }
    requires positive { (c : ℕ) → Has left.old.items c → IsPositiveAt line.now c }

    // There is a number for each column of the line, and all are at most 2^30 in size.
    requires long { length line.now ≤ length numbers.now }
    requires small { AllWithin (2 ^ 30) numbers.now }
    requires line { AllWithin (2 ^ 30) line.now }

    // Those that are left, one at least, share the least quotient; the list keeps its room.
    ensures some { 0 < vec_len left.new }
    ensures least { AreLeast numbers.now line.now left.old.items left.new.items }
    ensures room { vec_capacity left.new ≡ vec_capacity left.old }
{
    let kept = put_least(left.as_mut_slice(), numbers, line);
    left.truncate(kept);
}
