//! Numbers with marks at the columns in which they aren't 0.
ghost use Rattle.std.specs.Prelude.{◌≡◌, ◌≢◌, ℕ, ℤ, ◌+◌, ◌*◌, ◌/◌, ◌%◌, ◌<◌, ◌≤◌, List, pos, length, map, min, bit_or, slice_index_or, slice_set, IfOk, true, false};
ghost use Rattle.std.specs.Int.{bit_at};
ghost use Rattle.cost_base.specs.Lists.{numbers_from};
ghost use Rattle.whole_numbers.specs.Lists.{number_at};
ghost use Rattle.integer_pivots.specs.Marks.{AreNumbersMarked, IsUnmarked};

use cost_base::OutOfMemory;
use std::alloc::Global;
use std::marker::Model;

/// A number for each column, and a mark at each column whose number isn't 0. So a walk from mark to mark passes zeros
/// alone by.
///
/// Contracts see the list of the numbers.
#[derive(Drop)]
pub struct MarkedNumbers {
    numbers: Vec<i64>,
    /// The marks of 64 columns each: the lowest bit is that of the first of them.
    marks: Vec<u64>,
}

impl Model for MarkedNumbers {
    ghost Value = { List ℤ };

    ghost view = { λ m. m.numbers.items };

    ghost invariant = { λ m. AreNumbersMarked m.numbers.items m.marks.items };
}

/// The column of a word's bit, where it is one of so many columns; else how many there are.
fn column_of(word: usize, bit: usize, width: usize) -> usize
    requires { word * 64 ≤ width }
    ensures { result ≡ min (word * 64 + bit) width }
{
    let first = word * 64;
    if bit < width - first {
        first + bit
    } else {
        width
    }
}

/// The marks of a word's columns in either of two lists.
fn in_either(first: &[u64], second: &[u64], word: usize) -> u64
    requires first { word < length first.now }
    requires second { word < length second.now }
    ensures { result ≡ bit_or (slice_index_or first.now word 0) (slice_index_or second.now word 0) }
{
    first[word] | second[word]
}

/// The first column from a word's first one on with a mark in either list; how many columns there are, where none has.
fn next_word(first: &[u64], second: &[u64], from: usize, width: usize) -> usize
    requires first { length first.now ≡ width / 64 + 1 }
    requires second { length second.now ≡ width / 64 + 1 }
    ensures within { result ≤ width }
    ensures from { min (from * 64) width ≤ result }
    ensures passed { (c : ℕ) → from * 64 ≤ c → c < result →
        IsUnmarked first.now c × IsUnmarked second.now c }
{
    for word in from..first.len() {
        let marks = in_either(first, second, word);
        if marks != 0 {
            return column_of(word, marks.trailing_zeros() as usize, width);
        }
    }
    width
}

/// The first column from one on with a mark in either list; how many columns there are, where none has.
fn next_marked(first: &[u64], second: &[u64], column: usize, width: usize) -> usize
    // Both lists have a bit for each column, and the column is one of them or that behind them.
    requires first { length first.now ≡ width / 64 + 1 }
    requires second { length second.now ≡ width / 64 + 1 }
    requires column { column ≤ width }

    // No column before the result has a mark in either list.
    ensures within { result ≤ width }
    ensures from { column ≤ result }
    ensures passed { (c : ℕ) → column ≤ c → c < result →
        IsUnmarked first.now c × IsUnmarked second.now c }
{
    let word = column / 64;
    let rest = in_either(first, second, word) >> (column % 64);
    if rest == 0 {
        return next_word(first, second, word + 1, width);
    }
    let bit = column % 64 + rest.trailing_zeros() as usize;
    column_of(word, bit, width)
}

/// Whether a mark stands at a column.
fn has_mark(marks: &[u64], column: usize) -> bool
    requires { column / 64 < length marks.now }
    ensures { result ≡ false → IsUnmarked marks.now column }
{
    (marks[column / 64] >> (column % 64)) & 1 == 1
}

/// Puts a mark at a column, or takes it away.
fn put_mark(marks: &mut Vec<u64>, column: usize, stands: bool)
    requires { column / 64 < length marks.old.items }
    ensures count { length marks.new.items ≡ length marks.old.items }
    ensures own { stands ≡ true →
        bit_at (slice_index_or marks.new.items (column / 64) 0) (column % 64) ≡ 1 }
    ensures others { (c : ℕ) → c ≢ column → IsUnmarked marks.new.items c →
        IsUnmarked marks.old.items c }
{
    let mark = 1u64 << (column % 64);
    if stands {
        marks[column / 64] |= mark;
    } else {
        marks[column / 64] &= !mark;
    }
}

impl MarkedNumbers {
    /// Zeros, so many. There is no mark.
    ///
    /// # Errors
    ///
    /// `OutOfMemory`.
    pub fn zeros(alloc: Global, width: usize) -> Result<MarkedNumbers, OutOfMemory>
        ensures { IfOk result (λ zeros. zeros ≡ map (λ place. pos 0) (numbers_from 0 width)) }
    {
        Ok(MarkedNumbers {
            numbers: vec![in alloc; 0; width]?,
            marks: vec![in alloc; 0; width / 64 + 1]?,
        })
    }

    /// The numbers, in the order of their columns.
    pub fn as_slice(&self) -> &[i64]
        ensures { result.now ≡ self.now }
    {
        self.numbers.as_slice()
    }

    /// The number at a column. Where no mark stands, the marks alone are read: they are the fewer bytes.
    pub fn at(&self, column: usize) -> i64
        requires { column < length self.now }
        ensures { result ≡ number_at self.now column }
    {
        if has_mark(self.marks.as_slice(), column) {
            self.numbers[column]
        } else {
            0
        }
    }

    /// Puts another number at a column.
    pub fn set(&mut self, column: usize, number: i64)
        requires { column < length self.old }
        ensures { self.new ≡ slice_set self.old column number }
    {
        self.numbers[column] = number;
        put_mark(&mut self.marks, column, number != 0);
    }

    /// The first column from one on whose number may be other than 0; how many columns there are, where all are 0.
    pub fn next(&self, column: usize) -> usize
        requires { column ≤ length self.now }
        ensures within { result ≤ length self.now }
        ensures from { column ≤ result }
        ensures passed { (c : ℕ) → column ≤ c → c < result → number_at self.now c ≡ pos 0 }
    {
        let marks = self.marks.as_slice();
        next_marked(marks, marks, column, self.numbers.len())
    }

    /// The first column from one on at which a number of either may be other than 0; how many columns there are, where
    /// there is none.
    pub fn next_of_both(&self, other: &MarkedNumbers, column: usize) -> usize
        requires long { length self.now ≡ length other.now }
        requires column { column ≤ length self.now }
        ensures within { result ≤ length self.now }
        ensures from { column ≤ result }
        ensures passed { (c : ℕ) → column ≤ c → c < result →
            (number_at self.now c ≡ pos 0) × (number_at other.now c ≡ pos 0) }
    {
        next_marked(
            self.marks.as_slice(),
            other.marks.as_slice(),
            column,
            self.numbers.len(),
        )
    }
}
