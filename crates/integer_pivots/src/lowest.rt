//! How a pivot turns a line whose numbers are large on the way, and small in lowest terms.
ghost use Rattle.std.specs.Prelude.{◌≡◌, ◌^◌, ◌<◌, ◌≤◌, ◌↔◌, nat_abs, length, IsTrue};
ghost use Rattle.whole_numbers.specs.Lists.{number_at};
ghost use Rattle.integer_pivots.specs.Lines.{IsLine};
ghost use Rattle.integer_pivots.specs.Turns.{AreSmallAfter, IsAtPivot, IsLowestAfter, IsPartAfter, IsTurnedLine, MayTurnTo, turned_entry, turn_at};

use crate::bounds::{ENTRY_LIMIT, greatest, within};
use crate::line::{Line, common_with, over};
use crate::turned_line::Turn;
use whole_numbers::greatest_common_divisor;

/// What a line that has turned comes to in lowest terms, but for its numbers at the columns.
#[derive(Clone, Copy)]
pub struct Lowest {
    /// What the denominator, the constant and all numbers had in common; it is positive.
    pub part: i64,
    /// The denominator.
    pub denominator: i64,
    /// The constant.
    pub constant: i128,
}

impl Line {
    /// The line's number at a column once it has turned at the pivot's, over the denominator times the multiplier.
    fn turned_entry(&self, entering: &Line, pivots: usize, turn: Turn, column: usize) -> i64
        // Both lines have a number at the column, and the line's is at most 2^30 in size, as those
        // of the entering line are.
        requires inside { column < length self.now.numbers }
        requires across { column < length entering.now.numbers }
        requires small { nat_abs (number_at self.now.numbers column) ≤ 2 ^ 30 }
        requires entering { IsLine entering.now }

        // So are the multiplier and the factor, so the difference of the products fits 64 bits.
        requires multiplier { nat_abs turn.multiplier ≤ 2 ^ 30 }
        requires factor { nat_abs turn.factor ≤ 2 ^ 30 }
        ensures value { result ≡ turned_entry turn pivots entering.now self.now column }
        ensures size { nat_abs result ≤ 2 ^ 61 }
    {
        if column == pivots {
            return turn.factor * entering.denominator;
        }
        turn.multiplier * self.numbers.as_slice()[column]
            - turn.factor * entering.numbers.as_slice()[column]
    }

    /// What the denominator, the constant and all numbers of the line have in common once it has turned.
    fn part_after(&self, entering: &Line, column: usize, turn: Turn) -> i64
        requires pivot { IsAtPivot column entering.now self.now }
        requires turn { turn ≡ turn_at entering.now column self.now }
        ensures { IsPartAfter turn column entering.now self.now result }
    {
        let constant = self.constant_after(turn, entering).unsigned_abs();
        let denominator = self.denominator * turn.multiplier;
        let mut part = greatest_common_divisor(
            constant,
            u128::from(denominator.unsigned_abs()),
        ) as i64;
        for c in 0..self.numbers.as_slice().len() {
            part = common_with(self.turned_entry(entering, column, turn, c), part);
        }
        part
    }

    /// What the line comes to in a turn, in lowest terms.
    pub fn lowest_after(&self, entering: &Line, column: usize, turn: Turn) -> Lowest
        requires pivot { IsAtPivot column entering.now self.now }
        requires turn { turn ≡ turn_at entering.now column self.now }
        ensures lowest { IsLowestAfter turn column entering.now self.now result }
        ensures size { nat_abs result.denominator ≤ 2 ^ 60 }
    {
        let part = self.part_after(entering, column, turn);
        Lowest {
            part,
            denominator: over(self.denominator * turn.multiplier, part),
            constant: self.constant_after(turn, entering) / i128::from(part),
        }
    }

    /// Whether the numbers that the line comes to in lowest terms are at most 2^30 in size.
    pub fn is_small_at(&self, entering: &Line, column: usize, turn: Turn, lowest: Lowest) -> bool
        requires pivot { IsAtPivot column entering.now self.now }
        requires turn { turn ≡ turn_at entering.now column self.now }
        requires lowest { IsLowestAfter turn column entering.now self.now lowest }
        ensures { IsTrue result ↔ AreSmallAfter turn column entering.now self.now lowest.part }
    {
        for c in 0..self.numbers.as_slice().len() {
            let number = self.turned_entry(entering, column, turn, c);
            if !within(over(number, lowest.part), ENTRY_LIMIT) {
                return false;
            }
        }
        true
    }

    /// Turns the line to what it comes to in lowest terms.
    pub fn turn_to(&mut self, entering: &Line, column: usize, turn: Turn, lowest: Lowest)
        // The entering line has a positive pivot at the column, and the turn is the one that it
        // makes of the line.
        requires pivot { IsAtPivot column entering.now self.old }
        requires turn { turn ≡ turn_at entering.now column self.old }

        // That is what the line comes to, and it is within the bounds.
        requires lowest { IsLowestAfter turn column entering.now self.old lowest }
        requires small { MayTurnTo turn column entering.now self.old lowest }

        // The line has turned, and is small, over the denominator and with the constant that were
        // told.
        ensures line { IsLine self.new }
        ensures turned { IsTurnedLine turn column entering.now self.old self.new }
        ensures denominator { self.new.denominator ≡ lowest.denominator }
        ensures constant { self.new.constant ≡ lowest.constant }
    {
        for c in 0..self.numbers.as_slice().len() {
            let number = self.turned_entry(entering, column, turn, c);
            self.numbers.set(c, over(number, lowest.part));
        }
        self.denominator = lowest.denominator;
        self.constant = lowest.constant as i64;
        self.reach = greatest(self.numbers.as_slice());
    }
}
