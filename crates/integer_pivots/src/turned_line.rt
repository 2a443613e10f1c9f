//! How a pivot turns one line.
ghost use Rattle.std.specs.Prelude.{◌≡◌, ℕ, ◌^◌, ◌*◌, ◌+◌, ◌<◌, ◌≤◌, ◌↔◌, pos, ◌-ℤ◌, ◌*ℤ◌, ◌<ℤ◌, ◌≤ℤ◌, nat_abs, length, IsTrue, MatchOption, vec_capacity};
ghost use Prim.Native.Nat.{◌∣◌};
ghost use Rattle.whole_numbers.specs.Fractions.{gcd, lcm};
ghost use Rattle.whole_numbers.specs.Lists.{number_at};
ghost use Rattle.integer_pivots.specs.Lines.{IsInLowestTerms, IsLine};
ghost use Rattle.integer_pivots.specs.Numbers.{AllWithin};
ghost use Rattle.integer_pivots.specs.Reciprocals.{ArePutOver, IsReciprocal};
ghost use Rattle.integer_pivots.specs.Turns.{AreNonZeros, IsAtPivot, IsTurnedLine, IsTurnedOver, IsTurning, MayLineTurn, StaysSmall, turn_at, turn_by, turned_number};

use crate::bounds::{ENTRY_LIMIT, greater_size, greatest};
use crate::line::{Line, common_with, over};
use crate::marked::MarkedNumbers;
use crate::reciprocal::Divisor;

/// How a line turns: what it is multiplied by, and how many times the entering form's line is taken away then.
#[derive(Clone, Copy)]
pub struct Turn {
    /// What the line and its denominator are multiplied by; it is positive.
    pub multiplier: i64,
    /// How many times the entering line's numbers are taken away.
    pub factor: i64,
}

/// The turn of a line with this number at the pivot's column.
pub fn turn_of(number: i64, pivot: i64) -> Turn
    // The number and the pivot are at most 2^30 in size, and the pivot is positive.
    requires number { nat_abs number ≤ 2 ^ 30 }
    requires pivot { (pos 0 <ℤ pivot) × (pivot ≤ℤ pos (2 ^ 30)) }

    // Multiplier and factor are pivot and number over what these have in common, so no greater.
    ensures turn { result ≡ turn_by number pivot }
    ensures multiplier { (pos 0 <ℤ result.multiplier) × (result.multiplier ≤ℤ pivot) }
    ensures factor { nat_abs result.factor ≤ nat_abs number }

    // The multiplier times the number is the factor times the pivot, so that the two cancel.
    ensures level { (result.multiplier *ℤ number) ≡ (result.factor *ℤ pivot) }
{
    if pivot == 1 || number == 0 {
        return Turn {
            multiplier: 1,
            factor: number,
        };
    }
    let common = common_with(number, pivot);
    Turn {
        multiplier: over(pivot, common),
        factor: over(number, common),
    }
}

/// The least common multiple of two denominators, where it is at most 2^30.
pub fn common_multiple(first: i64, second: i64) -> Option<i64>
    requires first { (pos 0 <ℤ first) × (first ≤ℤ pos (2 ^ 30)) }
    requires second { (pos 0 <ℤ second) × (second ≤ℤ pos (2 ^ 60)) }
    ensures { MatchOption result (2 ^ 30 < lcm (nat_abs first) (nat_abs second))
        (λ common. (pos 0 <ℤ common) × (nat_abs common ≡ lcm (nat_abs first) (nat_abs second)) ×
        (common ≤ℤ pos (2 ^ 30))) }
{
    if ENTRY_LIMIT < second {
        return None;
    }
    let common = over(first, common_with(first, second)) * second;
    if ENTRY_LIMIT < common {
        return None;
    }
    Some(common)
}

/// Puts the columns in which a line isn't 0 into `touched`, in rising order.
pub fn put_touched(touched: &mut Vec<usize>, line: &MarkedNumbers)
    requires room { length line.now ≤ vec_capacity touched.old }
    ensures touched { AreNonZeros line.now (length line.now) touched.new.items }
    ensures room { vec_capacity touched.new ≡ vec_capacity touched.old }
{
    touched.clear();
    let mut column = line.next(0);
    while column < line.as_slice().len() {
        touched.push_reserved(column);
        column = line.next(column + 1);
    }
}

/// Takes a multiple of a line's numbers away, at the columns in which it isn't 0.
fn take_away(numbers: &mut MarkedNumbers, factor: i64, line: &[i64], touched: &[usize])
    // Both lists have one length, and their numbers are so small that the differences fit 64 bits.
    requires long { length numbers.old ≡ length line.now }
    requires sizes { AllWithin (2 ^ 61) numbers.old }
    requires factor { nat_abs factor ≤ 2 ^ 30 }
    requires line { AllWithin (2 ^ 30) line.now }

    // Outside the touched columns the line is 0, so nothing is to be taken away there.
    requires touched { AreNonZeros line.now (length line.now) touched.now }

    // Each number is less by the factor times the line's, in a touched column or not.
    ensures count { length numbers.new ≡ length numbers.old }
    ensures each { (c : ℕ) → c < length numbers.old → number_at numbers.new c ≡
        (number_at numbers.old c -ℤ (factor *ℤ number_at line.now c)) }
{
    for index in 0..touched.len() {
        let column = touched[index];
        let number = numbers.as_slice()[column];
        numbers.set(column, number - factor * line[column]);
    }
}

/// Multiplies the first numbers, so many.
fn multiply_first(numbers: &mut MarkedNumbers, count: usize, multiplier: i64)
    requires count { count ≤ length numbers.old }
    requires sizes { (c : ℕ) → c < count →
        nat_abs (number_at numbers.old c) * nat_abs multiplier ≤ 2 ^ 30 }
    ensures long { length numbers.new ≡ length numbers.old }
    ensures first { (c : ℕ) → c < count → number_at numbers.new c ≡
        (multiplier *ℤ number_at numbers.old c) }
    ensures others { (c : ℕ) → count ≤ c → number_at numbers.new c ≡ number_at numbers.old c }
{
    let mut column = numbers.next(0);
    while column < count {
        let number = numbers.as_slice()[column];
        numbers.set(column, multiplier * number);
        column = numbers.next(column + 1);
    }
}

/// Puts a number at a column, over what it has in common with the divisor over which the numbers before it stand. They
/// stand over that common part then, too. Gives it.
fn put_over_common(
    numbers: &mut MarkedNumbers,
    column: usize,
    number: i64,
    part: Divisor,
) -> Divisor
    // The number is small, and so are those before the column, each times the divisor.
    requires part { IsReciprocal part }
    requires column { column < length numbers.old }
    requires number { nat_abs number ≤ 2 ^ 30 }
    requires before { (c : ℕ) → c < column →
        nat_abs (number_at numbers.old c) * nat_abs part.number ≤ 2 ^ 30 }

    // The result is what the number and the divisor have in common.
    ensures reciprocal { IsReciprocal result }
    ensures common { result.number ≡ pos (gcd (nat_abs number) (nat_abs part.number)) }

    // The number stands over it, and those before the column stand for the same as before.
    ensures numbers { ArePutOver column number numbers.old part.number
        numbers.new result.number }
{
    if part.number == 1 {
        numbers.set(column, number);
        return part;
    }
    if part.divides(number) {
        numbers.set(column, part.over(number));
        return part;
    }
    let common = part.shared_with(number);
    multiply_first(numbers, column, common.over(part.number));
    numbers.set(column, common.over(number));
    common
}

impl Turn {
    /// Whether numbers of at most one size, in a line that is turned, and of another, in the entering one, stay small.
    fn keeps(self, most: i64, entering: i64) -> bool
        requires multiplier { (pos 0 <ℤ self.multiplier) × (self.multiplier ≤ℤ pos (2 ^ 30)) }
        requires factor { nat_abs self.factor ≤ 2 ^ 30 }
        requires most { (pos 0 ≤ℤ most) × (most ≤ℤ pos (2 ^ 30)) }
        requires entering { (pos 0 ≤ℤ entering) × (entering ≤ℤ pos (2 ^ 30)) }
        ensures { IsTrue result ↔ (nat_abs self.multiplier * nat_abs most +
            nat_abs self.factor * nat_abs entering ≤ 2 ^ 30) }
    {
        self.multiplier * most + self.factor.abs() * entering <= ENTRY_LIMIT
    }

    /// A size that no number passes in a turn, where those of the line and of the entering one don't pass these, nor
    /// the entering line's denominator this one.
    fn most_after(self, most: i64, entering: i64, denominator: i64) -> i64
        // None of the five numbers passes 2^30 in size, so what is made of them fits 64 bits.
        requires multiplier { nat_abs self.multiplier ≤ 2 ^ 30 }
        requires factor { nat_abs self.factor ≤ 2 ^ 30 }
        requires most { nat_abs most ≤ 2 ^ 30 }
        requires entering { nat_abs entering ≤ 2 ^ 30 }
        requires denominator { nat_abs denominator ≤ 2 ^ 30 }

        // The result covers what becomes of numbers of these sizes at the other columns.
        ensures from_zero { pos 0 ≤ℤ result }
        ensures numbers { nat_abs self.multiplier * nat_abs most + nat_abs self.factor *
            nat_abs entering ≤ nat_abs result }

        // It covers the number at the pivot's column too: the factor times the denominator.
        ensures own { nat_abs self.factor * nat_abs denominator ≤ nat_abs result }
    {
        let numbers = (self.multiplier * most).abs() + (self.factor * entering).abs();
        greater_size(numbers, self.factor * denominator)
    }

    /// A small number that has turned, by the entering line's number there.
    fn turned_small(self, number: i64, entering: i64) -> i64
        requires { nat_abs self.multiplier * nat_abs number + nat_abs self.factor *
            nat_abs entering ≤ 2 ^ 30 }
        ensures turned { result ≡ turned_number self number entering }
        ensures size { nat_abs result ≤ 2 ^ 30 }
    {
        self.multiplier * number - self.factor * entering
    }

    /// Turns numbers by those of the entering line, each over what it has in common with all of them and with a
    /// divisor. Gives that common part.
    fn turn_over(
        self,
        numbers: &mut MarkedNumbers,
        entering: &MarkedNumbers,
        part: Divisor,
    ) -> Divisor
        // Both lists have one length, and their numbers stay small in the turn.
        requires long { length numbers.old ≡ length entering.now }
        requires part { IsReciprocal part }
        requires small { (c : ℕ) → c < length numbers.old →
            nat_abs self.multiplier * nat_abs (number_at numbers.old c) +
            nat_abs self.factor * nat_abs (number_at entering.now c) ≤ 2 ^ 30 }

        // Each number has turned, and stands over the result.
        ensures count { length numbers.new ≡ length numbers.old }
        ensures each { (c : ℕ) → c < length numbers.old →
            (number_at numbers.new c *ℤ result.number) ≡
            turned_number self (number_at numbers.old c) (number_at entering.now c) }

        // The result goes into the divisor, and whatever goes into that and all turned numbers
        // goes into it.
        ensures reciprocal { IsReciprocal result }
        ensures divides { nat_abs result.number ∣ nat_abs part.number }
        ensures greatest { (d : ℕ) → d ∣ nat_abs part.number →
            ((c : ℕ) → c < length numbers.old → d ∣ nat_abs
            (turned_number self (number_at numbers.old c) (number_at entering.now c))) →
            d ∣ nat_abs result.number }
    {
        let mut part = part;
        let line = entering.as_slice();
        let mut column = numbers.next_of_both(entering, 0);
        while column < line.len() {
            let number = self.turned_small(numbers.as_slice()[column], line[column]);
            part = put_over_common(numbers, column, number, part);
            column = numbers.next_of_both(entering, column + 1);
        }
        part
    }

    /// A number that has turned, by the entering line's number there.
    fn turned(self, number: i64, entering: i64) -> i128
        requires multiplier { nat_abs self.multiplier ≤ 2 ^ 30 }
        requires factor { nat_abs self.factor ≤ 2 ^ 30 }
        ensures { result ≡ turned_number self number entering }
    {
        i128::from(self.multiplier) * i128::from(number)
            - i128::from(self.factor) * i128::from(entering)
    }
}

impl Line {
    /// Whether the numbers of a line stay small in a turn.
    pub fn stays_small(&self, turn: Turn, entering: &Line) -> bool
        requires line { IsLine self.now }
        requires entering { IsLine entering.now }
        requires multiplier { (pos 0 <ℤ turn.multiplier) × (turn.multiplier ≤ℤ pos (2 ^ 30)) }
        requires factor { nat_abs turn.factor ≤ 2 ^ 30 }
        ensures { IsTrue result ↔ StaysSmall turn self.now entering.now }
    {
        if !turn.keeps(0, entering.denominator) {
            return false;
        }
        if turn.keeps(self.reach, entering.reach) {
            return true;
        }
        turn.keeps(
            greatest(self.numbers.as_slice()),
            greatest(entering.numbers.as_slice()),
        )
    }

    /// The constant of a line that has turned, over the denominator times the multiplier.
    pub fn constant_after(&self, turn: Turn, entering: &Line) -> i128
        requires multiplier { nat_abs turn.multiplier ≤ 2 ^ 30 }
        requires factor { nat_abs turn.factor ≤ 2 ^ 30 }
        ensures { result ≡ turned_number turn self.now.constant entering.now.constant }
    {
        turn.turned(self.constant, entering.constant)
    }

    /// Turns a line at a pivot's column, and brings it into lowest terms.
    pub fn turn(&mut self, entering: &Line, column: usize, touched: &[usize], turn: Turn)
        // The entering line has a positive pivot at the column, and is 0 outside the touched ones.
        requires pivot { IsAtPivot column entering.now self.old }
        requires touched { AreNonZeros entering.now.numbers (length entering.now.numbers)
            touched.now }

        // The turn is the one that this pivot makes of the line, and the numbers stay small in it.
        requires turn { turn ≡ turn_at entering.now column self.old }
        requires may { MayLineTurn turn self.old entering.now }

        // The line has turned, and its numbers at the columns are at most 2^30 in size again.
        ensures line { IsLine self.new }
        ensures turned { IsTurnedLine turn column entering.now self.old self.new }

        // It's in lowest terms, over a divisor of the old denominator times the multiplier.
        ensures divides { nat_abs self.new.denominator ∣
            (nat_abs self.old.denominator * nat_abs turn.multiplier) }
        ensures lowest { IsInLowestTerms self.new }
    {
        let most = turn.most_after(self.reach, entering.reach, entering.denominator);
        self.constant = self.constant_after(turn, entering) as i64;
        self.denominator *= turn.multiplier;
        let part = self.turn_numbers(entering, column, touched, turn);
        self.reach = self.reach_by(most / part);
    }

    /// Turns the numbers of a line whose denominator and constant have turned, and brings it into lowest terms. Gives
    /// what went out. Over 1 nothing does, and the numbers in the touched columns alone change.
    fn turn_numbers(&mut self, entering: &Line, column: usize, touched: &[usize], turn: Turn) -> i64
        requires turning { IsTurning turn column entering.now self.old }
        requires touched { AreNonZeros entering.now.numbers (length entering.now.numbers)
            touched.now }
        ensures turned { IsTurnedOver turn column entering.now self.old self.new result }
        ensures lowest { IsInLowestTerms self.new }
    {
        if self.denominator == 1 {
            let line = entering.numbers.as_slice();
            take_away(&mut self.numbers, turn.factor, line, touched);
            self.numbers.set(column, turn.factor * entering.denominator);
            return 1;
        }
        self.turn_and_lower(entering, column, turn)
    }

    /// Turns the numbers of a line whose denominator and constant have turned, in one walk over all of them, and brings
    /// it into lowest terms. Gives what went out.
    fn turn_and_lower(&mut self, entering: &Line, column: usize, turn: Turn) -> i64
        requires turning { IsTurning turn column entering.now self.old }
        ensures turned { IsTurnedOver turn column entering.now self.old self.new result }
        ensures lowest { IsInLowestTerms self.new }
    {
        let own = turn.factor * entering.denominator;
        let common = common_with(self.constant, self.denominator);
        let part = Divisor::new(common).shared_with(own);
        let part = turn.turn_over(&mut self.numbers, &entering.numbers, part);
        self.denominator = part.over(self.denominator);
        self.constant = part.over(self.constant);
        self.numbers.set(column, part.over(own));
        part.number
    }
}
