//! The lines of the forms of bounds: that of either bound, and how far a constant moves with a bound.
ghost use Rattle.std.specs.Prelude.{◌≡◌, ℕ, ◌^◌, ◌<◌, pos, ◌*ℤ◌, ◌<ℤ◌, ◌≤ℤ◌, nat_abs, length};
ghost use Rattle.whole_numbers.specs.Lists.{number_at};
ghost use Rattle.integer_pivots.specs.Lines.{IsLine, step_of};

use crate::bounds::greatest;
use crate::line::Line;
use crate::multiples::clear;

/// Puts a line in place of another, with another sign and another constant.
pub fn put_signed_line(into: &mut Line, line: &Line, sign: i64, constant: i64)
    // Both lines have as many columns, and the sign is 1 or -1.
    requires line { IsLine line.now }
    requires count { length into.old.numbers ≡ length line.now.numbers }
    requires sign { nat_abs sign ≡ 1 }

    // Each number is the line's times the sign, over the same denominator.
    ensures count { length into.new.numbers ≡ length line.now.numbers }
    ensures numbers { (c : ℕ) → c < length line.now.numbers → number_at into.new.numbers c ≡
        (sign *ℤ number_at line.now.numbers c) }
    ensures denominator { into.new.denominator ≡ line.now.denominator }

    // The constant is the one given, and the reach stays, since the sizes of numbers do.
    ensures constant { into.new.constant ≡ constant }
    ensures reach { into.new.reach ≡ line.now.reach }
{
    into.denominator = line.denominator;
    into.constant = constant;
    into.reach = line.reach;
    clear(&mut into.numbers);
    let numbers = line.numbers.as_slice();
    let mut column = line.numbers.next(0);
    while column < numbers.len() {
        into.numbers.set(column, sign * numbers[column]);
        column = line.numbers.next(column + 1);
    }
}

/// How far a line's constant can move where a bound moves by 1.
pub fn step(line: &Line) -> i64
    requires line { IsLine line.now }
    ensures exact { result ≡ pos (step_of line.now) }
    ensures size { (pos 0 <ℤ result) × (result ≤ℤ pos (2 ^ 30)) }
{
    let most = greatest(line.numbers.as_slice());
    if most < line.denominator {
        line.denominator
    } else {
        most
    }
}
