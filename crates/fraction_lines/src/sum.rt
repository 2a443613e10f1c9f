//! The sum of a row's terms at a place of the table.
ghost use Rattle.std.specs.Prelude.{◌≡◌, ℕ, ◌^◌, ◌<◌, ◌≤◌, length, nat_abs, All, IfErr, IfOk, OnOk};
ghost use Rattle.whole_numbers.specs.Fractions.{plus, times, whole};
ghost use Rattle.design_problem.specs.Basis.{entry};
ghost use Rattle.fraction_lines.specs.Entries.{IsPassing};
ghost use Rattle.fraction_lines.specs.Sums.{ArePut, AreVariableLines, IsSumStep, IsTermSum, sum_of_terms};
ghost use Rattle.fraction_lines.specs.TableLines.{AreTableNumbers, IsTableNumber, IsCountedLine};
ghost use Rattle.fraction_lines.specs.Turns.{AreTableLines};

use crate::table_line::TableLine;
use design_problem::Form;
use std::mem;
use wide_fraction::{Frac, Top, Wide, add, mul};

/// The sum with the term of one more coefficient, by the line of its variable. No step is taken where the line has 0 at
/// the place.
fn add_term(
    sum: Frac,
    coefficient: i64,
    line: &TableLine,
    place: u32,
    top: Top,
) -> Result<Frac, Wide>
    // Sum and line are of numbers of the table, and the coefficient is at most 2^26 in size.
    requires sum { IsTableNumber top sum }
    requires line { AreTableNumbers top line.now }
    requires place { place < length line.now }
    requires small { nat_abs coefficient ≤ 2 ^ 26 }

    // On Ok the sum is exact, and a number of the table.
    ensures exact { IfOk result
        (λ q. q ≡ plus sum (times (whole coefficient) (entry line.now place))) }
    ensures number { IfOk result (λ q. IsTableNumber top q) }

    // On Err the step is the product or the sum, and makes a number that passes the top.
    ensures step { IfErr result (λ wide. IsTermSum sum coefficient (entry line.now place) wide) }
    ensures passes { IfErr result (λ wide. IsPassing top wide) }
{
    // For the prover: that `top` has at least 28 bits, so that the coefficient is within it, is known once it is read.
    let _ = top.value();
    let value = line.at(place);
    if value.is_zero() {
        return Ok(sum);
    }
    let term = mul(Frac::whole(coefficient), value, top)?;
    add(sum, term, top)
}

/// The sum of the form's terms at a place, from a start on, by the lines of its variables. The steps are taken in the
/// order of the variables, for those whose coefficients aren't 0.
///
/// # Errors
///
/// `Wide` where one of these steps makes a whole number that passes `top`.
pub fn sum_at(
    start: Frac,
    form: &Form,
    lines: &[TableLine],
    place: u32,
    top: Top,
) -> Result<Frac, Wide>
    // There is a line for each variable, and coefficients are at most 2^26 in size.
    requires start { IsTableNumber top start }
    requires small { All (λ c. nat_abs c ≤ 2 ^ 26) form.now.coefficients }
    requires lines { (count : ℕ) × (place < count) × AreTableLines top count lines.now }
    requires many { length form.now.coefficients ≤ length lines.now }

    // On Ok the sum of all terms is exact, and a number of the table.
    ensures exact { IfOk result (λ q. q ≡ sum_of_terms start form.now.coefficients lines.now
        place) }
    ensures number { IfOk result (λ q. IsTableNumber top q) }

    // On Err the step is one of that sum, and makes a number that passes the top.
    ensures step { IfErr result (λ wide. IsSumStep start form.now.coefficients lines.now place
        wide) }
    ensures passes { IfErr result (λ wide. IsPassing top wide) }
{
    let terms = form.terms();
    let mut sum = start;
    for term in terms {
        let var = term.var as usize;
        sum = add_term(sum, term.coefficient, &lines[var], place, top)?;
    }
    Ok(sum)
}

/// Puts a coefficient times a line to another one, the sum, place by place. `scratch` is a line of the same width, in
/// which the new sum is made.
///
/// # Errors
///
/// `Wide` where a step makes a whole number that passes `top`. Then the sum is as before.
fn put_line(
    sum: &mut TableLine,
    coefficient: i64,
    line: &TableLine,
    scratch: &mut TableLine,
    top: Top,
) -> Result<(), Wide>
    // All three lines have one width, and the coefficient is at most 2^26 in size.
    requires line { IsCountedLine top (length sum.old) line.now }
    requires scratch { length scratch.old ≡ length sum.old }
    requires numbers { AreTableNumbers top sum.old }
    requires small { nat_abs coefficient ≤ 2 ^ 26 }

    // On Ok each place has its sum, a number of the table.
    ensures sums { OnOk result (ArePut (whole coefficient) line.now sum.old sum.new) }
    ensures numbers { OnOk result (AreTableNumbers top sum.new) }

    // In any case both lines keep their width.
    ensures width { length sum.new ≡ length sum.old }
    ensures scratch_width { length scratch.new ≡ length scratch.old }
{
    // For the prover: that `top` has at least 28 bits, so that the coefficient is within it, is known once it is read.
    let _ = top.value();
    sum.cross(Frac::whole(-coefficient), line, scratch, top)?;
    mem::swap(sum, scratch);
    Ok(())
}

/// Puts the form's terms to a line, the sum, by the lines of its variables, variable by variable. It takes the steps of
/// `sum_at` at all places, in another order. `scratch` is a line of the same width.
///
/// # Errors
///
/// `Wide` where one of these steps makes a whole number that passes `top`. Then the sum has some of the terms.
pub fn sum_lines(
    sum: &mut TableLine,
    form: &Form,
    lines: &[TableLine],
    scratch: &mut TableLine,
    top: Top,
) -> Result<(), Wide>
    // Each variable has a line of the sum's width, and coefficients are at most 2^26 in size.
    requires small { All (λ c. nat_abs c ≤ 2 ^ 26) form.now.coefficients }
    requires lines { AreVariableLines top (length sum.old) (length form.now.coefficients)
        lines.now }
    requires scratch { length scratch.old ≡ length sum.old }
    requires numbers { AreTableNumbers top sum.old }

    // On Ok each place has the sum of all terms there, a number of the table.
    ensures sums { OnOk result ((place : ℕ) → place < length sum.old →
        entry sum.new place ≡ sum_of_terms (entry sum.old place) form.now.coefficients lines.now
        place) }
    ensures numbers { OnOk result (AreTableNumbers top sum.new) }

    // In any case both lines keep their width.
    ensures width { length sum.new ≡ length sum.old }
    ensures scratch_width { length scratch.new ≡ length scratch.old }
{
    let terms = form.terms();
    for term in terms {
        let var = term.var as usize;
        put_line(sum, term.coefficient, &lines[var], scratch, top)?;
    }
    Ok(())
}
