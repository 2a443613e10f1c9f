//! The constants of all forms, over the common denominator.
ghost use Rattle.std.specs.Prelude.{◌≡◌, ◌≢◌, ℕ, ◌^◌, ◌+◌, ◌*◌, ◌<◌, ◌≤◌, pos, ◌*ℤ◌, ◌<ℤ◌, ◌≤ℤ◌, nat_abs, length, slice_index, slice_index_or, All};
ghost use Prim.Native.Nat.{◌∣◌};
ghost use Rattle.whole_numbers.specs.Lists.{number_at};
ghost use Rattle.design_problem.specs.Forms.{no_form};
ghost use Rattle.fraction_table.specs.Tableaus.{FitsBox};
ghost use Rattle.integer_pivots.specs.Lines.{no_line};
ghost use Rattle.integer_pivots.specs.Numbers.{AllWithin, product_sum};
ghost use Rattle.table_kernel.specs.Constants.{AreByFirst, AreConstantsPut, AreCoveredRows, AreMadeByFirst, HavePlacesOfBox, IsShortConstant, KeepsAllButConstants, MayPutConstants, constant_of_line, high_constant, line_constant};
ghost use Rattle.table_kernel.specs.Kernels.{width_of};
ghost use Rattle.table_kernel.specs.Rows.{IsCovered, row_constant_of};
ghost use Rattle.table_kernel.specs.Turns.{held_turn};

use crate::Kernel;
use design_problem::{CostBox, Form};
use fraction_table::{corner_value, range_of};
use integer_pivots::{Line, put_uses};

/// A coefficient times a constant.
///
/// For the prover: a call, so that the bounds of both, and nothing else of the caller's, show that the product fits.
fn constant_term(coefficient: i64, constant: i64) -> i64
    requires coefficient { nat_abs coefficient ≤ 2 ^ 16 }
    requires constant { nat_abs constant ≤ 2 ^ 44 }
    ensures { result ≡ (coefficient *ℤ constant) }
{
    coefficient * constant
}

/// The sum of a form's coefficients, each times its variable's constant.
fn constant_sum(form: &Form, constants: &[i64]) -> i64
    requires count { length form.now.coefficients ≤ length constants.now }
    requires light { IsCovered form.now }
    requires small { (v : ℕ) → v < length form.now.coefficients →
        nat_abs (number_at constants.now v) ≤ 2 ^ 44 }
    ensures sum { result ≡ product_sum form.now.coefficients constants.now }
    ensures size { nat_abs result ≤ 2 ^ 60 }
{
    let mut sum = 0;
    for term in form.terms() {
        sum += constant_term(term.coefficient, constants[term.var as usize]);
    }
    sum
}

/// The common denominator times a form's value at the low corner.
fn common_value(common: i64, value: i64) -> i64
    requires common { nat_abs common ≤ 2 ^ 30 }
    requires value { nat_abs value ≤ 2 ^ 27 }
    ensures product { result ≡ (common *ℤ value) }
    ensures size { nat_abs result ≤ 2 ^ 57 }
{
    common * value
}

/// The constant of a row's form, by those of x - low, which stand first.
pub fn row_constant(form: &Form, costs: &CostBox, common: i64, constants: &[i64]) -> i64
    // The form fits the box, and its coefficients are at most 2^16 together.
    requires fits { FitsBox costs.now form.now }
    requires light { IsCovered form.now }

    // Each x - low has a constant, of at most 2^44 over a denominator of at most 2^30.
    requires common { (pos 0 <ℤ common) × (common ≤ℤ pos (2 ^ 30)) }
    requires many { length costs.now.low ≤ length constants.now }
    requires constants { (v : ℕ) → v < length costs.now.low → nat_abs (number_at constants.now v) ≤
        2 ^ 44 }

    // The row's constant is its value at the low bounds plus its sum of those constants.
    ensures constant { result ≡ row_constant_of common costs.now.low constants.now form.now }
    ensures size { nat_abs result ≤ 2 ^ 61 }
{
    let value = corner_value(form, costs);
    common_value(common, value) + constant_sum(form, constants)
}

/// The constant of a line of x - low, over the common denominator.
fn constant_over(line: &Line, common: i64) -> i64
    requires line { IsShortConstant common line.now }
    requires common { (pos 0 <ℤ common) × (common ≤ℤ pos (2 ^ 30)) }
    ensures constant { result ≡ line_constant common line.now }
    ensures size { nat_abs result ≤ 2 ^ 44 }
{
    line.constant * (common / line.denominator)
}

/// The constant of high - x for a variable with these bounds, by that of x - low.
fn constant_of_high(low: u16, high: u16, common: i64, constant: i64) -> i64
    requires common { (pos 0 <ℤ common) × (common ≤ℤ pos (2 ^ 30)) }
    requires constant { nat_abs constant ≤ 2 ^ 44 }
    ensures constant { result ≡ high_constant low high common constant }
    ensures size { nat_abs result ≤ 2 ^ 62 }
{
    common * range_of(low, high) - constant
}

/// Puts the constants of x - low and of high - x for each variable first.
fn put_bound_constants(constants: &mut [i64], lines: &[Line], costs: &CostBox, common: i64)
    // Each variable has two places, and a line whose constant over `common` is at most 2^44.
    requires places { HavePlacesOfBox costs.now lines.now constants.old }
    requires short { All (IsShortConstant common) lines.now }
    requires common { (pos 0 <ℤ common) × (common ≤ℤ pos (2 ^ 30)) }

    // The constants of x - low come first, and then those of high - x.
    ensures count { length constants.new ≡ length constants.old }
    ensures low { (v : ℕ) → v < length costs.now.low → number_at constants.new v ≡
        line_constant common (slice_index_or lines.now v no_line) }
    ensures high { (v : ℕ) → v < length costs.now.low → number_at constants.new
        (length costs.now.low + v) ≡ high_constant (slice_index costs.now.low v)
        (slice_index costs.now.high v) common (line_constant common
        (slice_index_or lines.now v no_line)) }

    // If all constants were within 2^62, they still are.
    ensures small { AllWithin (2 ^ 62) constants.old → AllWithin (2 ^ 62) constants.new }
{
    let low = costs.low.as_slice();
    let high = costs.high.as_slice();
    for var in 0..low.len() {
        let constant = constant_over(&lines[var], common);
        constants[var] = constant;
        constants[low.len() + var] = constant_of_high(low[var], high[var], common, constant);
    }
}

/// Puts the constants of the rows behind those of the box's forms.
fn put_row_constants(constants: &mut [i64], rows: &[Form], costs: &CostBox, common: i64)
    // Each row fits the box, is covered, and has a place behind those of the box's forms.
    requires many { length costs.now.low + length costs.now.low + length rows.now ≤
        length constants.old }
    requires rows { AreCoveredRows costs.now rows.now }

    // The constants of x - low stand first, of at most 2^44 over the common denominator.
    requires common { (pos 0 <ℤ common) × (common ≤ℤ pos (2 ^ 30)) }
    requires constants { (v : ℕ) → v < length costs.now.low → nat_abs (number_at constants.old v) ≤
        2 ^ 44 }

    // The box's forms keep their constants, and those of the rows follow from the first ones.
    ensures count { length constants.new ≡ length constants.old }
    ensures bounds { (v : ℕ) → v < length costs.now.low + length costs.now.low →
        number_at constants.new v ≡ number_at constants.old v }
    ensures rows { (row : ℕ) → row < length rows.now →
        number_at constants.new (length costs.now.low + length costs.now.low + row) ≡
        row_constant_of common costs.now.low constants.old (slice_index_or rows.now row no_form) }

    // If all constants were within 2^62, they still are.
    ensures small { AllWithin (2 ^ 62) constants.old → AllWithin (2 ^ 62) constants.new }
{
    let width = costs.low.as_slice().len();
    for row in 0..rows.len() {
        constants[width + width + row] = row_constant(&rows[row], costs, common, constants);
    }
}

impl Kernel {
    /// Puts the constants of all forms, by the lines of x - low, the common denominator and the box.
    pub fn put_constants(&mut self)
        requires { MayPutConstants self.old }
        ensures constants { AreConstantsPut self.old self.new.constants.items }
        ensures small { AllWithin (2 ^ 62) self.new.constants.items }
        ensures keeps { KeepsAllButConstants self.old self.new }
    {
        put_bound_constants(
            self.constants.as_mut_slice(),
            self.lows.as_slice(),
            &self.table.costs,
            self.common,
        );
        put_row_constants(
            self.constants.as_mut_slice(),
            self.table.rows.as_slice(),
            &self.table.costs,
            self.common,
        );
    }

    /// Lets the constants of a variable's forms, and those of the rows that use it, follow its line.
    fn follow(&mut self, var: usize)
        // The constants of x - low are small, and those of the other forms follow from them.
        requires kernel { MayPutConstants self.old }
        requires var { var < width_of self.old }
        requires made { AreMadeByFirst self.old self.old.constants.items }

        // The variable's constant is that of its line, and the other forms' follow again.
        ensures by_first { AreByFirst self.old self.new.constants.items }
        ensures own { number_at self.new.constants.items var ≡ constant_of_line self.old var }
        ensures others { (v : ℕ) → v < width_of self.old → v ≢ var →
            number_at self.new.constants.items v ≡ number_at self.old.constants.items v }

        // All constants are within 2^62, and nothing else in the kernel changes.
        ensures small { AllWithin (2 ^ 62) self.new.constants.items }
        ensures keeps { KeepsAllButConstants self.old self.new }
    {
        let width = self.width();
        let constant = constant_over(&self.lows[var], self.common);
        let change = constant - self.constants[var];
        let low = self.table.costs.low.as_slice()[var];
        let high = self.table.costs.high.as_slice()[var];
        self.constants[var] = constant;
        self.constants[width + var] = constant_of_high(low, high, self.common, constant);
        put_uses(
            self.constants.as_mut_slice(),
            &self.uses[var],
            change,
            width + width,
        );
    }

    /// Lets the constants of all forms follow the lines that have turned, over the common denominator as it was.
    pub fn follow_lines(&mut self)
        // The constants of x - low are small, and those of the other forms follow from them.
        requires kernel { MayPutConstants self.old }
        requires made { AreMadeByFirst self.old self.old.constants.items }

        // Where a line doesn't turn, the variable's constant is that of the line already.
        requires stays { (v : ℕ) → v < width_of self.old → (held_turn self.old v).factor ≡ pos 0 →
            number_at self.old.constants.items v ≡ constant_of_line self.old v }

        // All forms have their constants, within 2^62, and nothing else changes.
        ensures constants { AreConstantsPut self.old self.new.constants.items }
        ensures small { AllWithin (2 ^ 62) self.new.constants.items }
        ensures keeps { KeepsAllButConstants self.old self.new }
    {
        for var in 0..self.lows.len() {
            if self.turns[var].factor != 0 {
                self.follow(var);
            }
        }
    }
}
