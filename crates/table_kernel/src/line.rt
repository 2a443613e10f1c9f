//! The line of a form at the kernel's basis, and its numbers over the common denominator.
ghost use Rattle.std.specs.Prelude.{◌≡◌, ℕ, suc, ◌*◌, ◌^◌, ◌+◌, ◌<◌, ◌≤◌, pos, ◌*ℤ◌, ◌-ℤ◌, ◌<ℤ◌, ◌≤ℤ◌, nat_abs, map, length, slice_index, slice_index_or, All, OnErr, OnOk};
ghost use Prim.Native.Nat.{◌∣◌};
ghost use Rattle.whole_numbers.specs.Lists.{number_at};
ghost use Rattle.design_problem.specs.Basis.{IsFormOf, member_form};
ghost use Rattle.design_problem.specs.Forms.{no_form};
ghost use Rattle.integer_pivots.specs.Lines.{IsLine};
ghost use Rattle.integer_pivots.specs.Numbers.{AllWithin};
ghost use Rattle.table_kernel.specs.Kernels.{IsKernel, IsMoving, width_of};
ghost use Rattle.table_kernel.specs.Lines.{IsEntering, IsLineTooLarge, KeepsNumbers, column_of, factors_of};
ghost use Rattle.table_kernel.specs.Numbers.{number_at_column, scaled_line, share_of};
ghost use Rattle.table_kernel.specs.Rows.{IsCovered};
ghost use Rattle.table_kernel.specs.Turns.{line_of};

use crate::Kernel;
use crate::kernel::OutOfRange;
use design_problem::{Form, Member};
use fraction_table::range_of;
use integer_pivots::{
    ENTRY_LIMIT, FACTOR_LIMIT, Line, MarkedNumbers, clear, put_multiple, put_signed_line, share_in,
};

/// A term's factor times a number, both of which are small.
///
/// For the prover: a call, so that the bounds of both, and nothing else of the caller's, show that the product fits.
fn product_of(factor: i64, number: i128) -> i128
    requires factor { nat_abs factor ≤ 2 ^ 30 }
    requires number { nat_abs number ≤ 2 ^ 60 }
    ensures { result ≡ (factor *ℤ number) }
{
    i128::from(factor) * number
}

/// Puts a form's numbers over a common denominator in place of numbers: the sum of its coefficients, each times its
/// variable's line.
fn put_sums(sums: &mut MarkedNumbers, form: &Form, lows: &[Line], common: i64)
    // Each variable of the form has a line, whose denominator goes into the common one.
    requires count { length form.now.coefficients ≤ length lows.now }
    requires common { (pos 0 <ℤ common) × (common ≤ℤ pos (2 ^ 30)) }
    requires lines { All IsLine lows.now × All (λ line. nat_abs line.denominator ∣ nat_abs common)
        lows.now }
    requires long { All (λ line. length line.numbers ≡ length sums.old) lows.now }

    // Factors of at most 2^32 together, times numbers of at most 2^30, stay within 2^62.
    requires factors { factors_of (nat_abs common) form.now.coefficients lows.now ≤ 2 ^ 32 }

    // Each sum is the form's number at its column, over the common denominator.
    ensures count { length sums.new ≡ length sums.old }
    ensures numbers { (c : ℕ) → c < length sums.old → number_at sums.new c ≡
        number_at_column form.now (map (λ row. number_at row (suc c))
        (map (scaled_line (nat_abs common)) lows.now)) }
    ensures sizes { AllWithin (2 ^ 62) sums.new }
{
    clear(sums);
    for term in form.terms() {
        let line = &lows[term.var as usize];
        let factor = term.coefficient * share_in(common, line.denominator);
        put_multiple(sums, factor, &line.numbers);
    }
}

impl Kernel {
    /// How often the denominator of a variable's line goes into the common one.
    pub fn share(&self, var: usize) -> i64
        // The variable has a line, whose denominator goes into the common one.
        requires kernel { IsMoving self.now }
        requires var { var < width_of self.now }

        // The share is their exact quotient, from 1 to 2^30.
        ensures share { result ≡ pos (share_of (nat_abs self.now.common) (line_of self.now var)) }
        ensures times { (result *ℤ (line_of self.now var).denominator) ≡ self.now.common }
        ensures positive { pos 1 ≤ℤ result }
        ensures size { result ≤ℤ pos (2 ^ 30) }
    {
        share_in(self.common, self.lows[var].denominator)
    }

    /// A variable's number of x - low at a column, over the common denominator.
    fn low_entry(&self, var: usize, column: usize) -> i128
        requires kernel { IsKernel self.now }
        requires var { var < width_of self.now }
        requires column { column < width_of self.now }
        ensures number { result ≡ number_at (column_of self.now column) var }
        ensures size { nat_abs result ≤ 2 ^ 60 }
    {
        i128::from(self.lows[var].numbers.as_slice()[column]) * i128::from(self.share(var))
    }

    /// A row's number at a column, over the common denominator: the sum of its coefficients times
    /// the variables' numbers.
    fn row_entry(&self, form: &Form, column: usize) -> i128
        // The form's coefficients are at most 2^16 together, each of a variable of the kernel.
        requires kernel { IsKernel self.now }
        requires count { length form.now.coefficients ≤ width_of self.now }
        requires light { IsCovered form.now }
        requires column { column < width_of self.now }

        // The sum is exact, of coefficients within 2^16 times shares and numbers within 2^30.
        ensures number { result ≡ number_at_column form.now (column_of self.now column) }
        ensures size { nat_abs result ≤ 2 ^ 76 }
    {
        let mut sum = 0;
        for term in form.terms() {
            sum += product_of(term.coefficient, self.low_entry(term.var as usize, column));
        }
        sum
    }

    /// The number of a member's form at a column, over the common denominator.
    pub fn entry(&self, member: Member, column: usize) -> i128
        requires kernel { IsKernel self.now }
        requires member { IsFormOf self.now.table.costs self.now.table.rows.items member }
        requires column { column < width_of self.now }
        ensures number { result ≡ number_at_column (member_form (width_of self.now)
            self.now.table.rows.items member) (column_of self.now column) }
        ensures size { nat_abs result ≤ 2 ^ 76 }
    {
        match member {
            Member::Low(var, _) => self.low_entry(var as usize, column),
            Member::High(var, _) => -self.low_entry(var as usize, column),
            Member::Row(row) => self.row_entry(&self.table.rows[row as usize], column),
        }
    }

    /// Puts a variable's line in place of the entering one, with another sign.
    fn put_signed(&mut self, var: usize, sign: i64, constant: i64)
        // The variable has a line, and the sign is 1 or -1.
        requires kernel { IsKernel self.old }
        requires var { var < width_of self.old }
        requires sign { nat_abs sign ≡ 1 }

        // The entering line is the variable's times the sign, but for the constant given.
        ensures numbers { (c : ℕ) → c < width_of self.old → number_at self.new.entering.numbers c ≡
            (sign *ℤ number_at (line_of self.old var).numbers c) }
        ensures denominator { self.new.entering.denominator ≡ (line_of self.old var).denominator }
        ensures constant { self.new.entering.constant ≡ constant }

        // It's within the bounds of a line, and the kernel's other numbers stay.
        ensures line { IsLine self.new.entering }
        ensures keeps { KeepsNumbers self.old self.new }
    {
        put_signed_line(&mut self.entering, &self.lows[var], sign, constant);
    }

    /// The constant of high - x for a variable, over its line's denominator.
    fn high_constant(&self, var: usize) -> i64
        requires kernel { IsKernel self.now }
        requires var { var < width_of self.now }
        ensures { result ≡
            (((pos (slice_index self.now.table.costs.high var) -ℤ
            pos (slice_index self.now.table.costs.low var)) *ℤ
            (line_of self.now var).denominator) -ℤ (line_of self.now var).constant) }
    {
        let low = self.table.costs.low.as_slice()[var];
        let high = self.table.costs.high.as_slice()[var];
        range_of(low, high) * self.lows[var].denominator - self.lows[var].constant
    }

    /// The sum of the sizes of the factors of which a row's line is made.
    fn factor_sum(&self, form: &Form) -> i64
        requires kernel { IsKernel self.now }
        requires count { length form.now.coefficients ≤ width_of self.now }
        requires light { IsCovered form.now }
        ensures sum { result ≡ pos (factors_of (nat_abs self.now.common) form.now.coefficients
            self.now.lows.items) }
        ensures size { result ≤ℤ pos (2 ^ 46) }
    {
        let mut sum = 0;
        for term in form.terms() {
            sum += term.coefficient.abs() * self.share(term.var as usize);
        }
        sum
    }

    /// Puts a row's numbers over the common denominator in place of the entering line's.
    fn put_row_numbers(&mut self, row: usize)
        // The factors of which the row's line is made are at most 2^32 together.
        requires kernel { IsKernel self.old }
        requires row { row < length self.old.table.rows.items }
        requires factors { factors_of (nat_abs self.old.common)
            (slice_index_or self.old.table.rows.items row no_form).coefficients
            self.old.lows.items ≤ 2 ^ 32 }

        // The entering line has the row's number at each column, over the common denominator.
        ensures count { length self.new.entering.numbers ≡ width_of self.old }
        ensures numbers { (c : ℕ) → c < width_of self.old → number_at self.new.entering.numbers c ≡
            number_at_column (slice_index_or self.old.table.rows.items row no_form)
            (column_of self.old c) }

        // Those are within 2^62, and the kernel's other numbers stay.
        ensures sizes { AllWithin (2 ^ 62) self.new.entering.numbers }
        ensures keeps { KeepsNumbers self.old self.new }
    {
        put_sums(
            &mut self.entering.numbers,
            &self.table.rows[row],
            self.lows.as_slice(),
            self.common,
        );
    }

    /// Puts a row's line in place of the entering one.
    ///
    /// # Errors
    ///
    /// `OutOfRange` where the factors of which it is made, or its numbers in lowest terms, pass the bounds.
    fn put_row_line(&mut self, row: usize, place: usize) -> Result<(), OutOfRange>
        // The row's place is behind those of the two forms of each variable.
        requires kernel { IsKernel self.old }
        requires row { row < length self.old.table.rows.items }
        requires place { place ≡ width_of self.old + width_of self.old + row }

        // On Ok the entering line is the row's; else the row's is too large for the kernel.
        ensures line { OnOk result (IsEntering self.new place) }
        ensures large { OnErr result (IsLineTooLarge self.new place) }

        // In any case the kernel's numbers stay, but for the entering line.
        ensures keeps { KeepsNumbers self.old self.new }
    {
        if self.factor_sum(&self.table.rows[row]) > FACTOR_LIMIT {
            return Err(OutOfRange);
        }
        self.put_row_numbers(row);
        self.entering.denominator = self.common;
        self.entering.constant = self.constants[place];
        self.entering.reduce();
        if self.entering.reach > ENTRY_LIMIT {
            return Err(OutOfRange);
        }
        Ok(())
    }

    /// Puts the line of a place's form in place of the entering one.
    ///
    /// # Errors
    ///
    /// `OutOfRange` where the kernel's bounds don't cover the line, which they do for the forms of the box.
    pub fn put_line(&mut self, place: usize) -> Result<(), OutOfRange>
        requires kernel { IsKernel self.old }
        requires place { place < length self.old.constants.items }
        ensures line { OnOk result (IsEntering self.new place) }
        ensures large { OnErr result (IsLineTooLarge self.new place) }
        ensures keeps { KeepsNumbers self.old self.new }
    {
        match self.table.member_at(place) {
            Member::Low(var, _) => {
                let constant = self.lows[var as usize].constant;
                self.put_signed(var as usize, 1, constant);
                Ok(())
            }
            Member::High(var, _) => {
                let constant = self.high_constant(var as usize);
                self.put_signed(var as usize, -1, constant);
                Ok(())
            }
            Member::Row(row) => self.put_row_line(row as usize, place),
        }
    }
}
