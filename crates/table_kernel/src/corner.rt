//! The corner of a solved kernel, as a point.
ghost use Rattle.std.specs.Prelude.{◌≡◌, ℕ, ◌^◌, ◌+◌, ◌*◌, ◌/◌, ◌<◌, ◌≤◌, pos, ◌≤ℤ◌, nat_abs, length, slice_index, All};
ghost use Prim.Native.Nat.{◌∣◌};
ghost use Rattle.whole_numbers.specs.Lists.{number_at};
ghost use Rattle.design_problem.specs.Earnest.{IsLeastPoint};
ghost use Rattle.design_problem.specs.Forms.{AreMet};
ghost use Rattle.table_kernel.specs.Kernels.{IsKernel, width_of};

use crate::Kernel;
use area_graph::Point;
use cost_base::Listed;
use whole_numbers::greatest_common_divisor;

/// How large a number is, without its sign.
fn size_of(number: i64) -> u128
    ensures { result ≡ nat_abs number }
{
    u128::from(number.unsigned_abs())
}

/// A low bound times the scale, and what stands above it.
fn raised(low: u16, scale: u128, above: u128) -> u128
    requires scale { scale ≤ 2 ^ 30 }
    requires above { above ≤ 2 ^ 44 }
    ensures { result ≡ low * scale + above }
{
    u128::from(low) * scale + above
}

impl Kernel {
    /// What the denominator and the constants of x - low have in common.
    fn common_divisor(&self) -> u128
        requires kernel { IsKernel self.now }
        ensures positive { 0 < result }
        ensures common { result ∣ nat_abs self.now.common }
        ensures constants { (var : ℕ) → var < width_of self.now → result ∣
            nat_abs (number_at self.now.constants.items var) }
    {
        let mut divisor = size_of(self.common);
        for var in 0..self.width() {
            divisor = greatest_common_divisor(size_of(self.constants[var]), divisor);
        }
        divisor
    }

    /// Puts the values of the corner over a divisor of the denominator: the low bounds times the scale, and the
    /// constants over the divisor above them.
    fn put_values(&self, divisor: u128, scale: u128, into: &mut Listed<u128>)
        // The divisor isn't 0, and a low bound times the scale stays below 2^46.
        requires kernel { IsKernel self.now }
        requires positive { 0 < divisor }
        requires scale { scale ≤ 2 ^ 30 }

        // Each variable has a place, which gets its value at the corner, times the scale.
        requires places { length into.old ≡ width_of self.now }
        ensures places { length into.new ≡ width_of self.now }
        ensures values { (var : ℕ) → var < width_of self.now → slice_index into.new var ≡
            slice_index self.now.table.costs.low var * scale +
            nat_abs (number_at self.now.constants.items var) / divisor }
    {
        let low = self.table.costs.low.as_slice();
        for var in 0..low.len() {
            let above = size_of(self.constants[var]) / divisor;
            into.set(var, raised(low[var], scale, above));
        }
    }

    /// Puts the corner, at which the basis is 0, in place of a point.
    pub fn put_corner(&self, into: &mut Point)
        requires kernel { IsKernel self.now }
        requires high { All (λ z. pos 0 ≤ℤ z) self.now.constants.items }
        requires places { length into.old.values ≡ width_of self.now }
        ensures least { IsLeastPoint (AreMet self.now.table.rows.items) self.now.table.costs
            into.new }
        ensures small { into.new.scale < 2 ^ 100 }
    {
        let divisor = self.common_divisor();
        let scale = size_of(self.common) / divisor;
        self.put_values(divisor, scale, &mut into.values);
        into.scale = scale;
    }
}
