//! The corner of a solved table, as a point.
ghost use Rattle.std.specs.Prelude.{◌≡◌, ℕ, ◌^◌, ◌<◌, ◌≤◌, ◌<ℤ◌, pos, nat_abs, length, slice_index, IfErr, IfOk, OnErr, OnOk};
ghost use Rattle.cost_base.specs.declared.StepName.TheVariants.{Scale};
ghost use Rattle.whole_numbers.specs.Fractions.{whole};
ghost use Rattle.design_problem.specs.Earnest.{IsLeastPoint};
ghost use Rattle.design_problem.specs.Steps.{IsStepTooWide, lcm_of, two_to_27};
ghost use Rattle.design_problem.specs.Forms.{AreMet};
ghost use Rattle.fraction_table.specs.Corners.{corner_entry, denominators_of, raised_by};
ghost use Rattle.fraction_lines.specs.Entries.{IsPassing};
ghost use Rattle.fraction_table.specs.Pivots.{AreHigh};
ghost use Rattle.fraction_table.specs.Tableaus.{wide_at};
ghost use Rattle.fraction_table.specs.ValidTables.{IsTableau};

use crate::table::Table;
use area_graph::Point;
use cost_base::Listed;
use wide_fraction::{Frac, Top, Wide, lcm, scale};

/// The multiple itself, where 2^27 times it is within the top.
///
/// # Errors
///
/// `Wide` where it isn't.
fn tested(multiple: i128, top: Top) -> Result<u128, Wide>
    // The multiple is positive, and within the top.
    requires positive { pos 0 <ℤ multiple }
    requires within { nat_abs multiple ≤ top }

    // On Ok it is the same number, and below 2^100.
    ensures same { IfOk result (λ same. multiple ≡ pos same) }
    ensures small { IfOk result (λ same. same < 2 ^ 100) }

    // On Err the step is its product with 2^27, which passes the top.
    ensures named { IfErr result (λ wide. wide ≡ record {
      step = Scale;
      left = whole multiple;
      right = two_to_27;
    }) }
    ensures passes { IfErr result (λ wide. IsPassing top wide) }
{
    scale(multiple, top)?;
    Ok(multiple as u128)
}

/// A low bound plus a constant that is at least 0, times a scale that the constant's denominator divides.
fn raised(low: u16, constant: Frac, scale: u128) -> u128
    requires fits { raised_by low constant scale < 2 ^ 128 }
    ensures { result ≡ raised_by low constant scale }
{
    let part = scale / constant.denominator().unsigned_abs();
    let above = constant.numerator().unsigned_abs() * part;
    u128::from(low) * scale + above
}

impl Table {
    /// The least common multiple of the denominators of the constants of x - low, taken in the order of the variables.
    ///
    /// # Errors
    ///
    /// `Wide` where a multiple on the way passes `top`.
    fn common_denominator(&self) -> Result<i128, Wide>
        requires tableau { IsTableau self.now }
        ensures multiple { IfOk result
            (λ multiple. multiple ≡ pos (lcm_of (denominators_of self.now))) }
        ensures within { IfOk result (λ multiple. nat_abs multiple ≤ self.now.top) }
        ensures wide { IfErr result (λ wide. IsStepTooWide self.now.top self.now.costs
            self.now.rows.items (wide_at wide self.now.basis.items)) }
    {
        // For the prover: that `top` has from 28 to 127 bits is known once it is read.
        let _ = self.top.value();
        let mut multiple: i128 = 1;
        for var in 0..self.costs.low.as_slice().len() {
            let denominator = self.lines[var].constant().denominator();
            multiple = lcm(multiple, denominator, self.top)?;
        }
        Ok(multiple)
    }

    /// The scale of the corner: that multiple, once 2^27 times it was found to be within `top`.
    ///
    /// # Errors
    ///
    /// `Wide` where a step of this makes a whole number that passes `top`.
    fn corner_scale(&self) -> Result<u128, Wide>
        requires tableau { IsTableau self.now }
        ensures common { IfOk result (λ scale. scale ≡ lcm_of (denominators_of self.now)) }
        ensures small { IfOk result (λ scale. scale < 2 ^ 100) }
        ensures wide { IfErr result (λ wide. IsStepTooWide self.now.top self.now.costs
            self.now.rows.items (wide_at wide self.now.basis.items)) }
    {
        let multiple = self.common_denominator()?;
        tested(multiple, self.top)
    }

    /// Puts the values of the corner, times the scale.
    fn put_corner_values(&self, scale: u128, into: &mut Listed<u128>)
        // No constant of the table is negative.
        requires tableau { IsTableau self.now }
        requires high { AreHigh self.now }

        // The scale is the least common denominator of the constants of x - low, and below 2^100.
        requires common { scale ≡ lcm_of (denominators_of self.now) }
        requires small { scale < 2 ^ 100 }

        // Each variable has a place, which gets its value at the corner, times the scale.
        requires places { length into.old ≡ length self.now.costs.low }
        ensures places { length into.new ≡ length self.now.costs.low }
        ensures values { (var : ℕ) → var < length self.now.costs.low →
            slice_index into.new var ≡ corner_entry self.now scale var }
    {
        let low = self.costs.low.as_slice();
        let high = self.costs.high.as_slice();
        for var in 0..low.len() {
            let lowest = low[var];
            // No value is above the high bound times the scale, so it fits; the bound is read for its range alone.
            let _highest = high[var];
            let value = raised(lowest, self.lines[var].constant(), scale);
            into.set(var, value);
        }
    }

    /// Puts the corner, at which the basis is 0, in place of a point. Nothing is written before all steps are taken.
    ///
    /// # Errors
    ///
    /// `Wide` where a step of this makes a whole number that passes `top`; then `into` is as before.
    pub fn put_corner(&self, into: &mut Point) -> Result<(), Wide>
        // No constant of the table is negative, and the point has a place for each variable.
        requires tableau { IsTableau self.now }
        requires high { AreHigh self.now }
        requires places { length into.old.values ≡ length self.now.costs.low }

        // On Ok it is the least point of the box that meets the rows, and its scale is below 2^100.
        ensures least { OnOk result (IsLeastPoint (AreMet self.now.rows.items) self.now.costs
            into.new) }
        ensures small { OnOk result (into.new.scale < 2 ^ 100) }

        // On Err the point is as before, and a step at the basis is too wide.
        ensures kept { OnErr result (into.new ≡ into.old) }
        ensures wide { IfErr result (λ wide. IsStepTooWide self.now.top self.now.costs
            self.now.rows.items (wide_at wide self.now.basis.items)) }
    {
        let scale = self.corner_scale()?;
        self.put_corner_values(scale, &mut into.values);
        into.scale = scale;
        Ok(())
    }
}
