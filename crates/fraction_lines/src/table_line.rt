//! A line of the table: a constant, and the columns in which it has another number than 0, in rising order.
ghost use Rattle.std.specs.Prelude.{◌≡◌, ◌≢◌, ℕ, suc, true, ◌<◌, ◌≤◌, ◌-◌, ◌∷◌, length, pos, slice_set, IfOk, IfErr, OnOk};
ghost use Rattle.whole_numbers.specs.Fractions.{IsLowest};
ghost use Rattle.design_problem.specs.Basis.{entry};
ghost use Rattle.fraction_lines.specs.TableLines.{AreTableNumbers, IsCrossStep, IsDivideStep, IsTableNumber, IsCountedLine, IsWideStep, Rises};
ghost use Rattle.fraction_lines.specs.TableLines.{blank_line, crossed_by, divided_without, filled, nothing};

use crate::entries::{
    Extent, cross_entries, crossed, divide_entries, find_fraction, put_entry, replace_fraction,
};
use crate::marks::{Marks, is_marked, marked, marks_of, no_marks};
use cost_base::OutOfMemory;
use std::alloc::Global;
use std::marker::Model;
use wide_fraction::{Frac, Top, Wide, div};

/// A line of the table. Contracts see the list of its fractions: the constant at place 0, and after it the entry of
/// each column, zeros too. It holds the columns that aren't 0 alone, with marks that most zeros lack, and has room for
/// all of them, so that no step on it takes memory.
#[derive(Drop)]
pub struct TableLine {
    constant: Frac,
    width: u32,
    marks: Marks,
    entries: Vec<(u32, Frac)>,
}

impl Model for TableLine {
    ghost use Rattle.std.specs.Prelude.{ℕ, ◌≤◌, List, ◌∷◌};
    ghost use Rattle.std.specs.Vec.{vec_capacity};
    ghost use Rattle.whole_numbers.specs.Fractions.{Fraction};
    ghost use Rattle.fraction_lines.specs.TableLines.{Rises, filled};
    ghost use Rattle.fraction_lines.specs.Marks.{AllMarked};

    ghost Value = { List Fraction };

    ghost view = { λ r. r.constant ∷ filled r.width r.entries.items };

    ghost invariant = { λ r. record {
      rises : Rises 0 r.width r.entries.items;
      room : r.width ≤ vec_capacity r.entries;
      marked : AllMarked r.marks r.entries.items;
    } };
}

impl TableLine {
    /// The line of zeros, with room for `width` columns.
    ///
    /// # Errors
    ///
    /// `OutOfMemory` where the line got no memory.
    pub fn zero(alloc: Global, width: u32) -> Result<TableLine, OutOfMemory>
        ensures { IfOk result (λ line. line ≡ blank_line width) }
    {
        let entries = Vec::with_capacity(alloc, width as usize)?;
        Ok(TableLine {
            constant: Frac::whole(0),
            width,
            marks: no_marks(),
            entries,
        })
    }

    /// The constant.
    pub fn constant(&self) -> Frac
        ensures { result ≡ entry self.now 0 }
    {
        self.constant
    }

    /// The constant at place 0, and after it the entry of each column.
    pub fn at(&self, place: u32) -> Frac
        requires { place < length self.now }
        ensures { result ≡ entry self.now place }
    {
        match place.checked_sub(1) {
            None => self.constant(),
            Some(column) => self.entry(column),
        }
    }

    /// Whether the entry of a column is 0 by the marks alone, which tell it of most zeros.
    #[inline]
    pub fn lacks(&self, column: u32) -> bool
        requires { suc column < length self.now }
        ensures { result ≡ true → entry self.now (suc column) ≡ nothing }
    {
        !is_marked(self.marks, column)
    }

    /// The entry of a column.
    pub fn entry(&self, column: u32) -> Frac
        requires { suc column < length self.now }
        ensures { result ≡ entry self.now (suc column) }
    {
        if is_marked(self.marks, column) {
            find_fraction(self.entries.as_slice(), column)
        } else {
            Frac::whole(0)
        }
    }

    /// The columns that aren't 0, in rising order.
    pub fn entries(&self) -> &[(u32, Frac)]
        ensures value { self.now ≡ entry self.now 0 ∷ filled (length self.now - 1) result.now }
        ensures rises { Rises 0 (length self.now - 1) result.now }
    {
        self.entries.as_slice()
    }

    /// Puts another constant.
    pub fn set_constant(&mut self, constant: Frac)
        ensures { self.new ≡ slice_set self.old 0 constant }
    {
        self.constant = constant;
    }

    /// Makes all of it 0. It keeps its room.
    pub fn clear(&mut self)
        ensures { self.new ≡ blank_line (length self.old - 1) }
    {
        self.constant = Frac::whole(0);
        self.entries.clear();
    }

    /// Puts the entry of a column from which on all entries are 0.
    pub fn push(&mut self, column: u32, value: Frac)
        requires within { suc column < length self.old }
        requires last { (later : ℕ) → column ≤ later → suc later < length self.old →
            entry self.old (suc later) ≡ nothing }
        requires number { IsLowest value }
        ensures { self.new ≡ slice_set self.old (suc column) value }
    {
        put_entry(&mut self.entries, column, value);
        self.marks = marked(self.marks, column);
    }

    /// Puts another entry, none of which is 0, at a column.
    pub fn replace(&mut self, column: u32, value: Frac)
        requires within { suc column < length self.old }
        requires before { entry self.old (suc column) ≢ nothing }
        requires not_zero { value.numerator ≢ pos 0 }
        ensures { self.new ≡ slice_set self.old (suc column) value }
    {
        replace_fraction(&mut self.entries, column, value);
    }

    /// Makes the line whose fractions are those of this one, each less the factor times that of `quotients` at its
    /// place. The steps are taken by the places, the constant first, and for a place the product before the difference;
    /// none is taken where the quotient is 0.
    ///
    /// # Errors
    ///
    /// `Wide` where one of these steps makes a whole number that passes `top`.
    pub fn cross(
        &self,
        factor: Frac,
        quotients: &TableLine,
        into: &mut TableLine,
        top: Top,
    ) -> Result<(), Wide>
        // The three lines have one width, and the numbers that are crossed are those of the table.
        requires quotients { IsCountedLine top (length self.now) quotients.now }
        requires into { length into.old ≡ length self.now }
        requires numbers { AreTableNumbers top self.now }
        requires factor { IsTableNumber top factor }

        // On Ok each place has its difference, a number of the table; the width stays in any case.
        ensures crossed { OnOk result (into.new ≡ crossed_by factor self.now quotients.now) }
        ensures numbers { OnOk result (AreTableNumbers top into.new) }
        ensures width { length into.new ≡ length into.old }

        // On Err the step is one for some place, and makes a number that passes the top.
        ensures wide { IfErr result
            (λ wide. IsWideStep top (IsCrossStep factor self.now quotients.now) wide.step wide.left
            wide.right) }
    {
        into.entries.clear();
        into.constant = crossed(self.constant, factor, quotients.constant, top)?;
        let made = cross_entries(
            self.entries.as_slice(),
            factor,
            quotients.entries.as_slice(),
            Extent {
                width: self.width,
                top,
            },
            &mut into.entries,
        );
        into.marks = marks_of(into.entries.as_slice());
        made
    }

    /// Makes the line whose fractions are those of this one over the divisor, with 0 at the column that is left out.
    /// The steps are taken by the places, the constant first; none is taken where the fraction is 0.
    ///
    /// # Errors
    ///
    /// `Wide` where one of these steps makes a whole number that passes `top`.
    pub fn divide(
        &self,
        divisor: Frac,
        left_out: u32,
        into: &mut TableLine,
        top: Top,
    ) -> Result<(), Wide>
        // Both lines have one width, and the divisor is a number of the table that isn't 0.
        requires into { length into.old ≡ length self.now }
        requires numbers { AreTableNumbers top self.now }
        requires divisor { IsTableNumber top divisor }
        requires not_zero { divisor.numerator ≢ pos 0 }

        // On Ok each place has its quotient, a number of the table; the width stays in any case.
        ensures divided { OnOk result (into.new ≡ divided_without (suc left_out) divisor self.now
            0) }
        ensures numbers { OnOk result (AreTableNumbers top into.new) }
        ensures width { length into.new ≡ length into.old }

        // On Err the step divides some place, and makes a number that passes the top.
        ensures wide { IfErr result (λ wide. IsWideStep top (IsDivideStep divisor self.now)
            wide.step wide.left wide.right) }
    {
        into.entries.clear();
        into.constant = div(self.constant, divisor, top)?;
        let made = divide_entries(
            self.entries.as_slice(),
            divisor,
            left_out,
            Extent {
                width: self.width,
                top,
            },
            &mut into.entries,
        );
        into.marks = marks_of(into.entries.as_slice());
        made
    }
}
