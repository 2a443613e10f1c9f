//! Lists as the program writes them: members of a basis, multipliers and forms.

use case_scripts::{Named, Part, Terms};
use design_problem::{Form, Member};
use std::fmt;

/// The members of a basis.
#[derive(Drop)]
pub struct Members<'a>(pub &'a [Member]);

impl<'a> fmt::Display for Members<'a> {
    fn fmt<W: fmt::Write>(&self, f: &mut fmt::Formatter<W>) -> fmt::Result {
        for member in self.0 {
            write!(f, "{}", Named(*member))?;
        }
        Ok(())
    }
}

/// The multipliers of rows.
#[derive(Drop)]
pub struct MultiplierWords<'a>(pub &'a [(u64, u128)]);

impl<'a> fmt::Display for MultiplierWords<'a> {
    fn fmt<W: fmt::Write>(&self, f: &mut fmt::Formatter<W>) -> fmt::Result {
        for (row, multiplier) in self.0 {
            write!(f, "{}", Part(*row, *multiplier))?;
        }
        Ok(())
    }
}

/// Forms, each on a line of its own.
#[derive(Drop)]
pub struct Forms<'a>(pub &'a [Form]);

impl<'a> fmt::Display for Forms<'a> {
    fn fmt<W: fmt::Write>(&self, f: &mut fmt::Formatter<W>) -> fmt::Result {
        for form in self.0 {
            write!(f, "\n  form {}", Terms(form))?;
        }
        Ok(())
    }
}
