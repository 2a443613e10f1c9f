//! Forms, steps, members, multipliers and entries of trees, as the programs that run scripts write them.

use design_problem::{Entry, Form, Member, Multipliers, WideAt};
use evidence_text::{side_word, step_word};
use std::fmt;
use wide_fraction::Wide;

/// The letters of a word.
fn letters(word: &[u8]) -> &str {
    str::from_utf8(word).unwrap_or("?")
}

/// A step as it is written: its name and its two fractions.
#[derive(Drop)]
pub struct Step(pub Wide);

impl fmt::Display for Step {
    fn fmt<W: fmt::Write>(&self, f: &mut fmt::Formatter<W>) -> fmt::Result {
        let name = letters(step_word(self.0.step));
        let left = self.0.left;
        let right = self.0.right;
        write!(
            f,
            "wide {name} {}/{} ",
            left.numerator(),
            left.denominator()
        )?;
        write!(f, "{}/{}", right.numerator(), right.denominator())
    }
}

/// A member of a basis, as it is written: its kind and number, and the bound that it has.
#[derive(Drop)]
pub struct Named(pub Member);

impl fmt::Display for Named {
    ghost use Rattle.std.specs.Prelude.{Some};
    ghost use Rattle.case_scripts.specs.WrittenWords.{member_text};

    ghost output = { λ named. Some (member_text named.0) };

    fn fmt<W: fmt::Write>(&self, f: &mut fmt::Formatter<W>) -> fmt::Result {
        match self.0 {
            Member::Low(var, bound) => write!(f, " low{var}={bound}"),
            Member::High(var, bound) => write!(f, " high{var}={bound}"),
            Member::Row(row) => write!(f, " row{row}"),
        }
    }
}

/// A row's multiplier, as it is written.
#[derive(Drop)]
pub struct Part(pub u64, pub u128);

impl fmt::Display for Part {
    ghost use Rattle.std.specs.Prelude.{Some};
    ghost use Rattle.case_scripts.specs.WrittenWords.{part_text};

    ghost output = { λ part. Some (part_text part.0 part.1) };

    fn fmt<W: fmt::Write>(&self, f: &mut fmt::Formatter<W>) -> fmt::Result {
        write!(f, " {}*row{}", self.1, self.0)
    }
}

/// The multipliers of rows, as they are written in a tree.
fn write_parts<W: fmt::Write>(parts: &Multipliers, f: &mut fmt::Formatter<W>) -> fmt::Result {
    write!(f, "refute")?;
    for (row, multiplier) in parts.as_slice() {
        write!(f, " {row} {multiplier}")?;
    }
    Ok(())
}

/// A step that is too wide, as it is written in a tree.
fn write_wide<W: fmt::Write>(wide: &WideAt, f: &mut fmt::Formatter<W>) -> fmt::Result {
    let name = letters(step_word(wide.step));
    write!(
        f,
        "{name} {}/{} ",
        wide.left.numerator, wide.left.denominator
    )?;
    write!(f, "{}/{}", wide.right.numerator, wide.right.denominator)?;
    for member in wide.basis.as_slice() {
        match member {
            Member::Low(var, bound) => write!(f, " low {var} {bound}")?,
            Member::High(var, bound) => write!(f, " high {var} {bound}")?,
            Member::Row(row) => write!(f, " row {row}")?,
        }
    }
    Ok(())
}

/// An entry of a tree, as it is written.
#[derive(Drop)]
struct Line<'a>(&'a Entry);

impl<'a> fmt::Display for Line<'a> {
    fn fmt<W: fmt::Write>(&self, f: &mut fmt::Formatter<W>) -> fmt::Result {
        match self.0 {
            Entry::Tighten {
                var,
                side,
                value,
                row,
            } => {
                let side = letters(side_word(*side));
                write!(f, "tighten {var} {side} {value} {row}")
            }
            Entry::Split { var, value } => write!(f, "split {var} {value}"),
            Entry::Halve { var, value, wide } => {
                write!(f, "halve {var} {value} ")?;
                write_wide(wide, f)
            }
            Entry::Refute { parts } => write_parts(parts, f),
            Entry::Undone => write!(f, "open"),
        }
    }
}

/// The entries of a tree, each on a line of its own.
#[derive(Drop)]
pub struct Entries<'a>(pub &'a [Entry]);

impl<'a> fmt::Display for Entries<'a> {
    fn fmt<W: fmt::Write>(&self, f: &mut fmt::Formatter<W>) -> fmt::Result {
        for entry in self.0 {
            write!(f, "\n  {}", Line(entry))?;
        }
        Ok(())
    }
}

/// The constant and the terms of a form.
#[derive(Drop)]
pub struct Terms<'a>(pub &'a Form);

impl<'a> fmt::Display for Terms<'a> {
    fn fmt<W: fmt::Write>(&self, f: &mut fmt::Formatter<W>) -> fmt::Result {
        write!(f, "{}", self.0.constant())?;
        for term in self.0.terms() {
            write!(f, " {}*x{}", term.coefficient, term.var)?;
        }
        Ok(())
    }
}
