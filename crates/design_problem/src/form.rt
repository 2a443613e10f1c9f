//! Rows and their forms.
ghost use Rattle.std.specs.Prelude.{◌≡◌, ◌^◌, ◌<◌, ◌≤◌, ◌++◌, length, All, IfOk, OnOk};
ghost use Rattle.design_problem.specs.Forms.{term_of, terms_from, terms_of, form_by, AreTerms};

use cost_base::{Listed, OutOfMemory};
use std::alloc::Global;
use std::marker::Model;

/// A request, by its number, and a rival of its path: a simple path of that request other than the wanted one. The
/// rival is its edges, in their order; they start where the wanted path starts.
#[derive(Drop)]
pub struct Row {
    pub request: u32,
    pub rival: Listed<u32>,
}

/// A variable of a form, by its number, with its coefficient.
#[derive(Clone, Copy, Debug, PartialEq, Eq)]
pub struct Term {
    pub var: u32,
    pub coefficient: i64,
}

/// A whole constant and a whole coefficient for each variable. The form of a row is cost(rival) - cost(wanted path)
/// - 1, which at whole costs is at least 0 exactly where the rival costs more (Ben-Ameur and Gourdin 2003; Bley 2007).
///
/// Only the coefficients that aren't 0 are kept, each with its variable.
#[derive(Drop)]
pub struct Form {
    constant: i64,
    variables: usize,
    terms: Vec<Term>,
}

impl Model for Form {
    ghost use Rattle.std.specs.Prelude.{◌≡◌};
    ghost use Rattle.design_problem.specs.Forms.{Form, form_by, terms_of};

    ghost Value = { Form };

    ghost view = { λ f. form_by f.variables f.constant f.terms.items };

    ghost invariant = { λ f.
        f.terms.items ≡ terms_of (form_by f.variables f.constant f.terms.items) };
}

/// Puts the term of a coefficient at the end, unless it is 0.
pub(crate) fn push_term(
    terms: &mut Vec<Term>,
    var: u32,
    coefficient: i64,
) -> Result<(), OutOfMemory>
    ensures { OnOk result (terms.new.items ≡ terms.old.items ++ term_of var coefficient) }
{
    if coefficient == 0 {
        return Ok(());
    }
    terms.push(Term { var, coefficient })?;
    Ok(())
}

/// The terms of a coefficient for each variable.
fn terms_of_all(alloc: Global, coefficients: &[i64]) -> Result<Vec<Term>, OutOfMemory>
    requires { length coefficients.now ≤ 2 ^ 32 }
    ensures { IfOk result (λ terms. terms.items ≡ terms_from 0 coefficients.now) }
{
    let mut terms = Vec::new(alloc);
    for var in 0..coefficients.len() {
        push_term(&mut terms, var as u32, coefficients[var])?;
    }
    Ok(terms)
}

impl Form {
    /// The form with this constant and these coefficients, one for each variable in their order.
    ///
    /// # Errors
    ///
    /// `OutOfMemory`.
    pub fn from_coefficients(
        alloc: Global,
        constant: i64,
        coefficients: &[i64],
    ) -> Result<Form, OutOfMemory>
        requires { length coefficients.now ≤ 2 ^ 32 }
        ensures { IfOk result (λ form. form ≡ record {
          constant = constant;
          coefficients = coefficients.now;
        }) }
    {
        let terms = terms_of_all(alloc, coefficients)?;
        Ok(Form {
            constant,
            variables: coefficients.len(),
            terms,
        })
    }

    /// The form in so many variables with this constant and these terms, which have coefficients other than 0 and rise
    /// by their variables. It takes no memory.
    pub fn from_terms(variables: usize, constant: i64, terms: Vec<Term>) -> Form
        requires { AreTerms variables terms.items }
        ensures { result ≡ form_by variables constant terms.items }
    {
        Form {
            constant,
            variables,
            terms,
        }
    }

    /// The constant.
    pub fn constant(&self) -> i64
        ensures { result ≡ self.now.constant }
    {
        self.constant
    }

    /// How many variables the form has, those with coefficient 0 too.
    pub fn variables(&self) -> usize
        ensures { result ≡ length self.now.coefficients }
    {
        self.variables
    }

    /// The coefficients that aren't 0, each with its variable, in the order of the variables.
    pub fn terms(&self) -> &[Term]
        ensures terms { result.now ≡ terms_of self.now }
        ensures known { All (λ t. t.var < length self.now.coefficients) result.now }
    {
        self.terms.as_slice()
    }

    /// A copy of the form.
    ///
    /// # Errors
    ///
    /// `OutOfMemory`.
    pub fn copy(&self, alloc: Global) -> Result<Form, OutOfMemory>
        ensures { IfOk result (λ form. form ≡ self.now) }
    {
        let terms = Vec::from_slice(alloc, self.terms.as_slice())?;
        Ok(Form {
            constant: self.constant,
            variables: self.variables,
            terms,
        })
    }
}
