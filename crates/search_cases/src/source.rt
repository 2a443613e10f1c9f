//! A list of forms as a source of forms: a point is accepted where each of them is at least 0.
ghost use Rattle.std.specs.Prelude.{◌≡◌, ◌^◌, ◌<◌, ◌≤◌, ◌*ℤ◌, pos, nat_abs, length, All, IfOk, IsTrue, OnErr};
ghost use Rattle.design_problem.specs.Forms.{form_at, terms_of, value_at};
ghost use Rattle.form_search.specs.Sources.{IsCostPoint};
ghost use Rattle.search_cases.specs.SmallForms.{IsFormAsked, IsTiny, answer_so_far};

use area_graph::Point;
use cost_base::OutOfMemory;
use design_problem::Form;
use form_search::{Asked, FormPool, FormSource};
use std::alloc::Global;
use std::marker::Model;

/// Forms in so many variables, each with at most 32 coefficients other than 0, of size at most 4, and a constant of
/// size at most 2^20.
#[derive(Drop)]
pub struct FormList {
    variables: u32,
    forms: Vec<Form>,
}

impl Model for FormList {
    ghost use Rattle.std.specs.Prelude.{All};
    ghost use Rattle.search_cases.specs.SmallForms.{SmallForms, IsTiny};

    ghost Value = { SmallForms };

    ghost view = { λ l. record { variables = l.variables; forms = l.forms.items } };

    ghost invariant = { λ l. All (IsTiny l.variables) l.forms.items };
}

/// Whether the size of each coefficient is at most 4.
fn are_tiny(form: &Form) -> bool
    ensures { IsTrue result → All (λ t. nat_abs t.coefficient ≤ 4) (terms_of form.now) }
{
    form.terms()
        .iter()
        .all(|term| term.coefficient.unsigned_abs() <= 4)
}

/// Whether a list of forms in so many variables takes the form.
fn is_tiny(form: &Form, variables: u32) -> bool
    ensures { IsTrue result → IsTiny variables form.now }
{
    if form.variables() != variables as usize || form.terms().len() > 32 {
        return false;
    }
    if form.constant().unsigned_abs() > 1 << 20 {
        return false;
    }
    are_tiny(form)
}

/// A coefficient times a value.
fn product(coefficient: i64, value: u128) -> i128
    requires coefficient { nat_abs coefficient ≤ 4 }
    requires value { value < 2 ^ 116 }
    ensures value { result ≡ (coefficient *ℤ pos value) }
    ensures size { nat_abs result ≤ 2 ^ 118 }
{
    i128::from(coefficient) * (value as i128)
}

/// A constant times a scale.
fn constant_part(constant: i64, scale: u128) -> i128
    requires constant { nat_abs constant ≤ 2 ^ 20 }
    requires scale { scale < 2 ^ 100 }
    ensures value { result ≡ (constant *ℤ pos scale) }
    ensures size { nat_abs result ≤ 2 ^ 120 }
{
    i128::from(constant) * (scale as i128)
}

/// The value of a form at a point, times its scale.
fn value_of(form: &Form, point: &Point) -> i128
    requires tiny { IsTiny (length point.now.values) form.now }
    requires point { IsCostPoint (length point.now.values) point.now }
    ensures { result ≡ value_at form.now point.now }
{
    let values = point.values.as_slice();
    let terms = form.terms();
    let mut sum = constant_part(form.constant(), point.scale);
    for term in terms {
        sum += product(term.coefficient, values[term.var as usize]);
    }
    sum
}

/// The answer so far, and whether one more form was added.
fn joined(asked: Asked, is_added: bool) -> Asked
    ensures { result ≡ answer_so_far asked is_added }
{
    if is_added { Asked::Added } else { asked }
}

impl FormList {
    /// The list without a form.
    pub(crate) fn new(alloc: Global, variables: u32) -> FormList
        ensures { result.variables ≡ variables }
    {
        FormList {
            variables,
            forms: Vec::new(alloc),
        }
    }

    /// Puts a form at the end, where the list takes it. Whether it does is the answer.
    pub(crate) fn push(&mut self, form: Form) -> Result<bool, OutOfMemory>
        ensures { self.new.variables ≡ self.old.variables }
    {
        if !is_tiny(&form, self.variables) {
            return Ok(false);
        }
        self.forms.push(form)?;
        Ok(true)
    }

    /// Adds the form at a place to the pool, where it is negative at the point.
    fn ask_one(&self, place: usize, point: &Point, pool: &mut FormPool) -> Result<bool, OutOfMemory>
        requires point { IsCostPoint self.now.variables point.now }
        requires place { place < length self.now.forms }
        ensures one { IfOk result (IsFormAsked point.now (form_at self.now.forms place) pool.old
            pool.new) }
        ensures same { OnErr result (pool.new ≡ pool.old) }
    {
        let form = &self.forms[place];
        if value_of(form, point) >= 0 {
            return Ok(false);
        }
        let copy = form.copy(pool.alloc())?;
        pool.push(copy)?;
        Ok(true)
    }
}

impl FormSource for FormList {
    ghost use Rattle.std.specs.Prelude.{All};
    ghost use Rattle.design_problem.specs.Forms.{AreMet};
    ghost use Rattle.search_cases.specs.SmallForms.{IsTrueSmallForm};
    ghost use Rattle.search_cases.specs.SourceLaws.{small_scale_is_free, small_forms_hold, small_forms_listed};

    ghost count = { λ s. s.variables };

    ghost accepted = { λ s. AreMet s.forms };

    ghost true_form = { λ s. IsTrueSmallForm s };

    ghost in_step = { λ s forms. Unit {0} };

    ghost possible_forms = { λ s. s.forms };

    fn variables(&self) -> u32 {
        self.variables
    }

    fn ask(&mut self, point: &Point, pool: &mut FormPool) -> Result<Asked, OutOfMemory> {
        let mut asked = Asked::Nothing;
        for place in 0..self.forms.len() {
            asked = joined(asked, self.ask_one(place, point, pool)?);
        }
        Ok(asked)
    }

    fn accepts(&mut self, point: &Point) -> bool {
        self.forms.iter().all(|form| value_of(form, point) >= 0)
    }

    ghost true_forms_hold = { λ s. small_forms_hold s };

    ghost true_forms_listed = { λ s. small_forms_listed s };

    ghost scale_is_free = { λ s. small_scale_is_free s };
}
