//! The rivals of a problem's wanted paths and a bound of the total, as the source of a search.
ghost use Rattle.std.specs.Prelude.{◌≡◌, ◌^◌, ◌<◌, ◌++◌, ◌∷◌, [], length, IfOk, OnErr, OnOk, MatchBool, None, Some};
ghost use Rattle.std.specs.Prelude.{pos, ◌<ℤ◌, ◌≤ℤ◌};
ghost use Rattle.design_problem.specs.Forms.{value_at};
ghost use Rattle.rival_separation.specs.Askers.{IsAskerFor};
ghost use Rattle.form_search.specs.Sources.{IsCostPoint};
ghost use Rattle.least_total.specs.Totals.{form_of_total};

use crate::totals::{is_over, total_form};
use area_graph::Point;
use cost_base::OutOfMemory;
use cost_branching::{Begun, Rivals};
use design_problem::{Problem, Row, keeps_problem_on_graph};
use form_search::{Asked, FormPool, FormSource};
use rival_separation::Asker;
use std::alloc::Global;
use std::marker::Model;

/// The source whose accepted points are those at which each wanted path of a problem leads by the scale and the
/// sum of the values is at most `most` times the scale. Its true forms are those of the problem's rows, and the
/// form of the total.
///
/// It keeps the rows of the pool's forms, in their order, and how many of them came before the form of the total, once
/// that one has come.
#[derive(Drop)]
pub(crate) struct Bounded<'a, B: Begun> {
    rivals: Rivals<'a, B>,
    most: u32,
    before: Option<usize>,
}

impl<'a, B: Begun> Model for Bounded<'a, B> {
    ghost use Rattle.std.specs.Prelude.{◌^◌, ◌<◌};
    ghost use Rattle.least_total.specs.Bounded.{BoundedRows};

    ghost Value = { BoundedRows };

    ghost view = { λ s. record { known = s.rivals; most = s.most; before = s.before } };

    ghost invariant = { λ s. s.most < 2 ^ 26 };
}

impl<'a, B: Begun> Bounded<'a, B> {
    /// The rivals of a problem's paths and a bound of the total, where no row is known yet.
    pub(crate) fn new(
        alloc: Global,
        problem: &'a Problem,
        asker: Asker,
        most: u32,
    ) -> Bounded<'a, B>
        requires problem { problem.now ≡ B.problem }
        requires asker { IsAskerFor problem.now.graph problem.now.requests asker }
        requires begun { B.rows ≡ [] }
        requires small { most < 2 ^ 26 }
        ensures { result ≡ record {
          known = record { problem = problem.now; rows = [] };
          most = most;
          before = None;
        } }
    {
        Bounded {
            rivals: Rivals::new(problem, asker, Vec::new(alloc)),
            most,
            before: None,
        }
    }

    /// The rows that are known, and how many of them came before the form of the total, if it has come.
    pub(crate) fn into_parts(self) -> (Vec<Row>, Option<usize>)
        ensures rows { result.0.items ≡ self.entry.known.rows }
        ensures before { result.1 ≡ self.entry.before }
        ensures problem { self.entry.known.problem ≡ B.problem }
    {
        let Bounded {
            rivals,
            most: _,
            before,
        } = self;
        (rivals.into_rows(), before)
    }

    /// Whether the form of the total is negative at the point.
    fn is_over(&self, point: &Point) -> bool
        requires { IsCostPoint (length self.now.known.problem.low) point.now }
        ensures { MatchBool result (value_at (form_of_total self.now.known.problem self.now.most)
            point.now <ℤ pos 0)
            (pos 0 ≤ℤ value_at (form_of_total self.now.known.problem self.now.most) point.now) }
    {
        keeps_problem_on_graph(self.rivals.problem());
        is_over(point, self.most)
    }

    /// Puts the form of the total at the end of the pool. Where memory is wanting both are as before.
    fn add_total(&mut self, pool: &mut FormPool) -> Result<(), OutOfMemory>
        // The rows and the bound stay as they are.
        ensures known { self.new.known ≡ self.old.known }
        ensures most { self.new.most ≡ self.old.most }

        // On success the form of the total stands last in the pool, behind the rows known so far.
        ensures place { OnOk result (self.new.before ≡ Some (length self.old.known.rows)) }
        ensures form { OnOk result (pool.new ≡ pool.old ++ form_of_total self.old.known.problem
            self.old.most ∷ []) }

        // After want of memory the place of the total and the pool are as before.
        ensures same_place { OnErr result (self.new.before ≡ self.old.before) }
        ensures same_forms { OnErr result (pool.new ≡ pool.old) }
    {
        keeps_problem_on_graph(self.rivals.problem());
        let variables = self.rivals.problem().low.as_slice().len();
        let form = total_form(pool.alloc(), variables, self.most)?;
        pool.push(form)?;
        self.before = Some(self.rivals.rows().len());
        Ok(())
    }
}

impl<'a, B: Begun> FormSource for Bounded<'a, B> {
    ghost use Rattle.std.specs.Prelude.{length};
    ghost use Rattle.least_total.specs.Totals.{LeadsWithin};
    ghost use Rattle.least_total.specs.Bounded.{IsPoolWithTotal, IsTrueWithin, possible_forms_within};
    ghost use Rattle.least_total.specs.BoundedLaws.{total_scale_is_free, total_forms_hold, total_forms_listed};

    ghost count = { λ s. length s.known.problem.low };

    ghost accepted = { λ s. LeadsWithin s.known.problem s.most };

    ghost true_form = { λ s. IsTrueWithin s.known.problem s.most };

    ghost in_step = { λ s forms. IsPoolWithTotal s forms };

    ghost possible_forms = { λ s. possible_forms_within s.known.problem s.most };

    fn variables(&self) -> u32 {
        self.rivals.variables()
    }

    fn ask(&mut self, point: &Point, pool: &mut FormPool) -> Result<Asked, OutOfMemory> {
        keeps_problem_on_graph(self.rivals.problem());
        let asked = self.rivals.ask_all(point, pool)?;
        if !self.is_over(point) {
            return Ok(asked);
        }
        self.add_total(pool)?;
        Ok(Asked::Added)
    }

    fn accepts(&mut self, point: &Point) -> bool {
        if self.is_over(point) {
            return false;
        }
        self.rivals.each_leads(point)
    }

    ghost true_forms_hold = { λ s. total_forms_hold s.known.problem s.most };

    ghost true_forms_listed = { λ s. total_forms_listed s.known.problem s.most };

    ghost scale_is_free = { λ s. total_scale_is_free s.known.problem s.most };
}
