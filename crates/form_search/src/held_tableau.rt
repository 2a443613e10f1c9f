//! The tableau that is kept from box to box, and with the pool from search to search.
ghost use Rattle.std.specs.Prelude.{◌≡◌, ℕ, ◌^◌, ◌<◌, List, ◌↔◌, length, All, IfErr, IfOk, IsTrue, OnErr, OnOk};
ghost use Rattle.area_graph.specs.declared.Point.{Point};
ghost use Rattle.design_problem.specs.Forms.{Form};
ghost use Rattle.design_problem.specs.Boxes.{IsBox};
ghost use Rattle.design_problem.specs.Steps.{IsStepTooWide, ratio_of};
ghost use Rattle.design_problem.specs.Text.{IsPrintedRatio};
ghost use Rattle.fraction_table.specs.declared.stage.Solved.TheVariants.{Feasible, Refuted};
ghost use Rattle.fraction_table.specs.declared.stage.Stage.TheVariants.{Ended};
ghost use Rattle.fraction_table.specs.Tableaus.{FitsBox, IsGoing, wide_at};
ghost use Rattle.form_search.specs.Tables.{IsHeld, IsHeldOver, IsTableauKept, KeepsForms, IsPrintedWide, IsStepTold, IsLeastTold, StandsAt};

use area_graph::Point;
use cost_base::{Listed, OutOfMemory, Ratio};
use design_problem::{CostBox, Form, Multipliers, WideAt};
use exact_simplex::Tableau;
use fraction_table::{SimplexStop, Solved};
use std::alloc::Global;
use wide_fraction::{Frac, Top, Wide};

/// A tableau that holds the first `held` forms of the pool, with what it was started for.
#[derive(Drop)]
pub(crate) struct HeldTableau {
    tableau: Tableau,
    held: usize,
    top: Top,
    variables: usize,
}

/// What a tableau says of its box and the pool's forms.
#[derive(Drop)]
pub(crate) enum Least {
    /// The least point of the box that meets the forms was put in place.
    Point,
    /// No point of the box meets them, by these multipliers.
    Refuted(Multipliers),
    /// A step needed too wide a number.
    Wide(WideAt),
}

/// A new tableau over the box, which holds no form yet.
fn started(alloc: Global, costs: &CostBox, top: Top) -> Result<HeldTableau, OutOfMemory>
    requires ranges { IsBox (length costs.now.low) costs.now }
    requires few { length costs.now.low < 2 ^ 32 }
    ensures { (forms : List Form) → IfOk result (StandsAt top costs.now forms) }
{
    Ok(HeldTableau {
        tableau: Tableau::start(alloc, costs, top)?,
        held: 0,
        top,
        variables: costs.low.as_slice().len(),
    })
}

/// The tableau over the box: the kept one moved there, with the forms that it holds; a new one where it is another
/// top's or of another number of variables, or it had stopped.
fn moved_there(
    alloc: Global,
    mut table: HeldTableau,
    costs: &CostBox,
    top: Top,
) -> Result<HeldTableau, OutOfMemory>
    requires ranges { IsBox (length costs.now.low) costs.now }
    requires few { length costs.now.low < 2 ^ 32 }
    requires fits { (forms : List Form) × IsHeld table.top table.variables forms table ×
        All (FitsBox costs.now) forms }
    ensures { (forms : List Form) → IsHeld table.top table.variables forms table →
        IfOk result (StandsAt top costs.now forms) }
{
    if table.moves_to(costs, top) {
        return Ok(table);
    }
    // For the prover alone: a call drops the tableau, so that its parts' drops aren't written out at each exit.
    drop(table);
    started(alloc, costs, top)
}

/// The tableau over the box: the kept one moved there where that can be, and else a new one.
pub(crate) fn moved(
    alloc: Global,
    kept: Option<HeldTableau>,
    costs: &CostBox,
    top: Top,
) -> Result<HeldTableau, OutOfMemory>
    requires ranges { IsBox (length costs.now.low) costs.now }
    requires few { length costs.now.low < 2 ^ 32 }
    requires fits { (forms : List Form) × IsTableauKept forms kept × All (FitsBox costs.now) forms }
    ensures { (forms : List Form) → IsTableauKept forms kept →
        IfOk result (StandsAt top costs.now forms) }
{
    match kept {
        Some(table) => moved_there(alloc, table, costs, top),
        None => started(alloc, costs, top),
    }
}

/// The fraction as it is printed.
fn ratio_of(fraction: Frac) -> Ratio
    ensures ratio { result ≡ ratio_of fraction }
    ensures printed { IsPrintedRatio result }
{
    Ratio {
        numerator: fraction.numerator(),
        denominator: fraction.denominator(),
    }
}

impl HeldTableau {
    /// Whether it was started for so many variables and this top.
    fn is_for(&self, variables: usize, top: Top) -> bool
        ensures { IsTrue result ↔ ((self.now.variables ≡ variables) × (self.now.top ≡ top)) }
    {
        self.variables == variables && self.top.size() == top.size()
    }

    /// Moves it to the box, with the forms that it holds. It can't where it was started for another top or another
    /// number of variables, or had stopped.
    fn moves_to(&mut self, costs: &CostBox, top: Top) -> bool
        requires ranges { IsBox (length costs.now.low) costs.now }
        requires fits { (forms : List Form) ×
            IsHeld self.old.top self.old.variables forms self.old × All (FitsBox costs.now) forms }
        ensures { (forms : List Form) → IsHeld self.old.top self.old.variables forms self.old →
            IsTrue result → StandsAt top costs.now forms self.new }
    {
        self.is_for(costs.low.as_slice().len(), top) && self.tableau.rebase(costs).is_ok()
    }

    /// Adds the forms of the pool that it doesn't hold yet, in order.
    fn add_rows(&mut self, alloc: Global, forms: &[Form]) -> Result<(), SimplexStop>
        // The tableau stands over its box with the pool's first forms, all of which fit the box.
        requires stands { StandsAt self.old.tableau.top self.old.tableau.costs forms.now self.old }
        requires fits { All (FitsBox self.old.tableau.costs) forms.now }

        // On success it stands there with all forms of the pool.
        ensures stands { OnOk result (StandsAt self.old.tableau.top self.old.tableau.costs forms.now
            self.new) }
        ensures all { OnOk result (self.new.held ≡ length forms.now) }

        // Whatever comes it holds the first forms; a step that stops it is too wide at its basis.
        ensures held { IsHeldOver self.old.tableau.top self.old.tableau.costs forms.now self.new }
        ensures wide { IfErr result (IsStepTold self.old.tableau.costs forms.now self.new.tableau) }
    {
        for row in self.held..forms.len() {
            self.tableau.add_row(alloc, &forms[row])?;
            self.held = row + 1;
        }
        Ok(())
    }

    /// Puts the least point in place, which the tableau has found to be.
    fn point_to(&self, point: &mut Point) -> Result<Least, SimplexStop>
        requires solved { self.now.tableau.stage ≡ Ended Feasible }
        requires places { length point.old.values ≡ length self.now.tableau.costs.low }
        ensures told { IfOk result (IsLeastTold self.now.tableau.top self.now.tableau.costs
            self.now.tableau.rows point.new) }
        ensures places { length point.new.values ≡ length point.old.values }
        ensures wide { IfErr result (IsStepTold self.now.tableau.costs self.now.tableau.rows
            self.now.tableau) }
    {
        self.tableau.point(point)?;
        Ok(Least::Point)
    }

    /// The multipliers of the form that the tableau has refuted.
    fn parts_of(&self, alloc: Global, form: u64) -> Result<Least, SimplexStop>
        requires { self.now.tableau.stage ≡ Ended (Refuted form) }
        ensures told { (point : Point) → IfOk result (IsLeastTold self.now.tableau.top
            self.now.tableau.costs self.now.tableau.rows point) }
        ensures wide { IfErr result (IsStepTold self.now.tableau.costs self.now.tableau.rows
            self.now.tableau) }
    {
        let mut parts = Multipliers::from_items(Vec::new(alloc));
        self.tableau.multipliers(alloc, form, &mut parts)?;
        Ok(Least::Refuted(parts))
    }

    /// Solves, and puts the least point in place.
    fn solve_held(&mut self, alloc: Global, point: &mut Point) -> Result<Least, SimplexStop>
        // The tableau can go on, and the point has a place for each of its variables.
        requires going { IsGoing self.old.tableau.stage }
        requires places { length point.old.values ≡ length self.old.tableau.costs.low }

        // What it tells holds of the box and the forms that are held.
        ensures told { IfOk result (IsLeastTold self.old.tableau.top self.old.tableau.costs
            self.old.tableau.rows point.new) }
        ensures places { length point.new.values ≡ length point.old.values }

        // The tableau holds these forms as before; a step that stops it is too wide at its basis.
        ensures kept { KeepsForms self.old self.new }
        ensures going { OnOk result (IsGoing self.new.tableau.stage) }
        ensures wide { IfErr result (IsStepTold self.old.tableau.costs self.old.tableau.rows
            self.new.tableau) }
    {
        match self.tableau.solve()? {
            Solved::Feasible => self.point_to(point),
            Solved::Refuted(form) => self.parts_of(alloc, form),
        }
    }

    /// Adds the forms, solves, and puts the least point in place.
    fn solve_to(
        &mut self,
        alloc: Global,
        forms: &[Form],
        point: &mut Point,
    ) -> Result<Least, SimplexStop>
        // The tableau stands over its box with the pool's first forms, all of which fit the box.
        requires stands { StandsAt self.old.tableau.top self.old.tableau.costs forms.now self.old }
        requires fits { All (FitsBox self.old.tableau.costs) forms.now }
        requires places { length point.old.values ≡ length self.old.tableau.costs.low }

        // What it tells holds of the box and the forms, and the tableau can go on from there.
        ensures told { IfOk result (IsLeastTold self.old.tableau.top self.old.tableau.costs
            forms.now point.new) }
        ensures stands { OnOk result (StandsAt self.old.tableau.top self.old.tableau.costs forms.now
            self.new) }

        // Whatever comes it holds the first forms; a step that stops it is too wide at its basis.
        ensures held { IsHeldOver self.old.tableau.top self.old.tableau.costs forms.now self.new }
        ensures places { length point.new.values ≡ length point.old.values }
        ensures wide { IfErr result (IsStepTold self.old.tableau.costs forms.now self.new.tableau) }
    {
        self.add_rows(alloc, forms)?;
        self.solve_held(alloc, point)
    }

    /// The step that was too wide, with the basis at which it was taken.
    fn wide_at(&self, alloc: Global, wide: Wide) -> Result<WideAt, OutOfMemory>
        requires wide { IsStepTooWide self.now.tableau.top self.now.tableau.costs
            self.now.tableau.rows (wide_at wide self.now.tableau.basis) }
        requires some { 0 < length self.now.tableau.costs.low }
        ensures { IfOk result (IsPrintedWide self.now.tableau.top self.now.tableau.costs
            self.now.tableau.rows) }
    {
        let basis = self.tableau.basis(alloc)?;
        Ok(WideAt {
            step: wide.step,
            left: ratio_of(wide.left),
            right: ratio_of(wide.right),
            basis: Listed::from_items(basis),
        })
    }

    /// What the tableau says of the box and the forms, where it holds the first of them.
    pub(crate) fn least(
        &mut self,
        alloc: Global,
        forms: &[Form],
        point: &mut Point,
    ) -> Result<Least, OutOfMemory>
        // The tableau stands over its box with the pool's first forms, all of which fit the box.
        requires stands { StandsAt self.old.tableau.top self.old.tableau.costs forms.now self.old }
        requires fits { All (FitsBox self.old.tableau.costs) forms.now }
        requires some { 0 < length self.old.tableau.costs.low }
        requires places { length point.old.values ≡ length self.old.tableau.costs.low }

        // A least point, multipliers or a too wide step comes; after a point the tableau can go on.
        ensures told { IfOk result (IsLeastTold self.old.tableau.top self.old.tableau.costs
            forms.now point.new) }
        ensures stands { result ≡ Ok Least.Point → StandsAt self.old.tableau.top
            self.old.tableau.costs forms.now self.new }

        // Whatever comes it holds the first forms, and the point keeps a value for each variable.
        ensures held { IsHeldOver self.old.tableau.top self.old.tableau.costs forms.now self.new }
        ensures places { length point.new.values ≡ length point.old.values }
    {
        match self.solve_to(alloc, forms, point) {
            Ok(least) => Ok(least),
            Err(SimplexStop::OutOfMemory) => Err(OutOfMemory),
            Err(SimplexStop::TooWide(wide)) => Ok(Least::Wide(self.wide_at(alloc, wide)?)),
        }
    }
}
