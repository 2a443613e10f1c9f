//! The relaxation of a box: its least accepted point, or why there is none.
ghost use Rattle.std.specs.Prelude.{◌≡◌, ℕ, ◌^◌, ◌<◌, length, IfOk, IfSome, None, OnOk};
ghost use Rattle.design_problem.specs.Earnest.{IsLeastPoint};
ghost use Rattle.design_problem.specs.Forms.{AreMet};
ghost use Rattle.form_search.specs.Calls.{AreInStep, Leaves};
ghost use Rattle.form_search.specs.Points.{IsCostsBox};
ghost use Rattle.form_search.specs.Tables.{IsRelaxation, IsRelaxedWith, IsRoundTold, StandsAt};
ghost use Rattle.form_search.specs.NextEntries.{HasNew};

use crate::held_tableau::{HeldTableau, Least, moved};
use crate::{Asked, FormPool, FormSource};
use area_graph::Point;
use cost_base::OutOfMemory;
use design_problem::{CostBox, Multipliers, WideAt};
use wide_fraction::Top;

/// What the relaxation of a box comes to.
#[derive(Drop)]
pub(crate) enum Relaxed {
    /// The least accepted point of the box was put in place.
    Accepted,
    /// No point of the box meets the forms, by these multipliers.
    Refuted(Multipliers),
    /// A step needed too wide a number.
    Wide(WideAt),
}

/// Asks the source at the least point of the box that meets the pool's forms; None where new forms came.
fn ask_least<S: FormSource>(
    source: &mut S,
    pool: &mut FormPool,
    costs: &CostBox,
    point: &Point,
) -> Result<Option<Relaxed>, OutOfMemory>
    // The source is in step with the pool, and the box is one of costs from 1 on.
    requires in_step { AreInStep S.FormSource source.old pool.old }
    requires ranges { IsCostsBox (S.count source.old) costs.now }

    // The point is the least of the box that meets the pool's forms, of a scale below 2^100.
    requires least { IsLeastPoint (AreMet pool.old) costs.now point.now }
    requires small { point.now.scale < 2 ^ 100 }

    // It is then the least accepted point, or the pool has a form that it hadn't.
    ensures relaxed { (top : ℕ) → IfOk result (λ found. IfSome found
        (IsRelaxation (S.accepted source.old) top costs.now pool.new point.now)) }
    ensures more { result ≡ Ok None → HasNew pool.old pool.new }

    // Only true forms came to the pool, and unless memory is wanting the source is in step with it.
    ensures left { Leaves S.FormSource (OnOk result) source.old source.new pool.old pool.new }
{
    match source.ask(point, pool)? {
        Asked::Nothing => Ok(Some(Relaxed::Accepted)),
        Asked::Added => Ok(None),
    }
}

/// One round: solves the tableau with the pool's forms, and asks the source at its least point; None where
/// new forms came.
fn relax_once<S: FormSource>(
    source: &mut S,
    pool: &mut FormPool,
    costs: &CostBox,
    table: &mut HeldTableau,
    point: &mut Point,
) -> Result<Option<Relaxed>, OutOfMemory>
    // The source is in step with the pool, and the box of costs has a variable at least.
    requires in_step { AreInStep S.FormSource source.old pool.old }
    requires ranges { IsCostsBox (S.count source.old) costs.now }
    requires some { 0 < S.count source.old }

    // The tableau stands over the box with the pool's first forms, and no step has stopped it.
    requires stands { StandsAt table.old.tableau.top costs.now pool.old table.old }
    requires places { length point.old.values ≡ S.count source.old }

    // The round ends the relaxation, or it leaves new forms and a tableau that can go on.
    ensures round { IfOk result (IsRoundTold (S.accepted source.old) table.old.tableau.top costs.now
        pool.old pool.new point.new table.new) }
    ensures places { length point.new.values ≡ length point.old.values }

    // Only true forms came to the pool, and unless memory is wanting the source is in step with it.
    ensures left { Leaves S.FormSource (OnOk result) source.old source.new pool.old pool.new }
{
    match table.least(pool.alloc(), pool.as_slice(), point)? {
        Least::Point => ask_least(source, pool, costs, point),
        Least::Refuted(parts) => Ok(Some(Relaxed::Refuted(parts))),
        Least::Wide(wide) => Ok(Some(Relaxed::Wide(wide))),
    }
}

/// Rounds until no new form comes.
fn relax_by<S: FormSource>(
    source: &mut S,
    pool: &mut FormPool,
    costs: &CostBox,
    table: &mut HeldTableau,
    point: &mut Point,
) -> Result<Relaxed, OutOfMemory>
    // The source is in step with the pool, and the box of costs has a variable at least.
    requires in_step { AreInStep S.FormSource source.old pool.old }
    requires ranges { IsCostsBox (S.count source.old) costs.now }
    requires some { 0 < S.count source.old }

    // The tableau stands over the box with the pool's first forms, and no step has stopped it.
    requires stands { StandsAt table.old.tableau.top costs.now pool.old table.old }
    requires places { length point.old.values ≡ S.count source.old }

    // The relaxation has come to its end, and the tableau holds the pool's first forms.
    ensures relaxed { IfOk result (IsRelaxedWith (S.accepted source.old) table.old.tableau.top
        costs.now pool.new point.new table.new) }
    ensures places { length point.new.values ≡ length point.old.values }

    // Only true forms came to the pool, and unless memory is wanting the source is in step with it.
    ensures left { Leaves S.FormSource (OnOk result) source.old source.new pool.old pool.new }
{
    'rounds: loop {
        if let Some(relaxed) = relax_once(source, pool, costs, table, point)? {
            return Ok(relaxed);
        }
    }
}

/// Rounds until no new form comes, with a tableau that is kept with the pool then.
fn relax_with<S: FormSource>(
    source: &mut S,
    pool: &mut FormPool,
    costs: &CostBox,
    mut table: HeldTableau,
    point: &mut Point,
) -> Result<Relaxed, OutOfMemory>
    // The source is in step with the pool, and the box of costs has a variable at least.
    requires in_step { AreInStep S.FormSource source.old pool.old }
    requires ranges { IsCostsBox (S.count source.old) costs.now }
    requires some { 0 < S.count source.old }

    // The tableau stands over the box with the pool's first forms, and no step has stopped it.
    requires stands { StandsAt table.tableau.top costs.now pool.old table }
    requires places { length point.old.values ≡ S.count source.old }

    // There is a least accepted point, or multipliers refute the box, or a step is too wide.
    ensures relaxed { IfOk result (IsRelaxation (S.accepted source.old) table.tableau.top costs.now
        pool.new point.new) }
    ensures places { length point.new.values ≡ length point.old.values }

    // Only true forms came to the pool, and unless memory is wanting the source is in step with it.
    ensures left { Leaves S.FormSource (OnOk result) source.old source.new pool.old pool.new }
{
    match relax_by(source, pool, costs, &mut table, point) {
        Ok(relaxed) => {
            pool.keep_tableau(table);
            Ok(relaxed)
        }
        Err(error) => {
            // For the prover alone: a call drops the tableau, so that its parts' drops aren't written out at each exit.
            drop(table);
            Err(error)
        }
    }
}

/// Relaxes a box: moves the tableau that is kept with the pool there or starts one, and asks the source at the least
/// point that meets the pool's forms, until that point is accepted or there is none. The tableau is kept with the pool.
pub(crate) fn relax<S: FormSource>(
    source: &mut S,
    top: Top,
    pool: &mut FormPool,
    costs: &CostBox,
    point: &mut Point,
) -> Result<Relaxed, OutOfMemory>
    // The source is in step with the pool, and the box of costs has a variable at least.
    requires in_step { AreInStep S.FormSource source.old pool.old }
    requires ranges { IsCostsBox (S.count source.old) costs.now }
    requires some { 0 < S.count source.old }
    requires places { length point.old.values ≡ S.count source.old }

    // There is a least accepted point, or multipliers refute the box, or a step is too wide.
    ensures relaxed { IfOk result (IsRelaxation (S.accepted source.old) top costs.now pool.new
        point.new) }
    ensures places { length point.new.values ≡ length point.old.values }

    // Only true forms came to the pool, and unless memory is wanting the source is in step with it.
    ensures left { Leaves S.FormSource (OnOk result) source.old source.new pool.old pool.new }
{
    let table = moved(pool.alloc(), pool.take_tableau(), costs, top)?;
    relax_with(source, pool, costs, table, point)
}
