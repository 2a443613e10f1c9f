//! What comes next at the open box: by one form, by its least point, or by a cut.
ghost use Rattle.std.specs.Prelude.{◌≡◌, ◌≢◌, ℕ, ◌<◌, List, length, slice_get, Some, All, IfOk, IfSome, OnOk};
ghost use Rattle.area_graph.specs.declared.Point.{Point};
ghost use Rattle.area_graph.specs.Costs.{at_costs};
ghost use Rattle.design_problem.specs.declared.boxes.CostBox.{CostBox};
ghost use Rattle.design_problem.specs.declared.tree.Entry.TheVariants.{Split};
ghost use Rattle.design_problem.specs.declared.tree.Side.{Side};
ghost use Rattle.design_problem.specs.Forms.{Form};
ghost use Rattle.design_problem.specs.Boxes.{IsInBox, IsPointOf};
ghost use Rattle.design_problem.specs.Earnest.{IsLeastPoint};
ghost use Rattle.design_problem.specs.OpenPlaces.{first_place};
ghost use Rattle.form_search.specs.AdvisorsAsked.{AreAskedAt, AreAskedNext};
ghost use Rattle.form_search.specs.Calls.{AreInStep, Leaves};
ghost use Rattle.form_search.specs.Sources.{SameFor, SameSource};
ghost use Rattle.form_search.specs.Points.{AreCostsOf, IsCostsBox, IsFractional, IsLeastOf, IsIntegralPoint};
ghost use Rattle.form_search.specs.NextEntries.{IsDesk, IsNextStep, IsSplitAt};

use crate::candidates::candidates_of;
use crate::costs_of_points::{are_values_accepted, is_whole, value_costs, whole_costs};
use crate::desk::{Desk, Next, halved};
use crate::one_point::{at_one_point, is_one_point};
use crate::propagation::propagated;
use crate::relaxation::{Relaxed, relax};
use crate::watch::Watch;
use crate::{FormPool, FormSource};
use area_graph::Point;
use cost_base::OutOfMemory;
use cut_advisors::{Advisor, Candidate, choose};
use design_problem::{CostBox, CostList, Entry, TreeBuilder};
use std::alloc::Global;

/// Costs of the box that the least accepted point gives: its values over the scale where these are whole; else the
/// values themselves, where they are accepted as costs.
fn costs_there<S: FormSource>(
    alloc: Global,
    source: &mut S,
    costs: &CostBox,
    point: &mut Point,
) -> Result<Option<CostList>, OutOfMemory>
    // The point is the least accepted one of a box of costs from 1 on.
    requires ranges { IsCostsBox (S.count source.old) costs.now }
    requires least { IsLeastOf (S.accepted source.old) costs.now point.old }

    // Costs that come are accepted ones of the box; None comes only where the point isn't whole.
    ensures found { IfOk result (λ found. IfSome found (λ w. IsInBox costs.now w ×
        S.accepted source.old (at_costs w) × AreCostsOf point.old w)) }
    ensures fractional { result ≡ Ok None → IsIntegralPoint point.old → ⊥ }

    // The point is as before, and the source accepts the same points with the same forms.
    ensures point { point.new ≡ point.old }
    ensures in_step { SameFor (S.in_step source.old) (S.in_step source.new) }
    ensures same { SameSource S.count S.accepted S.true_form S.possible_forms source.old
        source.new }
{
    if is_whole(point) {
        Ok(Some(whole_costs(alloc, point)?))
    } else if are_values_accepted(source, costs, point) {
        Ok(Some(value_costs(alloc, point)?))
    } else {
        Ok(None)
    }
}

/// The Split at one of the candidates.
fn split_at(candidates: &[Candidate], place: usize) -> Entry
    requires { place < length candidates.now }
    ensures candidate { (candidate : Candidate) × (slice_get candidates.now place ≡ Some candidate)
        × (result ≡ Split candidate.var candidate.floor) }
    ensures fractional { (costs : CostBox) (point : Point) → All (IsFractional costs point)
        candidates.now → IsSplitAt costs point result }
{
    let picked = candidates[place];
    Entry::Split {
        var: picked.var,
        value: picked.floor,
    }
}

/// The Split at the candidate that the advisors pick.
fn split_there(
    alloc: Global,
    advisors: &mut Vec<Box<dyn Advisor>>,
    costs: &CostBox,
    point: &Point,
    watch: &Watch,
) -> Result<Entry, OutOfMemory>
    requires ranges { IsCostsBox (length costs.now.low) costs.now }
    requires inside { IsPointOf costs.now point.now }
    requires fractional { IsIntegralPoint point.now → ⊥ }
    ensures split { IfOk result (IsSplitAt costs.now point.now) }
    ensures asked { AreAskedAt ⟦<dyn Advisor as Advisor>⟧ (λ b. b.vtable) (λ b. state b) costs.now
        point.now result advisors.old.items advisors.new.items }
{
    let candidates = candidates_of(alloc, point, costs, watch)?;
    let picked = choose(advisors, &candidates);
    Ok(split_at(&candidates, picked as usize))
}

/// What comes next at the least accepted point of the box, which is on the desk: costs that are accepted, or a Split.
fn at_least_point<S: FormSource>(
    alloc: Global,
    source: &mut S,
    advisors: &mut Vec<Box<dyn Advisor>>,
    costs: &CostBox,
    desk: &mut Desk,
) -> Result<Next, OutOfMemory>
    // The desk has the least accepted point of a box of costs from 1 on.
    requires ranges { IsCostsBox (S.count source.old) costs.now }
    requires least { IsLeastOf (S.accepted source.old) costs.now desk.old.point }

    // What comes next may do so whatever forms the pool has and whatever was tightened.
    ensures next { IfOk result (λ next. (top : ℕ) (old new : List Form) (since : List (ℕ × Side)) →
        IsNextStep (S.accepted source.old) top old new (record { box = costs.now; since = since })
        next) }

    // The desk is as before, and the source accepts the same points with the same forms.
    ensures desk { desk.new ≡ desk.old }
    ensures in_step { SameFor (S.in_step source.old) (S.in_step source.new) }
    ensures same { SameSource S.count S.accepted S.true_form S.possible_forms source.old
        source.new }

    // The advisors are asked for a Split at the least accepted point, and for nothing else.
    ensures asked { AreAskedNext ⟦<dyn Advisor as Advisor>⟧ (λ b. b.vtable) (λ b. state b)
        (IsLeastPoint (S.accepted source.old)) costs.now result advisors.old.items
        advisors.new.items }
{
    match costs_there(alloc, source, costs, &mut desk.point)? {
        Some(found) => Ok(Next::Costs(found)),
        None => Ok(Next::Entry(split_there(alloc, advisors, costs, &desk.point, &desk.watch)?)),
    }
}

/// What comes next at a box of more than one point, by its relaxation: costs that are accepted, a Split, a Refute, or a
/// Halve.
fn at_box<S: FormSource>(
    source: &mut S,
    pool: &mut FormPool,
    advisors: &mut Vec<Box<dyn Advisor>>,
    costs: &CostBox,
    desk: &mut Desk,
) -> Result<Next, OutOfMemory>
    // The source is in step with the pool, and the box of costs has more than one point.
    requires in_step { AreInStep S.FormSource source.old pool.old }
    requires ranges { IsCostsBox (S.count source.old) costs.now }
    requires more { costs.now.low ≢ costs.now.high }
    requires desk { IsDesk desk.old.top (S.count source.old) desk.old }

    // What comes next follows from the pool's forms, and the desk is fit for the next box.
    ensures next { IfOk result (λ next. (since : List (ℕ × Side)) →
        IsNextStep (S.accepted source.old) desk.old.top pool.old pool.new
        (record { box = costs.now; since = since }) next) }
    ensures desk { OnOk result (IsDesk desk.old.top (S.count source.old) desk.new) }

    // Only true forms came to the pool, and unless memory is wanting the source is in step with it.
    ensures left { Leaves S.FormSource (OnOk result) source.old source.new pool.old pool.new }

    // The advisors are asked for a Split at the least accepted point, and for nothing else.
    ensures asked { AreAskedNext ⟦<dyn Advisor as Advisor>⟧ (λ b. b.vtable) (λ b. state b)
        (IsLeastPoint (S.accepted source.old)) costs.now result advisors.old.items
        advisors.new.items }
{
    match relax(source, desk.top, pool, costs, &mut desk.point)? {
        Relaxed::Accepted => at_least_point(pool.alloc(), source, advisors, costs, desk),
        Relaxed::Refuted(parts) => Ok(Next::Entry(Entry::Refute { parts })),
        Relaxed::Wide(wide) => Ok(Next::Entry(halved(costs, wide))),
    }
}

/// What comes next at the open box of a tree: the entry of the first form that has something to say; else what its one
/// point tells; else what its relaxation tells.
pub(crate) fn next_at<S: FormSource>(
    source: &mut S,
    pool: &mut FormPool,
    advisors: &mut Vec<Box<dyn Advisor>>,
    tree: &TreeBuilder,
    desk: &mut Desk,
) -> Result<Next, OutOfMemory>
    // The source is in step with the pool, and the tree has an open box of costs from 1 on.
    requires in_step { AreInStep S.FormSource source.old pool.old }
    requires open { 0 < length tree.now.places }
    requires ranges { IsCostsBox (S.count source.old) (first_place tree.now.places).box }
    requires desk { IsDesk desk.old.top (S.count source.old) desk.old }

    // What comes next follows from the pool's forms, and the desk is fit for the next box.
    ensures next { IfOk result (IsNextStep (S.accepted source.old) desk.old.top pool.old pool.new
        (first_place tree.now.places)) }
    ensures desk { OnOk result (IsDesk desk.old.top (S.count source.old) desk.new) }

    // Only true forms came to the pool, and unless memory is wanting the source is in step with it.
    ensures left { Leaves S.FormSource (OnOk result) source.old source.new pool.old pool.new }

    // The advisors are asked for a Split at the least accepted point, and for nothing else.
    ensures asked { AreAskedNext ⟦<dyn Advisor as Advisor>⟧ (λ b. b.vtable) (λ b. state b)
        (IsLeastPoint (S.accepted source.old)) (first_place tree.now.places).box result
        advisors.old.items advisors.new.items }
{
    if let Some(entry) = propagated(pool, tree, &mut desk.watch)? {
        return Ok(Next::Entry(entry));
    }
    let costs = tree.costs();
    if is_one_point(costs) {
        at_one_point(source, pool, costs, &mut desk.point)
    } else {
        at_box(source, pool, advisors, costs, desk)
    }
}
