//! The variables at which a box may be split.
ghost use Rattle.std.specs.Prelude.{◌≡◌, ℕ, ◌%◌, ◌^◌, ◌<◌, ◌≤◌, ◌++◌, length, slice_index, All, IfOk, OnOk};
ghost use Rattle.std.specs.List.Sorted.{IsPermutation};
ghost use Rattle.design_problem.specs.Boxes.{IsPointOf};
ghost use Rattle.form_search.specs.Points.{IsCostsBox, IsFractional, IsIntegralPoint, candidate_of, candidates_at};

use crate::watch::Watch;
use area_graph::Point;
use cost_base::OutOfMemory;
use cut_advisors::Candidate;
use design_problem::CostBox;
use std::alloc::Global;

/// From this width on a range is wide: its candidate stands by the width, and others by the forms that they are in.
const WIDE: u16 = 256;

/// Where a candidate stands: first those of wide ranges, the widest first; then the others, those in more forms first;
/// equal ones in rising order.
#[derive(Clone, Copy, PartialEq, Eq, PartialOrd, Ord)]
struct Rank {
    is_narrow: bool,
    /// By how much the width, or the number of forms, falls short of `usize::MAX`: where it is less, a
    /// candidate is earlier.
    short_by: usize,
    var: u32,
}

/// The rank of a candidate that stands in so many forms.
fn rank_of(candidate: &Candidate, forms: usize) -> Rank {
    // For the prover alone: a candidate's low is at most its high, so nothing saturates; no clause says so here.
    let range = candidate.high.saturating_sub(candidate.low);
    if range >= WIDE {
        Rank {
            is_narrow: false,
            short_by: usize::MAX - usize::from(range),
            var: candidate.var,
        }
    } else {
        Rank {
            is_narrow: true,
            short_by: usize::MAX - forms,
            var: candidate.var,
        }
    }
}

/// Puts a variable at the end, where it is fractional at the point.
fn push_fractional(
    candidates: &mut Vec<Candidate>,
    point: &Point,
    costs: &CostBox,
    var: usize,
) -> Result<(), OutOfMemory>
    // The point lies in a box of costs from 1 on, and has a value for the variable.
    requires ranges { IsCostsBox (length costs.now.low) costs.now }
    requires inside { IsPointOf costs.now point.now }
    requires known { var < length point.now.values }

    // All candidates are fractional at the point, and the variable joins them where it is too.
    requires so_far { All (IsFractional costs.now point.now) candidates.old.items }
    ensures pushed { OnOk result (candidates.new.items ≡ candidates.old.items ++
        candidate_of costs.now point.now var) }
    ensures fractional { OnOk result (All (IsFractional costs.now point.now) candidates.new.items) }

    // The list gets no shorter, and isn't empty where the variable is fractional.
    ensures more { OnOk result (length candidates.old.items ≤ length candidates.new.items) }
    ensures some { OnOk result ((slice_index point.now.values var % point.now.scale ≡ 0 → ⊥) →
        0 < length candidates.new.items) }
{
    let scale = point.scale;
    let x = point.values.as_slice()[var];
    if x % scale == 0 {
        return Ok(());
    }
    let candidate = Candidate {
        var: var as u32,
        floor: (x / scale) as u16,
        low: costs.low.as_slice()[var],
        high: costs.high.as_slice()[var],
    };
    Ok(candidates.push(candidate)?)
}

/// The variables that are fractional at the point, in rising order.
fn fractional(alloc: Global, point: &Point, costs: &CostBox) -> Result<Vec<Candidate>, OutOfMemory>
    requires ranges { IsCostsBox (length costs.now.low) costs.now }
    requires inside { IsPointOf costs.now point.now }
    ensures all { IfOk result (λ found. found.items ≡ candidates_at costs.now point.now) }
    ensures fractional { IfOk result (λ found. All (IsFractional costs.now point.now) found.items) }
    ensures some { (IsIntegralPoint point.now → ⊥) → IfOk result (λ found. 0 < length found.items) }
{
    let mut candidates = Vec::new(alloc);
    for var in 0..point.values.as_slice().len() {
        push_fractional(&mut candidates, point, costs, var)?;
    }
    Ok(candidates)
}

/// The candidates of the point, in the order in which advisors see them.
pub(crate) fn candidates_of(
    alloc: Global,
    point: &Point,
    costs: &CostBox,
    watch: &Watch,
) -> Result<Vec<Candidate>, OutOfMemory>
    requires ranges { IsCostsBox (length costs.now.low) costs.now }
    requires inside { IsPointOf costs.now point.now }
    ensures all { IfOk result (λ found. IsPermutation (candidates_at costs.now point.now)
        found.items) }
    ensures fractional { IfOk result (λ found. All (IsFractional costs.now point.now) found.items) }
    ensures some { (IsIntegralPoint point.now → ⊥) → IfOk result (λ found. 0 < length found.items) }
{
    let mut candidates = fractional(alloc, point, costs)?;
    candidates.sort_unstable_by_key(|candidate| rank_of(
        candidate,
        watch.forms_with(candidate.var),
    ));
    Ok(candidates)
}
