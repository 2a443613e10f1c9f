//! The tests of one line of a tree, at its box.
ghost use Rattle.std.specs.Prelude.{◌≡◌, ◌↔◌, ◌<◌, false, length, All, IsTrue, MatchOption};
ghost use Rattle.cost_base.specs.Order.{FirstOf};
ghost use Rattle.design_problem.specs.declared.tree.Entry.TheVariants.{Refute};
ghost use Rattle.design_problem.specs.Boxes.{Refutes};
ghost use Rattle.design_problem.specs.Forms.{IsSmallForm};
ghost use Rattle.design_problem.specs.Trees.{CutsAt, IsSmaller, TightensAt, SoundAt, is_undone};
ghost use Rattle.evidence_checker.specs.Numbers.{check_fault_number};
ghost use Rattle.evidence_checker.specs.Tests.{line_tests};

use crate::CheckFault;
use crate::sums::{refutes, rows_are_known, sum_is_small};
use design_problem::{CostBox, Entry, Form, NewBound, Side, greatest_removed};

/// Whether a new bound makes a variable's range smaller, and not empty.
fn is_smaller(costs: &CostBox, var: usize, side: Side, value: u16) -> bool
    requires low { var < length costs.now.low }
    requires high { var < length costs.now.high }
    ensures { IsTrue result ↔ IsSmaller costs.now side var value }
{
    let low = costs.low.as_slice()[var];
    let high = costs.high.as_slice()[var];
    match side {
        Side::Low => low < value && value <= high,
        Side::High => low <= value && value < high,
    }
}

/// Whether a Tighten by a row is a sound step at the box.
fn tightens(forms: &[Form], costs: &CostBox, bound: NewBound, row: u64) -> bool
    requires high { length costs.now.low ≡ length costs.now.high }
    requires forms { All (IsSmallForm (length costs.now.low)) forms.now }
    ensures { IsTrue result ↔ TightensAt forms.now costs.now bound.side bound.var bound.value row }
{
    if costs.low.as_slice().len() <= bound.var as usize || forms.len() <= row as usize {
        return false;
    }
    if !is_smaller(costs, bound.var as usize, bound.side, bound.value) {
        return false;
    }
    let form = &forms[row as usize];
    greatest_removed(form, costs, bound.side, bound.var, bound.value) < 0
}

/// Whether a Split or a Halve cuts its variable's range in two.
fn cuts(costs: &CostBox, var: usize, value: u16) -> bool
    requires { length costs.now.low ≡ length costs.now.high }
    ensures { IsTrue result ↔ CutsAt costs.now var value }
{
    let low = costs.low.as_slice();
    let high = costs.high.as_slice();
    var < low.len() && low[var] <= value && value < high[var]
}

/// The first test that a Refute fails.
fn refute_fault(
    forms: &[Form],
    parts: &[(u64, u128)],
    costs: &CostBox,
    sums: &mut [i128],
) -> Option<CheckFault>
    requires low { length sums.old ≡ length costs.now.low }
    requires high { length sums.old ≡ length costs.now.high }
    requires forms { All (IsSmallForm (length sums.old)) forms.now }
    requires positive { All (λ part. 0 < part.1) parts.now }
    ensures { MatchOption result
        (Refutes forms.now parts.now costs.now)
        (λ f. FirstOf (line_tests forms.now costs.now (Refute parts.now)) (check_fault_number f)) }
{
    if !sum_is_small(parts) {
        return Some(CheckFault::GreatMultipliers);
    }
    if !rows_are_known(parts, forms.len()) {
        return Some(CheckFault::NothingRefuted);
    }
    if !refutes(forms, parts, costs, sums) {
        return Some(CheckFault::NothingRefuted);
    }
    None
}

/// The first test that a line of a tree fails at its box. The sums are room for a number for each variable.
pub(crate) fn line_fault(
    forms: &[Form],
    costs: &CostBox,
    sums: &mut [i128],
    entry: &Entry,
) -> Option<CheckFault>
    requires low { length sums.old ≡ length costs.now.low }
    requires high { length sums.old ≡ length costs.now.high }
    requires forms { All (IsSmallForm (length sums.old)) forms.now }
    ensures { MatchOption result
        (SoundAt forms.now costs.now entry.now × (is_undone entry.now ≡ false))
        (λ f. FirstOf (line_tests forms.now costs.now entry.now) (check_fault_number f)) }
{
    let sound = match entry {
        Entry::Tighten {
            var,
            side,
            value,
            row,
        } => tightens(
            forms,
            costs,
            NewBound {
                var: *var,
                side: *side,
                value: *value,
            },
            *row,
        ),
        Entry::Split { var, value } => cuts(costs, *var as usize, *value),
        Entry::Halve { var, value, .. } => cuts(costs, *var as usize, *value),
        Entry::Refute { parts } => return refute_fault(forms, parts.as_slice(), costs, sums),
        Entry::Undone => return Some(CheckFault::OpenLeaf),
    };
    if sound {
        None
    } else {
        Some(CheckFault::UnsoundEntry)
    }
}
