//! The lines of a tree, tested in order.
ghost use Rattle.std.specs.Prelude.{◌≡◌, [], ◌∷◌, length, All, IfOk, IfErr, false, MatchOption};
ghost use Rattle.design_problem.specs.Boxes.{capped};
ghost use Rattle.design_problem.specs.Forms.{IsSmallForm};
ghost use Rattle.design_problem.specs.Trees.{IsSoundTree, IsClosed, IsSingleTree, SoundAt, is_undone};
ghost use Rattle.evidence_checker.specs.Refusals.{StopsBy};
ghost use Rattle.cost_base.specs.Order.{FirstOf};
ghost use Rattle.evidence_checker.specs.Numbers.{check_fault_number};
ghost use Rattle.evidence_checker.specs.Tests.{AtFirstLine, line_tests};

use crate::CheckFault;
use crate::lines::line_fault;
use cost_base::{OutOfMemory, Refusal};
use design_problem::{CapTree, CostBox, Entry, Form, OpenBoxes, capped_box};
use std::alloc::Global;

/// Room for the sums of so many variables.
fn room_for_sums(alloc: Global, count: usize) -> Result<Vec<i128>, OutOfMemory>
    ensures { IfOk result (λ sums. length sums.items ≡ count) }
{
    Ok(vec![in alloc; 0i128; count]?)
}

/// The first test that a line fails at a box. The sums are room for a number for each variable, before and after.
///
/// For the prover: a call, since the list keeps its length, which `line_fault` can't say of the slice that it is given.
fn fault_at(
    forms: &[Form],
    costs: &CostBox,
    sums: &mut Vec<i128>,
    entry: &Entry,
) -> Option<CheckFault>
    requires low { length sums.old.items ≡ length costs.now.low }
    requires high { length sums.old.items ≡ length costs.now.high }
    requires forms { All (IsSmallForm (length sums.old.items)) forms.now }
    ensures first { MatchOption result
        (SoundAt forms.now costs.now entry.now × (is_undone entry.now ≡ false))
        (λ f. FirstOf (line_tests forms.now costs.now entry.now) (check_fault_number f)) }
    ensures sums { length sums.new.items ≡ length sums.old.items }
{
    line_fault(forms, costs, sums, entry)
}

/// Whether the lines of a tree are sound over the one open box, and close it: they are tested in order. The sums are
/// room for a number for each variable.
fn check_lines(
    forms: &[Form],
    boxes: &mut OpenBoxes,
    sums: &mut Vec<i128>,
    entries: &[Entry],
) -> Result<(), Refusal<CheckFault, u64>>
    // The lines are those of one tree, and one box is open.
    requires alone { boxes.old.behind ≡ [] }
    requires whole { IsSingleTree entries.now }

    // Sums and forms are of as many variables as the box.
    requires sums { length sums.old.items ≡ length boxes.old.present.low }
    requires forms { All (IsSmallForm (length boxes.old.present.low)) forms.now }

    // On Ok the lines are sound and close the box, else the first line that fails tells which test.
    ensures sound { IfOk result (λ _. IsSoundTree forms.now boxes.old.present entries.now ×
        IsClosed entries.now) }
    ensures first { IfErr result
        (StopsBy (AtFirstLine forms.now (boxes.old.present ∷ []) 0 entries.now ∷ [])) }
{
    for (line, entry) in entries.iter().enumerate() {
        if let Some(fault) = fault_at(forms, boxes.present(), sums, entry) {
            let place = line as u64;
            return Err(Refusal::at(place, fault));
        }
        if !boxes.go_on(entry)? {
            return Ok(());
        }
    }
    Ok(())
}

/// Whether a tree is closed and sound over a box: its lines are tested in order with one box and a stack of the ends
/// that were changed, so it recurses on no depth and copies no box.
pub(crate) fn check_tree(
    alloc: Global,
    forms: &[Form],
    costs: CostBox,
    entries: &[Entry],
) -> Result<(), Refusal<CheckFault, u64>>
    requires count { length costs.low ≡ length costs.high }
    requires forms { All (IsSmallForm (length costs.low)) forms.now }
    requires whole { IsSingleTree entries.now }
    ensures sound { IfOk result (λ _. IsSoundTree forms.now costs entries.now ×
        IsClosed entries.now) }
    ensures first { IfErr result (StopsBy (AtFirstLine forms.now (costs ∷ []) 0 entries.now ∷ [])) }
{
    let mut sums = room_for_sums(alloc, costs.low.as_slice().len())?;
    let mut boxes = OpenBoxes::new(alloc, costs);
    check_lines(forms, &mut boxes, &mut sums, entries)
}

/// Whether a tree is closed and sound over the box at its cap.
pub(crate) fn check_cap_tree(
    alloc: Global,
    low: &[u16],
    high: &[u16],
    forms: &[Form],
    proof: &CapTree,
) -> Result<(), Refusal<CheckFault, u64>>
    requires count { length low.now ≡ length high.now }
    requires forms { All (IsSmallForm (length low.now)) forms.now }
    ensures sound { IfOk result
        (λ _. IsSoundTree forms.now (capped (record { low = low.now; high = high.now })
        proof.now.cap) proof.now.tree × IsClosed proof.now.tree) }
    ensures first { IfErr result
        (StopsBy
        (AtFirstLine forms.now (capped (record { low = low.now; high = high.now }) proof.now.cap ∷
        []) 0 proof.now.tree ∷ [])) }
{
    let costs = capped_box(alloc, low, high, proof.cap)?;
    check_tree(alloc, forms, costs, proof.tree.as_slice())
}
