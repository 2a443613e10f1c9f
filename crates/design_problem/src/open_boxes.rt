//! The open boxes of a tree that is gone through entry by entry: one box, and a stack of the ends that were changed.
ghost use Rattle.std.specs.Prelude.{◌≡◌, ◌+◌, ◌<◌, ◌∷◌, ◌++◌, List, [], length, slice_index, IfOk, MatchBool, OnErr, OnOk};
ghost use Rattle.design_problem.specs.Boxes.{with_high, with_low};
ghost use Rattle.design_problem.specs.Stack.{IsStack, waiting, open_boxes_of};
ghost use Rattle.design_problem.specs.declared.form.Form.{Form};
ghost use Rattle.design_problem.specs.Trees.{SoundAt, subboxes, tightened};

use crate::{CostBox, Entry, Side};
use cost_base::{OutOfMemory, push_last};
use std::alloc::Global;
use std::marker::Model;

/// An end of a variable's range that was changed, with its value before; or a second part that waits, with the value of
/// the cut and the upper end before it.
#[derive(Clone, Copy)]
enum Change {
    Low(u32, u16),
    High(u32, u16),
    Second(u32, u16, u16),
}

/// The box that the next entry of a tree speaks of, and the boxes that wait behind it, the next first. None of those
/// that wait is copied: they are told by the ends that were changed since.
#[derive(Drop)]
pub struct OpenBoxes {
    costs: CostBox,
    changes: Vec<Change>,
}

impl Model for OpenBoxes {
    ghost use Rattle.design_problem.specs.Stack.{OpenBoxes, IsStack, open_boxes_of};

    ghost Value = { OpenBoxes };

    ghost view = { λ b. open_boxes_of b.costs b.changes.items };

    ghost invariant = { λ b. IsStack b.costs b.changes.items };
}

/// Puts changes back until a second part is met, goes on with it, and says whether there was one.
fn put_back(costs: &mut CostBox, changes: &mut Vec<Change>) -> bool
    requires { IsStack costs.old changes.old.items }
    ensures next { MatchBool result ((open_boxes_of costs.old changes.old.items).behind ≡
        costs.new ∷ (open_boxes_of costs.new changes.new.items).behind)
        ((open_boxes_of costs.old changes.old.items).behind ≡ []) }
    ensures stack { IsStack costs.new changes.new.items }
{
    while let Some(change) = changes.pop() {
        match change {
            Change::Low(var, was) => costs.low.set(var as usize, was),
            Change::High(var, was) => costs.high.set(var as usize, was),
            Change::Second(var, value, was) => {
                let low = costs.low.as_slice()[var as usize];
                costs.high.set(var as usize, was);
                costs.low.set(var as usize, value + 1);
                changes.push_reserved(Change::Low(var, low));
                return true;
            }
        }
    }
    false
}

impl OpenBoxes {
    /// One open box. It takes no memory.
    pub fn new(alloc: Global, costs: CostBox) -> OpenBoxes
        requires { length costs.low ≡ length costs.high }
        ensures { result ≡ record { present = costs; behind = [] } }
    {
        let changes = Vec::new(alloc);
        OpenBoxes { costs, changes }
    }

    /// The box that the next entry speaks of.
    pub fn present(&self) -> &CostBox
        ensures present { result.now ≡ self.now.present }
        ensures counts { length result.now.low ≡ length result.now.high }
    {
        &self.costs
    }

    /// Makes a range of the present box smaller at a side.
    ///
    /// # Errors
    ///
    /// `OutOfMemory` where the stack got no memory. The boxes are as before.
    pub fn tighten(&mut self, var: u32, side: Side, value: u16) -> Result<(), OutOfMemory>
        requires { var < length self.old.present.low }
        ensures done { OnOk result
            (self.new ≡ record {
              present = tightened self.old.present side var value;
              behind = self.old.behind;
            }) }
        ensures same { OnErr result (self.new ≡ self.old) }
    {
        let place = var as usize;
        match side {
            Side::Low => {
                push_last(
                    &mut self.changes,
                    Change::Low(var, self.costs.low.as_slice()[place]),
                )?;
                self.costs.low.set(place, value);
            }
            Side::High => {
                push_last(
                    &mut self.changes,
                    Change::High(var, self.costs.high.as_slice()[place]),
                )?;
                self.costs.high.set(place, value);
            }
        }
        Ok(())
    }

    /// Cuts a range of the present box: goes on with the first part, up to `value`, while the second part waits.
    ///
    /// # Errors
    ///
    /// `OutOfMemory` where the stack got no memory. The boxes are as before.
    pub fn cut(&mut self, var: u32, value: u16) -> Result<(), OutOfMemory>
        requires known { var < length self.old.present.low }
        requires value { value < slice_index self.old.present.high var }
        ensures done { OnOk result (self.new ≡ record {
          present = with_high self.old.present var value;
          behind = with_low self.old.present var (value + 1) ∷
              self.old.behind;
        }) }
        ensures same { OnErr result (self.new ≡ self.old) }
    {
        let place = var as usize;
        let was = self.costs.high.as_slice()[place];
        push_last(&mut self.changes, Change::Second(var, value, was))?;
        self.costs.high.set(place, value);
        Ok(())
    }

    /// Ends the present box, goes on with the next one that waits, and says whether there is one. It takes no memory.
    pub fn close(&mut self) -> bool
        ensures { MatchBool result (self.old.behind ≡ self.new.present ∷ self.new.behind)
            (self.old.behind ≡ []) }
    {
        put_back(&mut self.costs, &mut self.changes)
    }
    /// Goes on behind an entry that is sound at the present box: with the boxes of its subtrees, and then those that
    /// wait. Says whether a box is still open.
    ///
    /// # Errors
    ///
    /// `OutOfMemory` where the stack got no memory.
    pub fn go_on(&mut self, entry: &Entry) -> Result<bool, OutOfMemory>
        requires { (forms : List Form) × SoundAt forms self.old.present entry.now }
        ensures { IfOk result
            (λ more. MatchBool more (subboxes self.old.present entry.now ++ self.old.behind ≡
            self.new.present ∷ self.new.behind) (subboxes self.old.present entry.now ++
            self.old.behind ≡ [])) }
    {
        match entry {
            Entry::Tighten {
                var,
                side,
                value,
                ..
            } => self.tighten(*var, *side, *value)?,
            Entry::Split { var, value } => self.cut(*var, *value)?,
            Entry::Halve { var, value, .. } => self.cut(*var, *value)?,
            Entry::Refute { .. } | Entry::Undone => return Ok(self.close()),
        }
        Ok(true)
    }
}
