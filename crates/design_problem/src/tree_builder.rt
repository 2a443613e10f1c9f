//! A branching tree as it grows.
ghost use Rattle.std.specs.Prelude.{◌≡◌, ℕ, ◌+◌, ◌<◌, ◌++◌, List, [], ◌∷◌, length, Contains, IfOk, IsTrue, MatchBool, OnOk, ◌↔◌};
ghost use Rattle.design_problem.specs.declared.form.Form.{Form};
ghost use Rattle.design_problem.specs.Boxes.{IsBox};
ghost use Rattle.design_problem.specs.declared.tree.Entry.{Entry};
ghost use Rattle.design_problem.specs.Trees.{IsSingleTree, SoundAt, subboxes};
ghost use Rattle.design_problem.specs.Builders.{KeepsMarks};
ghost use Rattle.design_problem.specs.OpenPlaces.{first_place, fresh, grown, undones};

use crate::marks::Marks;
use crate::{CostBox, Entry, OpenBoxes, Side, Tree};
use cost_base::{OutOfMemory, push_last};
use std::alloc::Global;
use std::marker::Model;

/// A branching tree that is built in preorder: its entries so far, and the boxes that are still open. One box is kept,
/// and a stack of the ends of ranges that were changed: nothing is copied for a box that waits.
///
/// Contracts see the entries and the open places, the first of which the next entry speaks of.
#[derive(Drop)]
pub struct TreeBuilder {
    entries: Vec<Entry>,
    boxes: OpenBoxes,
    marks: Marks,
    is_open: bool,
}

impl Model for TreeBuilder {
    ghost use Rattle.design_problem.specs.OpenPlaces.{Growing};

    ghost Value = { Growing };

    ghost use Rattle.design_problem.specs.Builders.{KeepsBuilder, places_of};

    ghost view = { λ t. record {
      entries = t.entries.items;
      places = places_of t.is_open t.boxes t.entries.items;
    } };

    ghost invariant = { λ t. KeepsBuilder t.entries.items t.is_open t.boxes t.marks };
}

impl TreeBuilder {
    /// The tree without an entry over a box, which is open.
    ///
    /// # Errors
    ///
    /// `OutOfMemory` where the marks got no memory.
    pub fn start(alloc: Global, costs: CostBox) -> Result<TreeBuilder, OutOfMemory>
        requires { IsBox (length costs.low) costs }
        ensures { IfOk result (λ tree. tree ≡ record { entries = []; places = fresh costs ∷ [] }) }
    {
        let variables = costs.low.as_slice().len();
        let marks = Marks::start(alloc, variables)?;
        Ok(TreeBuilder {
            entries: Vec::new(alloc),
            boxes: OpenBoxes::new(alloc, costs),
            marks,
            is_open: true,
        })
    }

    /// Whether a box is open.
    pub fn is_open(&self) -> bool
        ensures { IsTrue result ↔ (0 < length self.now.places) }
    {
        self.is_open
    }

    /// The box that the next entry speaks of.
    pub fn costs(&self) -> &CostBox
        ensures { 0 < length self.now.places → result.now ≡ (first_place self.now.places).box }
    {
        self.boxes.present()
    }

    /// Whether nothing was tightened since the last entry that isn't a Tighten.
    pub fn is_fresh(&self) -> bool
        ensures { 0 < length self.now.places → IsTrue result ↔
            ((first_place self.now.places).since ≡ []) }
    {
        self.marks.begun == self.entries.len()
    }

    /// The entries so far.
    pub fn entries(&self) -> &[Entry]
        ensures { result.now ≡ self.now.entries }
    {
        self.entries.as_slice()
    }

    /// Whether the variable was tightened at the side since the last entry that isn't a Tighten.
    pub fn is_tightened(&self, var: u32, side: Side) -> bool
        requires open { 0 < length self.now.places }
        requires known { var < length (first_place self.now.places).box.low }
        ensures { IsTrue result ↔ Contains (first_place self.now.places).since (var, side) }
    {
        self.marks.is_marked(var as usize, side)
    }

    /// The tree with one more entry: at the first open place, where it is sound over some forms.
    ///
    /// # Errors
    ///
    /// `OutOfMemory`, and then the tree is gone.
    pub fn with(self, entry: Entry) -> Result<TreeBuilder, OutOfMemory>
        requires open { 0 < length self.places }
        requires sound { (forms : List Form) × SoundAt forms (first_place self.places).box entry }
        ensures { IfOk result (λ tree. tree ≡ grown self entry) }
    {
        let TreeBuilder {
            mut entries,
            mut boxes,
            mut marks,
            ..
        } = self;
        let count = entries.as_slice().len() + 1;
        let is_open = go_on(&mut boxes, &mut marks, &entry, count)?;
        push_last(&mut entries, entry)?;
        Ok(TreeBuilder {
            entries,
            boxes,
            marks,
            is_open,
        })
    }

    /// The tree with an Undone at each open place.
    ///
    /// # Errors
    ///
    /// `OutOfMemory`, and then the tree is gone.
    pub fn undone(self) -> Result<TreeBuilder, OutOfMemory>
        ensures { IfOk result
            (λ tree. tree ≡ record {
              entries = self.entries ++ undones (length self.places);
              places = [];
            }) }
    {
        let mut tree = self;
        while tree.is_open() {
            tree = tree.with(Entry::Undone)?;
        }
        Ok(tree)
    }

    /// The tree of the entries, which are one whole tree.
    pub fn into_tree(self) -> Tree
        requires { IsSingleTree self.entries }
        ensures { result ≡ self.entries }
    {
        let TreeBuilder { entries, .. } = self;
        Tree::from_items(entries)
    }
}

/// Goes on after an entry that is to be the last of so many, and says whether a box is open.
fn go_on(
    boxes: &mut OpenBoxes,
    marks: &mut Marks,
    entry: &Entry,
    count: usize,
) -> Result<bool, OutOfMemory>
    requires sound { (forms : List Form) × SoundAt forms boxes.old.present entry.now }
    requires low_marks { length marks.old.low.items ≡ length boxes.old.present.low }
    requires high_marks { length marks.old.high.items ≡ length boxes.old.present.low }
    ensures next { IfOk result
        (λ more. MatchBool more (subboxes boxes.old.present entry.now ++ boxes.old.behind ≡
        boxes.new.present ∷ boxes.new.behind) (subboxes boxes.old.present entry.now ++
        boxes.old.behind ≡ [])) }
    ensures marks { (n : ℕ) (entries : List Entry) → KeepsMarks n entries marks.old →
        count ≡ length entries + 1 →
        OnOk result (KeepsMarks n (entries ++ entry.now ∷ []) marks.new) }
{
    let is_open = boxes.go_on(entry)?;
    match entry {
        Entry::Tighten { var, side, .. } => marks.mark(*var as usize, *side, count),
        Entry::Split { .. } | Entry::Halve { .. } | Entry::Refute { .. } | Entry::Undone => {
            marks.clear(count);
        }
    }
    Ok(is_open)
}
