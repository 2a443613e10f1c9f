//! The search: boxes in preorder, with a branching tree as its evidence.
ghost use Rattle.std.specs.Prelude.{◌≡◌, ℕ, ◌<◌, ◌≤◌, ◌++◌, List, [], ◌∷◌, length, All, IfOk, OnOk};
ghost use Rattle.std.specs.List.{AllZip};
ghost use Rattle.design_problem.specs.Forms.{Form};
ghost use Rattle.design_problem.specs.Boxes.{IsBox};
ghost use Rattle.design_problem.specs.Trees.{IsSingleTree, SoundAt};
ghost use Rattle.design_problem.specs.Earnest.{IsLeastPoint};
ghost use Rattle.design_problem.specs.OpenPlaces.{first_place, fresh, grown, undones};
ghost use Rattle.form_search.specs.AdvisorsAsked.{AreAdvised, AreToldNext};
ghost use Rattle.form_search.specs.Calls.{AreInStep, Leaves};
ghost use Rattle.form_search.specs.Finds.{IsSearchResult};
ghost use Rattle.form_search.specs.Points.{IsCostsBox};
ghost use Rattle.form_search.specs.NextEntries.{IsSoundNext, after_round};

use crate::at_box::next_at;
use crate::desk::{Desk, Next};
use crate::{FormPool, FormSource, Found};
use cost_base::{Listed, OutOfMemory};
use cut_advisors::{Advisor, tell};
use design_problem::{CostBox, Entry, TreeBuilder};
use std::alloc::Global;
use std::ops::ControlFlow;
use wide_fraction::Limits;

/// The tree without an entry over a box of costs in so many variables.
fn first_tree(alloc: Global, variables: u32, costs: &CostBox) -> Result<TreeBuilder, OutOfMemory>
    requires ranges { IsBox variables costs.now }
    requires lows { All (λ low. 1 ≤ low) costs.now.low }
    ensures tree { IfOk result (λ tree. tree ≡ record {
      entries = [];
      places = fresh costs.now ∷ [];
    }) }
    ensures ranges { OnOk result (IsCostsBox variables costs.now) }
{
    let low = costs.low.copy(alloc)?;
    // For the prover: a copy of the slice, since that each upper end has 16 bits is known once they are read.
    let highs = costs.high.as_slice();
    let high = Listed::from_slice(alloc, highs)?;
    TreeBuilder::start(alloc, CostBox { low, high })
}

/// The tree with one more entry, of which the advisors are told.
fn with_told(
    tree: TreeBuilder,
    entry: Entry,
    advisors: &mut Vec<Box<dyn Advisor>>,
) -> Result<TreeBuilder, OutOfMemory>
    requires open { 0 < length tree.places }
    requires sound { (forms : List Form) × SoundAt forms (first_place tree.places).box entry }
    ensures tree { IfOk result (λ longer. longer ≡ grown tree entry) }
    ensures told { AllZip (λ b c. (c.vtable ≡ b.vtable) ×
        (state c ≡ (⟦<dyn Advisor as Advisor>⟧ b.vtable).after (state b) entry)) advisors.old.items
        advisors.new.items }
{
    tell(advisors, &entry);
    tree.with(entry)
}

/// What a tree comes to by what comes next at its open box: the search goes on, or it ends with what it found.
fn round(
    tree: TreeBuilder,
    next: Next,
    nodes: u64,
    advisors: &mut Vec<Box<dyn Advisor>>,
) -> Result<ControlFlow<Found, TreeBuilder>, OutOfMemory>
    requires open { 0 < length tree.places }
    requires sound { IsSoundNext (first_place tree.places).box next }
    requires whole { IsSingleTree (tree.entries ++ undones (length tree.places)) }
    ensures outcome { IfOk result (λ outcome. outcome ≡ after_round nodes tree next) }
    ensures told { AreToldNext ⟦<dyn Advisor as Advisor>⟧ (λ b. b.vtable) (λ b. state b) next result
        advisors.old.items advisors.new.items }
{
    match next {
        Next::Forms => Ok(ControlFlow::Continue(tree)),
        Next::Costs(costs) => Ok(ControlFlow::Break(Found::Costs(costs))),
        Next::Entry(entry) => {
            if tree.entries().len() as u64 == nodes {
                return Ok(ControlFlow::Break(Found::Undecided(tree.undone()?.into_tree())));
            }
            Ok(ControlFlow::Continue(with_told(tree, entry, advisors)?))
        }
    }
}

/// Searches a box for costs that the source accepts.
///
/// Costs are an accepted whole point of the box. Refuted comes with a closed earnest tree over the box, of at most
/// `limits.nodes` entries; Undecided with an earnest tree that has an Undone and exactly so many. The forms of the
/// trees are those of the pool, in its order. Boxes are worked in preorder: by propagation, by the exact simplex with
/// forms of the source, and by cuts. The variable of a Split is picked by the advisors, who are told each entry;
/// without one the first candidate is taken.
///
/// # Errors
///
/// `OutOfMemory`. Then too only true forms came into the pool, at its end.
pub fn search<S: FormSource>(
    source: &mut S,
    costs: &CostBox,
    limits: &Limits,
    pool: &mut FormPool,
    advisors: &mut Vec<Box<dyn Advisor>>,
) -> Result<Found, OutOfMemory>
    // The source is in step with the pool, and the box is one of costs from 1 on.
    requires in_step { AreInStep S.FormSource source.old pool.old }
    requires ranges { IsBox (S.count source.old) costs.now }
    requires lows { All (λ low. 1 ≤ low) costs.now.low }

    // What is found holds of the box by the pool's forms, within the budget.
    ensures found { IfOk result (IsSearchResult (S.accepted source.old) limits.now.top
        limits.now.nodes pool.new costs.now) }

    // Only true forms came to the pool, and unless memory is wanting the source is in step with it.
    ensures left { Leaves S.FormSource (OnOk result) source.old source.new pool.old pool.new }

    // The advisors are asked before each Split and told each entry, along the tree that grows.
    ensures advisors { AreAdvised ⟦<dyn Advisor as Advisor>⟧ (λ b. b.vtable) (λ b. state b)
        (IsLeastPoint (S.accepted source.old)) costs.now result advisors.old.items
        advisors.new.items }
{
    let alloc = pool.alloc();
    let mut tree = first_tree(alloc, source.variables(), costs)?;
    let mut desk = Desk::start(alloc, costs, limits.top)?;
    'boxes: while tree.is_open() {
        let next = next_at(source, pool, advisors, &tree, &mut desk)?;
        match round(tree, next, limits.nodes, advisors)? {
            ControlFlow::Continue(longer) => tree = longer,
            ControlFlow::Break(found) => return Ok(found),
        }
    }
    Ok(Found::Refuted(tree.into_tree()))
}
