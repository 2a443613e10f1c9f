//! What the forms say of a box, one by one.
ghost use Rattle.std.specs.Prelude.{◌≡◌, ℕ, ◌<◌, ◌^◌, ◌≤◌, [], ◌∷◌, ◌<ℤ◌, ◌≤ℤ◌, pos, List, length, nat_abs, All, IfOk, IfSome, MatchOption, None, OnOk};
ghost use Rattle.design_problem.specs.declared.tree.Entry.TheVariants.{Refute};
ghost use Rattle.design_problem.specs.Forms.{Form};
ghost use Rattle.design_problem.specs.Boxes.{greatest};
ghost use Rattle.design_problem.specs.Forms.{form_at};
ghost use Rattle.design_problem.specs.OpenPlaces.{first_place};
ghost use Rattle.form_search.specs.Points.{IsCostsBox};
ghost use Rattle.form_search.specs.NextEntries.{AreFormsOf, IsFormIn, IsNextRow, IsWatch};

use crate::FormPool;
use crate::watch::Watch;
use bound_propagation::tighten_within;
use cost_base::OutOfMemory;
use design_problem::{CostBox, Entry, Form, Multipliers, TreeBuilder, greatest_over};
use std::alloc::Global;

/// The Refute by one form.
pub(crate) fn refute_by(alloc: Global, row: usize) -> Result<Entry, OutOfMemory>
    ensures { IfOk result (λ entry. entry ≡ Refute ((row, 1) ∷ [])) }
{
    let mut parts = Vec::new(alloc);
    parts.push((row as u64, 1u128))?;
    Ok(Entry::Refute {
        parts: Multipliers::from_items(parts),
    })
}

/// The first form that is negative all over the box.
pub(crate) fn first_negative(forms: &[Form], costs: &CostBox) -> Option<usize>
    requires counts { AreFormsOf (length costs.now.low) forms.now }
    requires highs { length costs.now.high ≡ length costs.now.low }
    ensures { MatchOption result
        (All (λ form. pos 0 ≤ℤ greatest form costs.now) forms.now)
        (λ row. (row < length forms.now) × (greatest (form_at forms.now row) costs.now <ℤ pos 0)) }
{
    forms.iter().position(|form| greatest_over(form, costs) < 0)
}

/// What a form says of the open box of a tree: it refutes it, or makes a range smaller. An entry at a variable and side
/// that were tightened since the last cut is barred.
fn entry_of(
    alloc: Global,
    form: &Form,
    row: usize,
    tree: &TreeBuilder,
    watch: &mut Watch,
) -> Result<Option<Entry>, OutOfMemory>
    // The form has a coefficient for each variable of the open box.
    requires open { 0 < length tree.now.places }
    requires ranges { IsCostsBox (length (first_place tree.now.places).box.low)
        (first_place tree.now.places).box }
    requires form { IsFormIn (length (first_place tree.now.places).box.low) form.now }

    // An entry follows from any list of forms that has this one as that row.
    ensures entry { (forms : List Form) → row < length forms → form_at forms row ≡ form.now →
        IfOk result (λ found. IfSome found (IsNextRow forms (first_place tree.now.places))) }

    // The watch is still one of as many variables, and the same forms wait.
    ensures watch { (n : ℕ) → IsWatch n watch.old → IsWatch n watch.new }
    ensures waiting { watch.new.waiting ≡ watch.old.waiting }
{
    let most = greatest_over(form, tree.costs());
    if most < 0 {
        return Ok(Some(refute_by(alloc, row)?));
    }
    let Some(bound) = tighten_within(form, tree.costs(), most) else {
        return Ok(None);
    };
    if tree.is_tightened(bound.var, bound.side) {
        watch.bar(row)?;
        return Ok(None);
    }
    Ok(Some(Entry::Tighten {
        var: bound.var,
        side: bound.side,
        value: bound.value,
        row: row as u64,
    }))
}

/// The entry that the first form with something to say gives.
pub(crate) fn propagated(
    pool: &FormPool,
    tree: &TreeBuilder,
    watch: &mut Watch,
) -> Result<Option<Entry>, OutOfMemory>
    // The pool's forms and the watch are ones of the open box's variables.
    requires open { 0 < length tree.now.places }
    requires ranges { IsCostsBox (length (first_place tree.now.places).box.low)
        (first_place tree.now.places).box }
    requires forms { AreFormsOf (length (first_place tree.now.places).box.low) pool.now }
    requires watch { IsWatch (length (first_place tree.now.places).box.low) watch.old }

    // An entry follows from the pool's forms alone, and the watch is still one of these variables.
    ensures entry { IfOk result
        (λ found. IfSome found (IsNextRow pool.now (first_place tree.now.places))) }
    ensures watch { IsWatch (length (first_place tree.now.places).box.low) watch.new }
{
    let forms = pool.as_slice();
    watch.learn(forms)?;
    if tree.is_fresh() {
        watch.release()?;
    }
    watch.look(tree)?;
    while let Some(row) = watch.next() {
        if row < forms.len() {
            if let Some(entry) = entry_of(pool.alloc(), &forms[row], row, tree, watch)? {
                watch.keep(row)?;
                return Ok(Some(entry));
            }
        }
    }
    Ok(None)
}
