//! The rows and trees that are printed: the form of the total stands behind those of the rows.
ghost use Rattle.std.specs.Prelude.{◌≡◌, ℕ, IfOk, length};
ghost use Rattle.design_problem.specs.Problems.{DesignProblem};
ghost use Rattle.printed_rows.specs.NamedRows.{NamesBelow};
ghost use Rattle.least_total.specs.Bounded.{IsPlaceIn};
ghost use Rattle.least_total.specs.Printing.{IsPrintedLast, moved_from, rows_in, with_total_last};
ghost use Rattle.least_total.specs.Rounds.{IsTreeWithin};
ghost use Rattle.std.specs.Prelude.{◌+◌, All};

use crate::moving::Move;
use crate::rounds::TotalTree;
use cost_base::OutOfMemory;
use design_problem::{Row, Tree};
use printed_rows::{PrintedTree, printed};
use std::alloc::Global;

/// A form of a pool.
#[derive(Drop)]
pub(crate) enum PoolForm {
    /// That of a row.
    OfRow(Row),
    /// That of the total.
    OfTotal,
}

/// Rows, and a tree over their forms and that of the total, which stands behind them.
#[derive(Drop)]
pub(crate) struct PrintedTotal {
    pub(crate) rows: Vec<Row>,
    pub(crate) tree: Tree,
}

/// The forms of the rows, and behind them that of the total.
fn with_total_last(alloc: Global, rows: Vec<Row>) -> Result<Vec<PoolForm>, OutOfMemory>
    ensures { IfOk result (λ forms. forms.items ≡ with_total_last rows.items) }
{
    let mut forms = Vec::new(alloc);
    for row in rows {
        forms.push(PoolForm::OfRow(row))?;
    }
    forms.push(PoolForm::OfTotal)?;
    Ok(forms)
}

/// The rows among some forms.
fn rows_in(alloc: Global, forms: Vec<PoolForm>) -> Result<Vec<Row>, OutOfMemory>
    ensures { IfOk result (λ rows. rows.items ≡ rows_in forms.items) }
{
    let mut rows = Vec::new(alloc);
    for form in forms {
        if let PoolForm::OfRow(row) = form {
            rows.push(row)?;
        }
    }
    Ok(rows)
}

/// The tree once the form of the total has been moved behind so many others, if it stands elsewhere.
fn moved_from(
    alloc: Global,
    before: Option<usize>,
    others: usize,
    tree: Tree,
) -> Result<Tree, OutOfMemory>
    requires place { IsPlaceIn others before }
    requires known { All (NamesBelow (others + 1)) tree }
    ensures { IfOk result (λ new. new ≡ moved_from before others tree) }
{
    match before {
        None => Ok(tree),
        Some(place) => {
            let step = Move {
                place: place as u64,
                others: others as u64,
            };
            step.tree(alloc, &tree)
        }
    }
}

/// The rows that the tree names, in their order, and the tree with their new numbers. The form of the total has the
/// number behind them, whether it is named or not.
///
/// # Errors
///
/// `OutOfMemory`.
pub(crate) fn printed_total(alloc: Global, tree: TotalTree) -> Result<PrintedTotal, OutOfMemory>
    requires { (p : DesignProblem) × (top : ℕ) × (cap : ℕ) × (most : ℕ) ×
        IsTreeWithin p top cap most tree }
    ensures { IfOk result (IsPrintedLast tree) }
{
    let TotalTree { rows, before, tree } = tree;
    let tree = moved_from(alloc, before, rows.len(), tree)?;
    let forms = with_total_last(alloc, rows)?;
    let PrintedTree { rows, tree } = printed(alloc, forms, &tree)?;
    Ok(PrintedTotal {
        rows: rows_in(alloc, rows)?,
        tree,
    })
}
