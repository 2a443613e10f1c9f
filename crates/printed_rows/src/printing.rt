//! The rows and trees that are printed.
ghost use Rattle.std.specs.Prelude.{◌≡◌, ℕ, length, All, IfOk};
ghost use Rattle.std.specs.Option.{option_copied};
ghost use Rattle.printed_rows.specs.NamedRows.{NamesBelow, TreeNamesBelow};
ghost use Rattle.printed_rows.specs.NewNumbers.{IsTreePrinted, ArePrinted, AreAllPrinted};

use crate::new_numbers::{marked_rows, new_if_any, new_numbers, new_tree, new_trees};
use crate::row_marks::{mark_if_any, mark_tree, mark_trees};
use cost_base::{Listed, OutOfMemory, no_marks};
use design_problem::{CapTree, Tree};
use std::alloc::Global;

/// Rows, and a tree over them.
#[derive(Drop)]
pub struct PrintedTree<R> {
    /// The rows that the tree names, in the order of their pool.
    pub rows: Vec<R>,
    /// The tree, which names them by their places in `rows`.
    pub tree: Tree,
}

/// Rows, and the trees over them.
#[derive(Drop)]
pub struct PrintedTrees<R> {
    /// The rows that one of the trees names, in the order of their pool.
    pub rows: Listed<R>,
    /// The closed tree, where there is one.
    pub proof: Option<CapTree>,
    /// The undecided tree, where there is one.
    pub undecided: Option<CapTree>,
}

/// Rows, and any number of trees over them.
#[derive(Drop)]
pub struct PrintedForest<R> {
    /// The rows that one of the trees names, in the order of their pool.
    pub rows: Vec<R>,
    /// The trees, which name them by their places in `rows`.
    pub trees: Vec<Tree>,
}

/// The rows that the tree names, in their order, and the tree with the new numbers of these rows. An entry names the
/// row of a Tighten, those of a Refute, and those of a Halve's basis.
///
/// # Errors
///
/// `OutOfMemory`.
pub fn printed<R: Drop>(
    alloc: Global,
    rows: Vec<R>,
    tree: &Tree,
) -> Result<PrintedTree<R>, OutOfMemory>
    requires { All (NamesBelow (length rows.items)) tree.now }
    ensures { IfOk result (λ sheet. IsTreePrinted rows.items tree.now sheet.rows.items sheet.tree) }
{
    let mut marks = no_marks(alloc, rows.len())?;
    mark_tree(&mut marks, tree);
    let numbers = new_numbers(alloc, marks.as_slice())?;
    let tree = new_tree(alloc, tree, numbers.as_slice())?;
    let rows = marked_rows(alloc, rows, marks.as_slice())?;
    Ok(PrintedTree { rows, tree })
}

/// The rows that one of the trees names, in their order, and the trees with the new numbers of these rows.
///
/// # Errors
///
/// `OutOfMemory`.
pub fn printed_both<R: Drop>(
    alloc: Global,
    rows: Vec<R>,
    proof: Option<&CapTree>,
    undecided: Option<&CapTree>,
) -> Result<PrintedTrees<R>, OutOfMemory>
    requires proof { TreeNamesBelow (length rows.items) (option_copied proof) }
    requires undecided { TreeNamesBelow (length rows.items) (option_copied undecided) }
    ensures { IfOk result (λ sheet. ArePrinted rows.items (option_copied proof.entry)
        (option_copied undecided.entry) sheet.rows sheet.proof sheet.undecided) }
{
    let mut marks = no_marks(alloc, rows.len())?;
    mark_if_any(&mut marks, proof);
    mark_if_any(&mut marks, undecided);
    let numbers = new_numbers(alloc, marks.as_slice())?;
    let proof = new_if_any(alloc, proof, numbers.as_slice())?;
    let undecided = new_if_any(alloc, undecided, numbers.as_slice())?;
    let rows = marked_rows(alloc, rows, marks.as_slice())?;
    Ok(PrintedTrees {
        rows: Listed::from_items(rows),
        proof,
        undecided,
    })
}

/// The rows that one of the trees names, in their order, and all the trees with the new numbers of these rows.
///
/// # Errors
///
/// `OutOfMemory`.
pub fn printed_all<R: Drop>(
    alloc: Global,
    rows: Vec<R>,
    trees: &[Tree],
) -> Result<PrintedForest<R>, OutOfMemory>
    requires { All (All (NamesBelow (length rows.items))) trees.now }
    ensures { IfOk result (λ sheet. AreAllPrinted rows.items trees.now sheet.rows.items
        sheet.trees.items) }
{
    let mut marks = no_marks(alloc, rows.len())?;
    mark_trees(&mut marks, trees);
    let numbers = new_numbers(alloc, marks.as_slice())?;
    let trees = new_trees(alloc, trees, numbers.as_slice())?;
    let rows = marked_rows(alloc, rows, marks.as_slice())?;
    Ok(PrintedForest { rows, trees })
}
