//! The text of `spread`.
ghost use Rattle.std.specs.Prelude.{◌≡◌, ℕ, [], ◌∷◌, ◌++◌, codes, List, None, Some, IfOk, OnOk};
ghost use Rattle.std.specs.Option.{option_copied};
ghost use Rattle.design_problem.specs.Boxes.{IsInBox};
ghost use Rattle.design_problem.specs.Rows.{box_of};
ghost use Rattle.design_problem.specs.Answers.{greatest_bound};
ghost use Rattle.design_problem.specs.Text.{costs_lines, tree_lines};
ghost use Rattle.text_lines.specs.Lines.{with_ends};
ghost use Rattle.evidence_text.specs.Lines.{AreShort};
ghost use Rattle.printed_rows.specs.FittingTexts.{FitText};
ghost use Rattle.spread_sets.specs.Answers.{IsSpreadFound, set_row_line};
ghost use Rattle.printed_parts.specs.SharedParts.{at_greatest_bound};
ghost use Rattle.printed_rows.specs.PrintedCosts.{named_costs};
ghost use Rattle.path_commands.specs.Spreads.{front_lines, set_rows_lines, spread_lines, spread_text};

use cost_base::OutOfMemory;
use design_problem::{CapTree, CostList, Costs, Problem, Tree};
use evidence_text::{TreePart, push_costs, push_tree};
use line_builder::{LineBuilder, head_lines, push_count_line, push_line};
use printed_parts::{at_greatest_bound, costs_by_name};
use spread_sets::{SetRow, Spread};
use std::alloc::Global;

/// The line of a row.
fn set_row_line(alloc: Global, row: &SetRow) -> Result<LineBuilder, OutOfMemory>
    ensures { IfOk result (λ line. line ≡ set_row_line row.now) }
{
    match row {
        SetRow::Outsider(set, outsider) => {
            LineBuilder::of_count(alloc, b"row", u64::from(*set), outsider.as_slice())
        }
        SetRow::Same(set, first, other) => {
            LineBuilder::of_numbers(alloc, b"same", &[*set, *first, *other])
        }
    }
}

/// Adds the line of a row.
fn push_set_row(alloc: Global, text: &mut Vec<u8>, row: &SetRow) -> Result<(), OutOfMemory>
    ensures { OnOk result (text.new.items ≡ text.old.items ++ with_ends
        (set_row_line row.now ∷ [])) }
{
    let line = set_row_line(alloc, row)?;
    line.end_in(text)
}

/// Adds the lines of rows.
fn push_set_rows(alloc: Global, text: &mut Vec<u8>, rows: &[SetRow]) -> Result<(), OutOfMemory>
    ensures { OnOk result (text.new.items ≡ text.old.items ++ with_ends (set_rows_lines rows.now)) }
{
    push_count_line(alloc, text, b"rows", rows.len() as u64)?;
    for row in rows {
        push_set_row(alloc, text, row)?;
    }
    Ok(())
}

/// Adds the lines of both trees, and the last one.
fn push_trees(
    alloc: Global,
    text: &mut Vec<u8>,
    proof: Option<&CapTree>,
    undecided: Option<&CapTree>,
) -> Result<(), OutOfMemory>
    requires proof { AreShort (tree_lines (codes "proof") (option_copied proof)) }
    requires undecided { AreShort (tree_lines (codes "open") (option_copied undecided)) }
    ensures { OnOk result
        (text.new.items ≡
        ((text.old.items ++ with_ends (tree_lines (codes "proof") (option_copied proof.entry))) ++
        with_ends (tree_lines (codes "open") (option_copied undecided.entry))) ++
        with_ends (codes "end" ∷ [])) }
{
    push_tree(alloc, text, TreePart::Proof, proof)?;
    push_tree(alloc, text, TreePart::Undecided, undecided)?;
    push_line(text, b"end")
}

/// The text up to its rows: the verdict, the costs, and the rows.
fn text_of_rows(
    alloc: Global,
    verdict: &[u8],
    costs: Option<&Costs>,
    rows: &[SetRow],
) -> Result<Vec<u8>, OutOfMemory>
    requires { AreShort (costs_lines (option_copied costs)) }
    ensures { IfOk result
        (λ text. text.items ≡
        with_ends (front_lines verdict.now (option_copied costs.entry) rows.now)) }
{
    let mut text = head_lines(alloc, b"ospfcost spread answer 1", verdict)?;
    push_costs(alloc, &mut text, costs)?;
    push_set_rows(alloc, &mut text, rows)?;
    Ok(text)
}

/// The text of spread-fit costs.
fn fit_text(alloc: Global, problem: &Problem, costs: &CostList) -> Result<Vec<u8>, OutOfMemory>
    requires { IsInBox (box_of problem.now) costs.now }
    ensures { IfOk result
        (λ text. text.items ≡
        with_ends (spread_lines (codes "verdict fit") (Some (named_costs problem.now costs.now)) []
        None None)) }
{
    let costs = costs_by_name(alloc, problem, costs)?;
    let mut text = text_of_rows(alloc, b"verdict fit", Some(&costs), &[])?;
    push_trees(alloc, &mut text, None, None)?;
    Ok(text)
}

/// The text where there are no spread-fit costs.
fn impossible_text(
    alloc: Global,
    problem: &Problem,
    rows: &[SetRow],
    tree: Tree,
) -> Result<Vec<u8>, OutOfMemory>
    requires { FitText set_row_line (greatest_bound problem.now) rows.now tree }
    ensures { IfOk result
        (λ text. text.items ≡
        with_ends (spread_lines (codes "verdict impossible") None rows.now
        (Some (at_greatest_bound problem.now tree)) None)) }
{
    let tree = at_greatest_bound(problem, tree);
    let mut text = text_of_rows(alloc, b"verdict impossible", None, rows)?;
    push_trees(alloc, &mut text, Some(&tree), None)?;
    Ok(text)
}

/// The text where the budget was used up.
fn undecided_text(
    alloc: Global,
    problem: &Problem,
    rows: &[SetRow],
    tree: Tree,
) -> Result<Vec<u8>, OutOfMemory>
    requires { FitText set_row_line (greatest_bound problem.now) rows.now tree }
    ensures { IfOk result
        (λ text. text.items ≡
        with_ends (spread_lines (codes "verdict undecided") None rows.now None
        (Some (at_greatest_bound problem.now tree)))) }
{
    let tree = at_greatest_bound(problem, tree);
    let mut text = text_of_rows(alloc, b"verdict undecided", None, rows)?;
    push_trees(alloc, &mut text, None, Some(&tree))?;
    Ok(text)
}

/// The text of what was found for sets of a problem's wanted paths.
///
/// # Errors
///
/// `OutOfMemory`.
pub(crate) fn text_of_spread(
    alloc: Global,
    problem: &Problem,
    spread: Spread,
) -> Result<Vec<u8>, OutOfMemory>
    requires { (lines : List (List ℕ)) × (top : ℕ) × (nodes : ℕ) ×
        IsSpreadFound problem.now lines top nodes spread }
    ensures { IfOk result (λ text. text.items ≡ spread_text problem.now spread) }
{
    match spread {
        Spread::Fit(costs) => fit_text(alloc, problem, &costs),
        Spread::Impossible { rows, tree } => impossible_text(alloc, problem, rows.as_slice(), tree),
        Spread::Undecided { rows, tree } => undecided_text(alloc, problem, rows.as_slice(), tree),
    }
}
