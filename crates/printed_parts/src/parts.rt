//! The parts of costs and trees.
ghost use Rattle.std.specs.Prelude.{◌≡◌, ◌≤◌, ◌++◌, Some, IfOk, OnOk};
ghost use Rattle.design_problem.specs.Boxes.{IsInBox};
ghost use Rattle.design_problem.specs.Rows.{box_of};
ghost use Rattle.design_problem.specs.Answers.{greatest_bound};
ghost use Rattle.design_problem.specs.Text.{costs_lines, tree_lines};
ghost use Rattle.text_lines.specs.Lines.{with_ends};
ghost use Rattle.evidence_text.specs.Lines.{AreShort};
ghost use Rattle.evidence_text.specs.Parts.{part_word};
ghost use Rattle.printed_parts.specs.SharedParts.{at_greatest_bound};
ghost use Rattle.printed_rows.specs.PrintedCosts.{named_costs};

use cost_base::OutOfMemory;
use design_problem::{
    CapTree, CostList, Costs, Problem, Tree, greatest_of, keeps_problem_on_graph,
};
use evidence_text::{TreePart, push_capped_tree};
use printed_rows::printed_costs;
use std::alloc::Global;

/// Costs of a problem's variables as they are printed, with the names of the free interfaces.
///
/// # Errors
///
/// `OutOfMemory`.
pub fn costs_by_name(
    alloc: Global,
    problem: &Problem,
    costs: &CostList,
) -> Result<Costs, OutOfMemory>
    requires { IsInBox (box_of problem.now) costs.now }
    ensures named { IfOk result (λ printed. printed ≡ named_costs problem.now costs.now) }
    ensures short { IfOk result (λ printed. AreShort (costs_lines (Some printed))) }
{
    keeps_problem_on_graph(problem);
    printed_costs(alloc, problem, costs.as_slice())
}

/// The tree over the box at the greatest bound.
pub fn at_greatest_bound(problem: &Problem, tree: Tree) -> CapTree
    ensures same { result ≡ at_greatest_bound problem.now tree }
    ensures small { result.cap ≤ 65535 }
{
    CapTree {
        cap: greatest_bound(problem),
        tree,
    }
}

/// The greatest bound of a problem's variables.
fn greatest_bound(problem: &Problem) -> u16
    ensures { result ≡ greatest_bound problem.now }
{
    greatest_of(problem.high.as_slice())
}

/// For the prover alone: keeps that the greatest bound of a problem's variables is a cost of an interface.
pub fn keeps_greatest_bound(problem: &Problem)
    ensures { greatest_bound problem.now ≤ 65535 }
{
    // For the prover: that the greatest bound has 16 bits is known once it is computed.
    let _bound = greatest_bound(problem);
}

/// Adds the lines of a tree over the box at the greatest bound at the end, as the text of an answer has them in this
/// part.
///
/// # Errors
///
/// `OutOfMemory`.
pub fn push_tree_at_greatest_bound(
    alloc: Global,
    text: &mut Vec<u8>,
    part: TreePart,
    problem: &Problem,
    tree: &Tree,
) -> Result<(), OutOfMemory>
    requires { AreShort
        (tree_lines (part_word part) (Some (at_greatest_bound problem.now tree.now))) }
    ensures { OnOk result (text.new.items ≡ text.old.items ++ with_ends
        (tree_lines (part_word part) (Some (at_greatest_bound problem.now tree.now)))) }
{
    push_capped_tree(alloc, text, part, greatest_bound(problem), tree)
}
