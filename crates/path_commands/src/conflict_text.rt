//! The text of `conflict`.
ghost use Rattle.std.specs.Prelude.{◌≡◌, ℕ, ◌≤◌, [], ◌∷◌, ◌++◌, length, codes, All, IfOk, OnOk};
ghost use Rattle.design_problem.specs.Boxes.{IsInBox};
ghost use Rattle.design_problem.specs.Rows.{box_of};
ghost use Rattle.text_lines.specs.Lines.{with_ends};
ghost use Rattle.least_conflict.specs.declared.conflict.Conflict.TheVariants.{Least, Fit, Undecided as ConflictUndecided};
ghost use Rattle.least_conflict.specs.Conflicts.{IsConflictFound, IsLeastConflictShown, IsUndecidedConflict};
ghost use Rattle.path_commands.specs.Conflicts.{conflict_text, members_line, without_line, without_parts};
ghost use Rattle.printed_parts.specs.SharedParts.{costs_part};

use cost_base::OutOfMemory;
use design_problem::{CostList, Problem, Row, Tree, keeps_problem_on_graph};
use evidence_text::{TreePart, push_costs, push_evidence};
use least_conflict::{Conflict, all_requests};
use line_builder::{LineBuilder, push_line};
use printed_parts::{at_greatest_bound, costs_by_name, counted_head};
use std::alloc::Global;

/// The first lines, up to that of the requests.
fn head_of(alloc: Global, verdict: &[u8], members: &[u32]) -> Result<Vec<u8>, OutOfMemory>
    ensures { IfOk result
        (λ text. text.items ≡ with_ends (codes "ospfcost conflict 1" ∷ verdict.now ∷
        members_line members.now ∷ [])) }
{
    counted_head(alloc, b"ospfcost conflict 1", verdict, b"members", members)
}

/// Adds the lines of costs of the problem's variables.
fn push_costs_part(
    alloc: Global,
    text: &mut Vec<u8>,
    problem: &Problem,
    costs: &CostList,
) -> Result<(), OutOfMemory>
    requires { IsInBox (box_of problem.now) costs.now }
    ensures { OnOk result (text.new.items ≡ text.old.items ++ with_ends
        (costs_part problem.now costs.now)) }
{
    let costs = costs_by_name(alloc, problem, costs)?;
    push_costs(alloc, text, Some(&costs))
}

/// Adds the lines of a member and of the costs without it.
fn push_without_one(
    alloc: Global,
    text: &mut Vec<u8>,
    problem: &Problem,
    member: u32,
    costs: &CostList,
) -> Result<(), OutOfMemory>
    requires { IsInBox (box_of problem.now) costs.now }
    ensures { OnOk result (text.new.items ≡ text.old.items ++ with_ends
        (without_line member ∷ costs_part problem.now costs.now)) }
{
    let line = LineBuilder::of_numbers(alloc, b"without", &[member])?;
    line.end_in(text)?;
    push_costs_part(alloc, text, problem, costs)
}

/// Adds the lines of each member and of the costs without it.
fn push_without(
    alloc: Global,
    text: &mut Vec<u8>,
    problem: &Problem,
    members: &[u32],
    without: &[CostList],
) -> Result<(), OutOfMemory>
    requires counted { length without.now ≡ length members.now }
    requires within { All (IsInBox (box_of problem.now)) without.now }
    ensures { OnOk result (text.new.items ≡ text.old.items ++ with_ends
        (without_parts problem.now members.now without.now)) }
{
    for (place, costs) in without.iter().enumerate() {
        push_without_one(alloc, text, problem, members[place], costs)?;
    }
    Ok(())
}

/// The text where all requests fit.
fn fits_text(alloc: Global, problem: &Problem, costs: &CostList) -> Result<Vec<u8>, OutOfMemory>
    requires { IsInBox (box_of problem.now) costs.now }
    ensures { IfOk result (λ text. text.items ≡ conflict_text problem.now (Fit costs.now)) }
{
    let members = all_requests(alloc, problem)?;
    let mut text = head_of(alloc, b"verdict none", members.as_slice())?;
    push_costs_part(alloc, &mut text, problem, costs)?;
    push_line(&mut text, b"end")?;
    Ok(text)
}

/// A least conflict: its requests, the rows that its tree names, and the costs without each request.
#[derive(Clone, Copy)]
struct LeastParts<'a> {
    members: &'a [u32],
    rows: &'a [Row],
    without: &'a [CostList],
}

/// The text of a least conflict, of which the tree shows that there are no fit costs.
fn least_text(
    alloc: Global,
    problem: &Problem,
    least: &LeastParts<'_>,
    tree: Tree,
) -> Result<Vec<u8>, OutOfMemory>
    requires { (top : ℕ) × (nodes : ℕ) × (nodes ≤ 10000000) × IsLeastConflictShown problem.now top
        nodes least.now.members.now least.now.rows.now tree least.now.without.now }
    ensures { IfOk result (λ text. text.items ≡ conflict_text problem.now
        (Least least.now.members.now least.now.rows.now tree least.now.without.now)) }
{
    keeps_problem_on_graph(problem);
    let mut text = head_of(alloc, b"verdict core", least.members)?;
    let tree = at_greatest_bound(problem, tree);
    push_evidence(alloc, &mut text, least.rows, TreePart::Proof, &tree)?;
    push_without(alloc, &mut text, problem, least.members, least.without)?;
    push_line(&mut text, b"end")?;
    Ok(text)
}

/// The text where the budget was used up.
fn undecided_text(
    alloc: Global,
    problem: &Problem,
    members: &[u32],
    rows: &[Row],
    tree: Tree,
) -> Result<Vec<u8>, OutOfMemory>
    requires { (top : ℕ) × (nodes : ℕ) × (nodes ≤ 10000000) × IsUndecidedConflict problem.now top
        nodes members.now rows.now tree }
    ensures { IfOk result (λ text. text.items ≡ conflict_text problem.now
        (ConflictUndecided members.now rows.now tree)) }
{
    keeps_problem_on_graph(problem);
    let mut text = head_of(alloc, b"verdict undecided", members)?;
    let tree = at_greatest_bound(problem, tree);
    push_evidence(alloc, &mut text, rows, TreePart::Undecided, &tree)?;
    push_line(&mut text, b"end")?;
    Ok(text)
}

/// The text of what was found of a problem's requests.
///
/// # Errors
///
/// `OutOfMemory`.
pub(crate) fn text_of_conflict(
    alloc: Global,
    problem: &Problem,
    conflict: Conflict,
) -> Result<Vec<u8>, OutOfMemory>
    requires { (top : ℕ) × (nodes : ℕ) × (nodes ≤ 10000000) × IsConflictFound problem.now top nodes
        conflict }
    ensures { IfOk result (λ text. text.items ≡ conflict_text problem.now conflict) }
{
    match conflict {
        Conflict::Fit { costs } => fits_text(alloc, problem, &costs),
        Conflict::Least {
            members,
            rows,
            tree,
            without,
        } => {
            let least = LeastParts {
                members: members.as_slice(),
                rows: rows.as_slice(),
                without: without.as_slice(),
            };
            least_text(alloc, problem, &least, tree)
        }
        Conflict::Undecided {
            members,
            rows,
            tree,
        } => undecided_text(alloc, problem, members.as_slice(), rows.as_slice(), tree),
    }
}
