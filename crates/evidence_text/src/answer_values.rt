//! What the types of an answer keep: its numbers are within their bounds, its trees are whole, the rows of
//! a Refute rise.
//!
//! This code is for the prover alone: contracts know the range of a number's type only once the code reads the number,
//! so each function reads those of its argument. None writes anything.
ghost use Rattle.std.specs.Prelude.{ℕ, List, All, Some, length};
ghost use Rattle.design_problem.specs.AnswerRanges.{BoundsCosts, BoundsEntry, BoundsFloor, BoundsMember, BoundsParts, BoundsRow, BoundsTree, BoundsVerdict, IsCost};
ghost use Rattle.design_problem.specs.AnswerRanges.{IsRowNumber, IsIndex};
ghost use Rattle.evidence_text.specs.AnswerValues.{IsAnswerValue};

use design_problem::{
    Answer, CapTree, CostLine, Costs, Entry, Floor, Member, Multipliers, Row, Verdict,
};

/// Keeps that the number of a variable, a request or an edge has 32 bits: a number that is passed is in
/// its type's range.
fn keeps_thing(_number: u32)
    ensures { IsIndex _number }
{}

/// Keeps that a cost or a bound has 16 bits.
fn keeps_cost(_cost: u16)
    ensures { IsCost _cost }
{}

/// Keeps that the number of a row has 64 bits.
fn keeps_row_number(_row: u64)
    ensures { IsRowNumber _row }
{}

/// Keeps the ranges of a variable's number and of its bound.
fn keeps_end(_var: u32, _bound: u16)
    ensures { IsIndex _var × IsCost _bound }
{}

/// Keeps the range of the cost that a verdict names.
fn keeps_verdict(verdict: Verdict)
    ensures { BoundsVerdict verdict }
{
    match verdict {
        Verdict::Optimal(k) => keeps_cost(k),
        Verdict::Impossible => {}
        Verdict::Undecided(cap) => keeps_cost(cap),
    }
}

/// Keeps the range of the variable that a floor names.
fn keeps_floor(floor: Floor)
    ensures { BoundsFloor floor }
{
    match floor {
        Floor::Absent => {}
        Floor::Empty => {}
        Floor::Var(var) => keeps_thing(var),
    }
}

/// Keeps the ranges of the costs of lines, which a slice alone doesn't tell.
fn keeps_lines(lines: &[CostLine])
    ensures { All (λ line. IsCost line.cost) lines.now }
{
    for line in lines {
        keeps_cost(line.cost);
    }
}

/// Keeps the ranges of the greatest cost and of the lines' costs, where there are costs.
fn keeps_costs(costs: &Option<Costs>)
    ensures { BoundsCosts costs.now }
{
    match costs {
        Some(costs) => {
            keeps_cost(costs.greatest);
            keeps_lines(costs.lines.as_slice());
        }
        None => {}
    }
}

/// Keeps that the numbers of edges have 32 bits, as a slice's type tells of each.
fn keeps_edges(_edges: &[u32])
    ensures { All IsIndex _edges.now }
{}

/// Keeps the ranges of a row's request and edges.
fn keeps_row(row: &Row)
    ensures { BoundsRow row.now }
{
    keeps_thing(row.request);
    keeps_edges(row.rival.as_slice());
}

/// Keeps that the number of rows has 64 bits, as a length has.
fn keeps_count(rows: &[Row])
    ensures { IsRowNumber (length rows.now) }
{
    keeps_row_number(rows.len() as u64);
}

/// Keeps the ranges of each row's numbers.
fn keeps_rows(rows: &[Row])
    ensures { All BoundsRow rows.now }
{
    for row in rows {
        keeps_row(row);
    }
}

/// Keeps the ranges of the numbers of a form of a basis.
fn keeps_member(member: Member)
    ensures { BoundsMember member }
{
    match member {
        Member::Low(var, bound) => keeps_end(var, bound),
        Member::High(var, bound) => keeps_end(var, bound),
        Member::Row(row) => keeps_row_number(row),
    }
}

/// Keeps the ranges of the numbers of a basis.
fn keeps_members(members: &[Member])
    ensures { All BoundsMember members.now }
{
    for member in members {
        keeps_member(*member);
    }
}

/// Keeps that the rows' numbers of a Refute have 64 bits.
fn keeps_row_numbers(parts: &[(u64, u128)])
    ensures { All (λ part. IsRowNumber part.0) parts.now }
{
    for part in parts {
        keeps_row_number(part.0);
    }
}

/// Keeps that the rows of a Refute rise, by its type, and the ranges of their numbers.
fn keeps_parts(parts: &Multipliers)
    ensures { BoundsParts parts.now }
{
    keeps_row_numbers(parts.as_slice());
}

/// Keeps the ranges of an entry's numbers.
fn keeps_entry(entry: &Entry)
    ensures { BoundsEntry entry.now }
{
    match entry {
        Entry::Tighten {
            var,
            value,
            row,
            ..
        } => {
            keeps_end(*var, *value);
            keeps_row_number(*row);
        }
        Entry::Split { var, value } => keeps_end(*var, *value),
        Entry::Halve { var, value, wide } => {
            keeps_end(*var, *value);
            keeps_members(wide.basis.as_slice());
        }
        Entry::Refute { parts } => keeps_parts(parts),
        Entry::Undone => {}
    }
}

/// Keeps the ranges of the numbers of each entry.
fn keeps_entries(entries: &[Entry])
    ensures { All BoundsEntry entries.now }
{
    for entry in entries {
        keeps_entry(entry);
    }
}

/// Keeps that a tree over the box at a cap is whole, by its type, and the ranges of its numbers.
fn keeps_cap_tree(tree: &CapTree)
    ensures { BoundsTree (Some tree.now) }
{
    keeps_cost(tree.cap);
    keeps_entries(tree.tree.as_slice());
}

/// Keeps that of a tree, where there is one.
fn keeps_tree(tree: &Option<CapTree>)
    ensures { BoundsTree tree.now }
{
    match tree {
        Some(tree) => keeps_cap_tree(tree),
        None => {}
    }
}

/// For the prover alone: keeps that an answer is a value of its type: its numbers are within their bounds, its trees
/// are whole, its text is in the grammar. It changes nothing.
pub fn keeps_answer(answer: &Answer)
    ensures { IsAnswerValue answer.now }
{
    keeps_verdict(answer.verdict);
    keeps_costs(&answer.costs);
    keeps_floor(answer.floor);
    keeps_rows(answer.rows.as_slice());
    keeps_count(answer.rows.as_slice());
    keeps_tree(&answer.proof);
    keeps_tree(&answer.undecided);
}
