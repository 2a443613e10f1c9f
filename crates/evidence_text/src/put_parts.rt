//! The parts of an answer's text, put line by line.
ghost use Rattle.std.specs.Prelude.{◌≡◌, ℕ, ◌+◌, ◌≤◌, List, [], ◌∷◌, ◌++◌, length, map, codes, OnOk, OnErr};
ghost use Rattle.std.specs.Option.{option_copied};
ghost use Rattle.cost_base.specs.Outside.{GotAll, GotPart, HasCause};
ghost use Rattle.design_problem.specs.Text.{text, router_lines, cost_lines, costs_lines, row_line, entry_line, tree_lines, head_lines, interface_lines, floor_line, rows_lines, end_lines};
ghost use Rattle.text_lines.specs.Lines.{with_ends};
ghost use Rattle.evidence_text.specs.Lines.{AreShort, IsPieceHanded};
ghost use Rattle.evidence_text.specs.Parts.{part_word};

use crate::TreePart;
use crate::line_buffer::LineBuffer;
use crate::lines::{
    Printed, no_tree_line, write_cost, write_costs, write_floor, write_interface, write_rows,
    write_tree, write_verdict,
};
use cost_base::{Name, PutFailed, Sink};
use design_problem::{Answer, CapTree, CostLine, Costs, Entry, Floor, Row, Tree, Verdict};

/// Puts the text of an answer, each line with its LF by one `put`. It takes no memory.
///
/// # Errors
///
/// `PutFailed` where the sink refused a line: a prefix of the text was put.
pub fn put_answer<K: Sink>(answer: &Answer, out: &mut K) -> Result<(), PutFailed>
    ensures whole { OnOk result (GotAll (K.got out.old) (K.got out.new) (text answer.now)) }
    ensures part { OnErr result (GotPart (K.got out.old) (K.got out.new) (text answer.now)) }
    ensures cause { HasCause (K.faults out.old) (K.faults out.new) result }
{
    let mut line = LineBuffer::new();
    put_head(answer.verdict, &mut line, out)?;
    put_costs_part(answer.costs.as_ref(), &mut line, out)?;
    put_floor(answer.floor, &mut line, out)?;
    put_rows_part(answer.rows.as_slice(), &mut line, out)?;
    put_tree_part(TreePart::Proof, answer.proof.as_ref(), &mut line, out)?;
    put_tree_part(
        TreePart::Undecided,
        answer.undecided.as_ref(),
        &mut line,
        out,
    )?;
    put_end(&mut line, out)
}

/// Puts the lines of costs, each by one `put`, as the text of an answer has them. It takes no memory.
///
/// # Errors
///
/// `PutFailed` where the sink refused a line: a prefix of these lines was put.
pub fn put_costs<K: Sink>(costs: Option<&Costs>, out: &mut K) -> Result<(), PutFailed>
    requires { AreShort (costs_lines (option_copied costs)) }
    ensures whole { OnOk result (GotAll (K.got out.old) (K.got out.new)
        (with_ends (costs_lines (option_copied costs.entry)))) }
    ensures part { OnErr result (GotPart (K.got out.old) (K.got out.new)
        (with_ends (costs_lines (option_copied costs.entry)))) }
    ensures cause { HasCause (K.faults out.old) (K.faults out.new) result }
{
    let mut line = LineBuffer::new();
    put_costs_part(costs, &mut line, out)
}

/// Puts cost lines, each by one `put`, as the text of an answer has them behind their count. It takes no memory.
///
/// # Errors
///
/// `PutFailed` where the sink refused a line: a prefix of these lines was put.
pub(crate) fn put_cost_lines<K: Sink>(costs: &[CostLine], out: &mut K) -> Result<(), PutFailed>
    requires { AreShort (cost_lines None costs.now) }
    ensures whole { OnOk result (GotAll (K.got out.old) (K.got out.new)
        (with_ends (cost_lines None costs.now))) }
    ensures part { OnErr result (GotPart (K.got out.old) (K.got out.new)
        (with_ends (cost_lines None costs.now))) }
    ensures cause { HasCause (K.faults out.old) (K.faults out.new) result }
{
    let mut line = LineBuffer::new();
    put_lines_of_costs(costs, &mut line, out)
}

/// Puts the lines of rows, each by one `put`, as the text of an answer has them. It takes no memory.
///
/// # Errors
///
/// `PutFailed` where the sink refused a line: a prefix of these lines was put.
pub fn put_rows<K: Sink>(rows: &[Row], out: &mut K) -> Result<(), PutFailed>
    requires { AreShort (rows_lines rows.now) }
    ensures whole { OnOk result (GotAll (K.got out.old) (K.got out.new)
        (with_ends (rows_lines rows.now))) }
    ensures part { OnErr result (GotPart (K.got out.old) (K.got out.new)
        (with_ends (rows_lines rows.now))) }
    ensures cause { HasCause (K.faults out.old) (K.faults out.new) result }
{
    let mut line = LineBuffer::new();
    put_rows_part(rows, &mut line, out)
}

/// Puts the lines of a tree, each by one `put`, as the text of an answer has them in this part. It takes no memory.
///
/// # Errors
///
/// `PutFailed` where the sink refused a line: a prefix of these lines was put.
pub fn put_tree<K: Sink>(
    part: TreePart,
    tree: Option<&CapTree>,
    out: &mut K,
) -> Result<(), PutFailed>
    requires { AreShort (tree_lines (part_word part) (option_copied tree)) }
    ensures whole { OnOk result (GotAll (K.got out.old) (K.got out.new)
        (with_ends (tree_lines (part_word part) (option_copied tree.entry)))) }
    ensures part { OnErr result (GotPart (K.got out.old) (K.got out.new)
        (with_ends (tree_lines (part_word part) (option_copied tree.entry)))) }
    ensures cause { HasCause (K.faults out.old) (K.faults out.new) result }
{
    let mut line = LineBuffer::new();
    put_tree_part(part, tree, &mut line, out)
}

fn put_head<K: Sink>(verdict: Verdict, line: &mut LineBuffer, out: &mut K) -> Result<(), PutFailed>
    requires { AreShort (head_lines verdict) }
    ensures { IsPieceHanded (K.got out.old) (K.got out.new) (K.faults out.old) (K.faults out.new)
        (with_ends (head_lines verdict)) result }
{
    line.start(b"ospfcost answer 1");
    line.put(out)?;
    write_verdict(verdict, line);
    line.put(out)
}

fn put_costs_part<K: Sink>(
    costs: Option<&Costs>,
    line: &mut LineBuffer,
    out: &mut K,
) -> Result<(), PutFailed>
    requires { AreShort (costs_lines (option_copied costs)) }
    ensures { IsPieceHanded (K.got out.old) (K.got out.new) (K.faults out.old) (K.faults out.new)
        (with_ends (costs_lines (option_copied costs.entry))) result }
{
    match costs {
        None => {
            line.start(b"costs none");
            line.put(out)
        }
        Some(costs) => put_some_costs(costs, line, out),
    }
}

fn put_some_costs<K: Sink>(
    costs: &Costs,
    line: &mut LineBuffer,
    out: &mut K,
) -> Result<(), PutFailed>
    requires { AreShort (costs_lines (Some costs.now)) }
    ensures { IsPieceHanded (K.got out.old) (K.got out.new) (K.faults out.old) (K.faults out.new)
        (with_ends (costs_lines (Some costs.now))) result }
{
    write_costs(costs.greatest, line);
    line.put(out)?;
    put_lines_of_costs(costs.lines.as_slice(), line, out)
}

fn put_lines_of_costs<K: Sink>(
    costs: &[CostLine],
    line: &mut LineBuffer,
    out: &mut K,
) -> Result<(), PutFailed>
    requires { AreShort (cost_lines None costs.now) }
    ensures { IsPieceHanded (K.got out.old) (K.got out.new) (K.faults out.old) (K.faults out.new)
        (with_ends (cost_lines None costs.now)) result }
{
    let mut before = None;
    for cost in costs {
        put_cost_line(before, cost, line, out)?;
        before = Some(&cost.router);
    }
    Ok(())
}

/// Puts the lines of a cost, which begin with its router unless that is the router of the cost line before.
fn put_cost_line<K: Sink>(
    before: Option<&Name>,
    cost: &CostLine,
    line: &mut LineBuffer,
    out: &mut K,
) -> Result<(), PutFailed>
    requires { AreShort (router_lines (option_copied before) cost.now.router ++
        interface_lines cost.now) }
    ensures { IsPieceHanded (K.got out.old) (K.got out.new) (K.faults out.old) (K.faults out.new)
        (with_ends (router_lines (option_copied before.entry) cost.now.router ++
        interface_lines cost.now)) result }
{
    put_router(before, &cost.router, line, out)?;
    put_interface(cost, line, out)
}

/// Puts the line of a router, unless it is the router of the cost line before.
fn put_router<K: Sink>(
    before: Option<&Name>,
    router: &Name,
    line: &mut LineBuffer,
    out: &mut K,
) -> Result<(), PutFailed>
    requires { AreShort (router_lines (option_copied before) router.now) }
    ensures { IsPieceHanded (K.got out.old) (K.got out.new) (K.faults out.old) (K.faults out.new)
        (with_ends (router_lines (option_copied before.entry) router.now)) result }
{
    if let Some(name) = before {
        if name.as_bytes() == router.as_bytes() {
            return Ok(());
        }
    }
    line.start(b"router");
    line.push_word(router.as_bytes());
    line.put(out)
}

fn put_interface<K: Sink>(
    cost: &CostLine,
    line: &mut LineBuffer,
    out: &mut K,
) -> Result<(), PutFailed>
    requires { AreShort (interface_lines cost.now) }
    ensures { IsPieceHanded (K.got out.old) (K.got out.new) (K.faults out.old) (K.faults out.new)
        (with_ends (interface_lines cost.now)) result }
{
    write_interface(&cost.interface, line);
    line.put(out)?;
    write_cost(cost.cost, line);
    line.put(out)?;
    line.start(b"exit");
    line.put(out)
}

fn put_floor<K: Sink>(floor: Floor, line: &mut LineBuffer, out: &mut K) -> Result<(), PutFailed>
    requires { AreShort (floor_line floor ∷ []) }
    ensures { IsPieceHanded (K.got out.old) (K.got out.new) (K.faults out.old) (K.faults out.new)
        (with_ends (floor_line floor ∷ [])) result }
{
    write_floor(floor, line);
    line.put(out)
}

fn put_rows_part<K: Sink>(rows: &[Row], line: &mut LineBuffer, out: &mut K) -> Result<(), PutFailed>
    requires { AreShort (rows_lines rows.now) }
    ensures { IsPieceHanded (K.got out.old) (K.got out.new) (K.faults out.old) (K.faults out.new)
        (with_ends (rows_lines rows.now)) result }
{
    write_rows(rows.len(), line);
    line.put(out)?;
    put_each(rows, line, out)
}

fn put_tree_part<K: Sink>(
    part: TreePart,
    tree: Option<&CapTree>,
    line: &mut LineBuffer,
    out: &mut K,
) -> Result<(), PutFailed>
    requires { AreShort (tree_lines (part_word part) (option_copied tree)) }
    ensures { IsPieceHanded (K.got out.old) (K.got out.new) (K.faults out.old) (K.faults out.new)
        (with_ends (tree_lines (part_word part) (option_copied tree.entry))) result }
{
    match tree {
        None => {
            line.start(no_tree_line(part));
            line.put(out)
        }
        Some(tree) => put_some_tree(part, tree, line, out),
    }
}

fn put_some_tree<K: Sink>(
    part: TreePart,
    tree: &CapTree,
    line: &mut LineBuffer,
    out: &mut K,
) -> Result<(), PutFailed>
    requires { AreShort (tree_lines (part_word part) (Some tree.now)) }
    ensures { IsPieceHanded (K.got out.old) (K.got out.new) (K.faults out.old) (K.faults out.new)
        (with_ends (tree_lines (part_word part) (Some tree.now))) result }
{
    put_capped_tree(part, tree.cap, &tree.tree, line, out)
}

/// Puts the lines of a tree over the box at a cap.
pub(crate) fn put_capped_tree<K: Sink>(
    part: TreePart,
    cap: u16,
    tree: &Tree,
    line: &mut LineBuffer,
    out: &mut K,
) -> Result<(), PutFailed>
    requires { AreShort
        (tree_lines (part_word part) (Some (record { cap = cap; tree = tree.now }))) }
    ensures { IsPieceHanded (K.got out.old) (K.got out.new) (K.faults out.old) (K.faults out.new)
        (with_ends (tree_lines (part_word part) (Some (record { cap = cap; tree = tree.now }))))
        result }
{
    let entries = tree.as_slice();
    write_tree(part, cap, entries.len(), line);
    line.put(out)?;
    put_each(entries, line, out)
}

/// Puts the line of each item.
fn put_each<T: Printed, K: Sink>(
    items: &[T],
    line: &mut LineBuffer,
    out: &mut K,
) -> Result<(), PutFailed>
    requires { AreShort (map T.printed items.now) }
    ensures { IsPieceHanded (K.got out.old) (K.got out.new) (K.faults out.old) (K.faults out.new)
        (with_ends (map T.printed items.now)) result }
{
    for item in items {
        item.write(line);
        line.put(out)?;
    }
    Ok(())
}

fn put_end<K: Sink>(line: &mut LineBuffer, out: &mut K) -> Result<(), PutFailed>
    requires { AreShort end_lines }
    ensures { IsPieceHanded (K.got out.old) (K.got out.new) (K.faults out.old) (K.faults out.new)
        (with_ends end_lines) result }
{
    line.start(b"wide none");
    line.put(out)?;
    line.start(b"end");
    line.put(out)
}
