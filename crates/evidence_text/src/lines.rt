//! The lines of an answer, each written into a buffer.
ghost use Rattle.std.specs.Prelude.{◌≡◌, ℕ, ◌+◌, ◌≤◌, List, [], ◌∷◌, ◌++◌, length, map, codes};
ghost use Rattle.cost_base.specs.Decimal.{decimal};
ghost use Rattle.design_problem.specs.Text.{row_line, entry_line, side_word, step_word, ratio_word, member_words, members_words, multiplier_words, verdict_line, costs_line, interface_line, answer_cost_line, floor_line, rows_line};
ghost use Rattle.line_builder.specs.Words.{with_words};
ghost use Rattle.evidence_text.specs.Parts.{part_word, no_tree_line, tree_line};

use crate::TreePart;
use crate::line_buffer::LineBuffer;
use cost_base::Name;
use design_problem::{Entry, Floor, Member, Ratio, Row, Side, StepName, Verdict, WideAt};

/// What is printed as one line.
pub(crate) trait Printed {
    /// The line that is printed.
    ghost printed: { Self → List ℕ };

    /// Writes the line.
    fn write(&self, line: &mut LineBuffer)
        requires { length (printed self.now) ≤ 65536 }
        ensures { line.new ≡ printed self.now };
}

impl Printed for Row {
    ghost use Rattle.design_problem.specs.Text.{row_line};

    ghost printed = { row_line };

    fn write(&self, line: &mut LineBuffer) {
        write_row(self, line);
    }
}

impl Printed for Entry {
    ghost use Rattle.design_problem.specs.Text.{entry_line};

    ghost printed = { entry_line };

    fn write(&self, line: &mut LineBuffer) {
        write_entry(self, line);
    }
}

/// Writes the line of the verdict.
pub(crate) fn write_verdict(verdict: Verdict, line: &mut LineBuffer)
    requires { length (verdict_line verdict) ≤ 65536 }
    ensures { line.new ≡ verdict_line verdict }
{
    match verdict {
        Verdict::Optimal(greatest) => {
            line.start(b"verdict optimal");
            line.push_number(u128::from(greatest));
        }
        Verdict::Impossible => line.start(b"verdict impossible"),
        Verdict::Undecided(cap) => {
            line.start(b"verdict undecided budget");
            line.push_number(u128::from(cap));
        }
    }
}

/// Writes the line of the greatest cost, which costs begin with.
pub(crate) fn write_costs(greatest: u16, line: &mut LineBuffer)
    requires { length (costs_line greatest) ≤ 65536 }
    ensures { line.new ≡ costs_line greatest }
{
    line.start(b"costs");
    line.push_number(u128::from(greatest));
}

/// Writes the line of an interface.
pub(crate) fn write_interface(name: &Name, line: &mut LineBuffer)
    requires { length (interface_line name.now) ≤ 65536 }
    ensures { line.new ≡ interface_line name.now }
{
    line.start(b"interface");
    line.push_word(name.as_bytes());
}

/// Writes the line that sets the cost of an interface.
pub(crate) fn write_cost(cost: u16, line: &mut LineBuffer)
    requires { length (answer_cost_line cost) ≤ 65536 }
    ensures { line.new ≡ answer_cost_line cost }
{
    line.start(b" ip ospf cost");
    line.push_number(u128::from(cost));
}

/// Writes the line of the floor.
pub(crate) fn write_floor(floor: Floor, line: &mut LineBuffer)
    requires { length (floor_line floor) ≤ 65536 }
    ensures { line.new ≡ floor_line floor }
{
    match floor {
        Floor::Absent => line.start(b"floor none"),
        Floor::Empty => line.start(b"floor empty"),
        Floor::Var(var) => {
            line.start(b"floor");
            line.push_number(u128::from(var));
        }
    }
}

/// Writes the line that rows begin with.
pub(crate) fn write_rows(count: usize, line: &mut LineBuffer)
    requires { length (rows_line count) ≤ 65536 }
    ensures { line.new ≡ rows_line count }
{
    line.start(b"rows");
    line.push_number(count as u128);
}

/// Writes the line of a row.
fn write_row(row: &Row, line: &mut LineBuffer)
    requires { length (row_line row.now) ≤ 65536 }
    ensures { line.new ≡ row_line row.now }
{
    line.start(b"row");
    line.push_number(u128::from(row.request));
    push_numbers(row.rival.as_slice(), line);
}

fn push_numbers(numbers: &[u32], line: &mut LineBuffer)
    requires { length (with_words line.old (map decimal numbers.now)) ≤ 65536 }
    ensures { line.new ≡ with_words line.old (map decimal numbers.now) }
{
    for number in numbers {
        line.push_number(u128::from(*number));
    }
}

/// The line of a part that has no tree.
pub fn no_tree_line(part: TreePart) -> &'static [u8]
    ensures is { result.now ≡ no_tree_line part }
    ensures short { length result.now ≤ 65536 }
{
    match part {
        TreePart::Proof => b"proof none",
        TreePart::Undecided => b"open none",
    }
}

/// The word that a part with a tree begins with.
pub fn part_word(part: TreePart) -> &'static [u8]
    ensures is { result.now ≡ part_word part }
    ensures short { length result.now ≤ 65536 }
{
    match part {
        TreePart::Proof => b"proof",
        TreePart::Undecided => b"open",
    }
}

/// Writes the line that a tree begins with: its part, its cap, and how many entries it has.
pub(crate) fn write_tree(part: TreePart, cap: u16, count: usize, line: &mut LineBuffer)
    requires { length (tree_line part cap count) ≤ 65536 }
    ensures { line.new ≡ tree_line part cap count }
{
    line.start(part_word(part));
    line.push_number(u128::from(cap));
    line.push_number(count as u128);
}

/// Writes the line of an entry of a tree.
fn write_entry(entry: &Entry, line: &mut LineBuffer)
    requires { length (entry_line entry.now) ≤ 65536 }
    ensures { line.new ≡ entry_line entry.now }
{
    match entry {
        Entry::Tighten {
            var,
            side,
            value,
            row,
        } => write_tighten(*var, *side, *value, *row, line),
        Entry::Split { var, value } => write_split(*var, *value, line),
        Entry::Halve { var, value, wide } => write_halve(*var, *value, wide, line),
        Entry::Refute { parts } => write_refute(parts.as_slice(), line),
        Entry::Undone => line.start(b"open"),
    }
}

fn write_tighten(var: u32, side: Side, value: u16, row: u64, line: &mut LineBuffer)
    requires { length (entry_line (Entry.Tighten var side value row)) ≤ 65536 }
    ensures { line.new ≡ entry_line (Entry.Tighten var side value row) }
{
    line.start(b"tighten");
    line.push_number(u128::from(var));
    line.push_word(side_word(side));
    line.push_number(u128::from(value));
    line.push_number(u128::from(row));
}

/// The word of an end of a range: `low` or `high`.
pub fn side_word(side: Side) -> &'static [u8]
    ensures { result.now ≡ side_word side }
{
    match side {
        Side::Low => b"low",
        Side::High => b"high",
    }
}

fn write_split(var: u32, value: u16, line: &mut LineBuffer)
    requires { length (entry_line (Entry.Split var value)) ≤ 65536 }
    ensures { line.new ≡ entry_line (Entry.Split var value) }
{
    line.start(b"split");
    line.push_number(u128::from(var));
    line.push_number(u128::from(value));
}

fn write_halve(var: u32, value: u16, wide: &WideAt, line: &mut LineBuffer)
    requires { length (entry_line (Entry.Halve var value wide.now)) ≤ 65536 }
    ensures { line.new ≡ entry_line (Entry.Halve var value wide.now) }
{
    line.start(b"halve");
    line.push_number(u128::from(var));
    line.push_number(u128::from(value));
    line.push_word(step_word(wide.step));
    push_ratio(&wide.left, line);
    push_ratio(&wide.right, line);
    push_members(wide.basis.as_slice(), line);
}

/// The word of a step of the arithmetic: `add`, `sub`, `mul`, `div`, `lcm` or `scale`.
pub fn step_word(step: StepName) -> &'static [u8]
    ensures { result.now ≡ step_word step }
{
    match step {
        StepName::Add => b"add",
        StepName::Sub => b"sub",
        StepName::Mul => b"mul",
        StepName::Div => b"div",
        StepName::Lcm => b"lcm",
        StepName::Scale => b"scale",
    }
}

fn push_ratio(ratio: &Ratio, line: &mut LineBuffer)
    requires { length (line.old ++ 32 ∷ ratio_word ratio.now) ≤ 65536 }
    ensures { line.new ≡ line.old ++ 32 ∷ ratio_word ratio.now }
{
    line.push(b' ');
    line.push_integer(ratio.numerator);
    line.push(b'/');
    line.push_integer(ratio.denominator);
}

fn push_members(members: &[Member], line: &mut LineBuffer)
    requires { length (with_words line.old (members_words members.now)) ≤ 65536 }
    ensures { line.new ≡ with_words line.old (members_words members.now) }
{
    for member in members {
        push_member(*member, line);
    }
}

fn push_member(member: Member, line: &mut LineBuffer)
    requires { length (with_words line.old (member_words member)) ≤ 65536 }
    ensures { line.new ≡ with_words line.old (member_words member) }
{
    match member {
        Member::Low(var, value) => {
            line.push_word(b"low");
            line.push_number(u128::from(var));
            line.push_number(u128::from(value));
        }
        Member::High(var, value) => {
            line.push_word(b"high");
            line.push_number(u128::from(var));
            line.push_number(u128::from(value));
        }
        Member::Row(row) => {
            line.push_word(b"row");
            line.push_number(u128::from(row));
        }
    }
}

fn write_refute(parts: &[(u64, u128)], line: &mut LineBuffer)
    requires { length (entry_line (Entry.Refute parts.now)) ≤ 65536 }
    ensures { line.new ≡ entry_line (Entry.Refute parts.now) }
{
    line.start(b"refute");
    push_parts(parts, line);
}

fn push_parts(parts: &[(u64, u128)], line: &mut LineBuffer)
    requires { length (with_words line.old (multiplier_words parts.now)) ≤ 65536 }
    ensures { line.new ≡ with_words line.old (multiplier_words parts.now) }
{
    for part in parts {
        line.push_number(u128::from(part.0));
        line.push_number(part.1);
    }
}
