//! Marks of the rows that trees name.
ghost use Rattle.std.specs.Prelude.{◌<◌, length, All};
ghost use Rattle.std.specs.List.{list_any};
ghost use Rattle.std.specs.Option.{option_copied};
ghost use Rattle.cost_base.specs.Marks.{AreMarked};
ghost use Rattle.printed_rows.specs.NamedRows.{MemberBelow, NamesBelow, TreeNamesBelow, entries_in, is_row_named, is_row_named_in, member_names, names, part_names};

use cost_base::mark;
use design_problem::{CapTree, Entry, Member, Tree};

/// Marks the row of a form of a basis, where it is a row's.
fn mark_member(marks: &mut Vec<bool>, member: &Member)
    requires { MemberBelow (length marks.old.items) member.now }
    ensures { AreMarked (λ k. member_names k member.now) marks.old.items marks.new.items }
{
    match member {
        Member::Row(row) => mark(marks, *row as usize),
        Member::Low(..) | Member::High(..) => {}
    }
}

/// Marks the rows of a basis.
fn mark_basis(marks: &mut Vec<bool>, basis: &[Member])
    requires { All (MemberBelow (length marks.old.items)) basis.now }
    ensures { AreMarked (λ k. list_any (member_names k) basis.now) marks.old.items marks.new.items }
{
    for member in basis {
        mark_member(marks, member);
    }
}

/// Marks the rows of a Refute.
fn mark_parts(marks: &mut Vec<bool>, parts: &[(u64, u128)])
    requires { All (λ part. part.0 < length marks.old.items) parts.now }
    ensures { AreMarked (λ k. list_any (part_names k) parts.now) marks.old.items marks.new.items }
{
    for (row, _) in parts {
        mark(marks, *row as usize);
    }
}

/// Marks the rows that an entry names.
fn mark_entry(marks: &mut Vec<bool>, entry: &Entry)
    requires { NamesBelow (length marks.old.items) entry.now }
    ensures { AreMarked (λ k. names k entry.now) marks.old.items marks.new.items }
{
    match entry {
        Entry::Tighten { row, .. } => mark(marks, *row as usize),
        Entry::Halve { wide, .. } => mark_basis(marks, wide.basis.as_slice()),
        Entry::Refute { parts } => mark_parts(marks, parts.as_slice()),
        Entry::Split { .. } | Entry::Undone => {}
    }
}

/// Marks the rows that entries name.
fn mark_entries(marks: &mut Vec<bool>, entries: &[Entry])
    requires { All (NamesBelow (length marks.old.items)) entries.now }
    ensures { AreMarked (is_row_named entries.now) marks.old.items marks.new.items }
{
    for entry in entries {
        mark_entry(marks, entry);
    }
}

/// Marks the rows that a tree names.
pub(crate) fn mark_tree(marks: &mut Vec<bool>, tree: &Tree)
    requires { All (NamesBelow (length marks.old.items)) tree.now }
    ensures { AreMarked (is_row_named tree.now) marks.old.items marks.new.items }
{
    mark_entries(marks, tree.as_slice());
}

/// Marks the rows that trees name.
pub(crate) fn mark_trees(marks: &mut Vec<bool>, trees: &[Tree])
    requires { All (All (NamesBelow (length marks.old.items))) trees.now }
    ensures { AreMarked (is_row_named_in trees.now) marks.old.items marks.new.items }
{
    for tree in trees {
        mark_tree(marks, tree);
    }
}

/// Marks the rows that a tree names, if there is one.
pub(crate) fn mark_if_any(marks: &mut Vec<bool>, tree: Option<&CapTree>)
    requires { TreeNamesBelow (length marks.old.items) (option_copied tree) }
    ensures { AreMarked (is_row_named (entries_in (option_copied tree.entry))) marks.old.items
        marks.new.items }
{
    if let Some(tree) = tree {
        mark_tree(marks, &tree.tree);
    }
}
