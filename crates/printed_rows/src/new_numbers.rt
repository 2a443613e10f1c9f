//! New numbers for the rows that are named.
ghost use Rattle.std.specs.Prelude.{◌≡◌, ℕ, ◌<◌, length, map, Bool, All, IfOk};
ghost use Rattle.std.specs.Option.{option_copied};
ghost use Rattle.cost_base.specs.Marks.{is_marked};
ghost use Rattle.design_problem.specs.Renumbering.{renumbered, renumbered_member, renumbered_multiplier, renumbered_wide};
ghost use Rattle.printed_rows.specs.NamedRows.{MemberBelow, NamesBelow, NamesKnown, TreeNamesKnown};
ghost use Rattle.printed_rows.specs.NewNumbers.{AreNewNumbers, HasNumbers, KeepsOrder, PartsKeepOrder, kept_rows, new_number, number_given};

use cost_base::{Listed, OutOfMemory, push_if};
use design_problem::{CapTree, Entry, Member, Multipliers, Tree, WideAt};
use std::alloc::Global;

/// For each row how many marked ones stand before it.
///
/// # Errors
///
/// `OutOfMemory`.
pub fn new_numbers(alloc: Global, marks: &[bool]) -> Result<Vec<u64>, OutOfMemory>
    ensures { IfOk result (λ numbers. AreNewNumbers (is_marked marks.now) (length marks.now)
        numbers.items) }
{
    let mut numbers = Vec::new(alloc);
    let mut next = 0;
    for is_marked in marks {
        numbers.push(next)?;
        if *is_marked {
            next += 1;
        }
    }
    Ok(numbers)
}

/// The marked rows, in their order.
///
/// # Errors
///
/// `OutOfMemory`.
pub fn marked_rows<R: Drop>(
    alloc: Global,
    rows: Vec<R>,
    marks: &[bool],
) -> Result<Vec<R>, OutOfMemory>
    requires { length marks.now ≡ length rows.items }
    ensures { IfOk result (λ kept. kept.items ≡ kept_rows (is_marked marks.now) rows.items) }
{
    let mut kept = Vec::new(alloc);
    let mut place = 0;
    for row in rows {
        push_if(&mut kept, row, marks[place])?;
        place += 1;
    }
    Ok(kept)
}

/// The form of a basis with the new number of its row.
fn new_member(member: &Member, numbers: &[u64]) -> Member
    requires { MemberBelow (length numbers.now) member.now }
    ensures { result ≡ renumbered_member (number_given numbers.now) member.now }
{
    match member {
        Member::Row(row) => Member::Row(numbers[*row as usize]),
        Member::Low(..) | Member::High(..) => *member,
    }
}

/// The basis with the new numbers of its rows.
fn new_basis(alloc: Global, basis: &[Member], numbers: &[u64]) -> Result<Vec<Member>, OutOfMemory>
    requires { All (MemberBelow (length numbers.now)) basis.now }
    ensures { IfOk result
        (λ members. members.items ≡ map (renumbered_member (number_given numbers.now)) basis.now) }
{
    let mut members = Vec::new(alloc);
    for member in basis {
        members.push(new_member(member, numbers))?;
    }
    Ok(members)
}

/// The pairs with the new numbers of their rows.
fn new_pairs(
    alloc: Global,
    parts: &[(u64, u128)],
    numbers: &[u64],
) -> Result<Vec<(u64, u128)>, OutOfMemory>
    requires { All (λ part. part.0 < length numbers.now) parts.now }
    ensures { IfOk result (λ pairs. pairs.items ≡ map (renumbered_multiplier (number_given
        numbers.now)) parts.now) }
{
    let mut pairs = Vec::new(alloc);
    for (row, multiplier) in parts {
        pairs.push((numbers[*row as usize], *multiplier))?;
    }
    Ok(pairs)
}

/// The Refute's rows with their new numbers.
fn new_parts(
    alloc: Global,
    parts: &Multipliers,
    numbers: &[u64],
) -> Result<Multipliers, OutOfMemory>
    requires known { All (λ part. part.0 < length numbers.now) parts.now }
    requires order { PartsKeepOrder (number_given numbers.now) parts.now }
    ensures { IfOk result (λ new. new ≡ map (renumbered_multiplier (number_given numbers.now))
        parts.now) }
{
    let pairs = new_pairs(alloc, parts.as_slice(), numbers)?;
    Ok(Multipliers::from_items(pairs))
}

/// The entry with the new numbers of its rows: each row's number stands at its place in `numbers`.
///
/// # Errors
///
/// `OutOfMemory`.
pub fn renumbered_entry(alloc: Global, entry: &Entry, numbers: &[u64]) -> Result<Entry, OutOfMemory>
    requires known { NamesBelow (length numbers.now) entry.now }
    requires order { KeepsOrder (number_given numbers.now) entry.now }
    ensures { IfOk result (λ new. new ≡ renumbered (number_given numbers.now) entry.now) }
{
    match entry {
        Entry::Tighten {
            var,
            side,
            value,
            row,
        } => Ok(Entry::Tighten {
            var: *var,
            side: *side,
            value: *value,
            row: numbers[*row as usize],
        }),
        Entry::Split { var, value } => Ok(Entry::Split {
            var: *var,
            value: *value,
        }),
        Entry::Halve { var, value, wide } => Ok(Entry::Halve {
            var: *var,
            value: *value,
            wide: new_wide(alloc, wide, numbers)?,
        }),
        Entry::Refute { parts } => Ok(Entry::Refute {
            parts: new_parts(alloc, parts, numbers)?,
        }),
        Entry::Undone => Ok(Entry::Undone),
    }
}

/// The step with the new numbers of its basis.
fn new_wide(alloc: Global, wide: &WideAt, numbers: &[u64]) -> Result<WideAt, OutOfMemory>
    requires { All (MemberBelow (length numbers.now)) wide.now.basis }
    ensures { IfOk result (λ new. new ≡ renumbered_wide (number_given numbers.now) wide.now) }
{
    let basis = new_basis(alloc, wide.basis.as_slice(), numbers)?;
    Ok(WideAt {
        step: wide.step,
        left: wide.left,
        right: wide.right,
        basis: Listed::from_items(basis),
    })
}

/// The entries with the new numbers of their rows.
fn new_entries(alloc: Global, entries: &[Entry], numbers: &[u64]) -> Result<Vec<Entry>, OutOfMemory>
    requires { (named : ℕ → Bool) × AreNewNumbers named (length numbers.now) numbers.now ×
        All (NamesKnown named (length numbers.now)) entries.now }
    ensures { IfOk result (λ new. new.items ≡ map (renumbered (number_given numbers.now))
        entries.now) }
{
    let mut new = Vec::new(alloc);
    for entry in entries {
        new.push(renumbered_entry(alloc, entry, numbers)?)?;
    }
    Ok(new)
}

/// The tree with the new numbers of its rows.
///
/// # Errors
///
/// `OutOfMemory`.
pub(crate) fn new_tree(alloc: Global, tree: &Tree, numbers: &[u64]) -> Result<Tree, OutOfMemory>
    requires { (named : ℕ → Bool) × AreNewNumbers named (length numbers.now) numbers.now ×
        All (NamesKnown named (length numbers.now)) tree.now }
    ensures { IfOk result (λ new. new ≡ map (renumbered (number_given numbers.now)) tree.now) }
{
    let entries = new_entries(alloc, tree.as_slice(), numbers)?;
    Ok(Tree::from_items(entries))
}

/// The trees with the new numbers of their rows.
///
/// # Errors
///
/// `OutOfMemory`.
pub(crate) fn new_trees(
    alloc: Global,
    trees: &[Tree],
    numbers: &[u64],
) -> Result<Vec<Tree>, OutOfMemory>
    requires { (named : ℕ → Bool) × AreNewNumbers named (length numbers.now) numbers.now ×
        All (All (NamesKnown named (length numbers.now))) trees.now }
    ensures { IfOk result (λ new. new.items ≡ map (map (renumbered (number_given numbers.now)))
        trees.now) }
{
    let mut new = Vec::new(alloc);
    for tree in trees {
        new.push(new_tree(alloc, tree, numbers)?)?;
    }
    Ok(new)
}

/// The tree at the same cap with the new numbers of its rows, if there is one.
///
/// # Errors
///
/// `OutOfMemory`.
pub(crate) fn new_if_any(
    alloc: Global,
    tree: Option<&CapTree>,
    numbers: &[u64],
) -> Result<Option<CapTree>, OutOfMemory>
    requires { (named : ℕ → Bool) × AreNewNumbers named (length numbers.now) numbers.now ×
        TreeNamesKnown named (length numbers.now) (option_copied tree) }
    ensures { IfOk result (HasNumbers (number_given numbers.now) (option_copied tree.entry)) }
{
    match tree {
        Some(tree) => Ok(Some(CapTree {
            cap: tree.cap,
            tree: new_tree(alloc, &tree.tree, numbers)?,
        })),
        None => Ok(None),
    }
}
