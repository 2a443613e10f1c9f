//! What is told of a set of requests: the rows and the tree as they are printed.
ghost use Rattle.std.specs.Prelude.{◌≡◌, ℕ, ◌<◌, length, map, All, IfOk};
ghost use Rattle.least_conflict.specs.Conflicts.{whole_row};
ghost use Rattle.least_conflict.specs.Deciding.{IsSetTree, IsSetTreeTold};

use crate::deciding::SetTree;
use cost_base::{Listed, OutOfMemory};
use design_problem::{Problem, Row, Tree, keeps_problem_on_graph};
use printed_rows::{PrintedTree, printed};
use std::alloc::Global;

/// A set of requests, and the rows and the tree that are printed of it. The rows have the whole problem's numbers.
#[derive(Drop)]
pub(crate) struct Told {
    pub(crate) members: Listed<u32>,
    pub(crate) rows: Listed<Row>,
    pub(crate) tree: Tree,
}

/// The row of a restricted problem with its request's number in the whole problem.
fn whole_row(row: Row, members: &[u32]) -> Row
    requires { row.request < length members.now }
    ensures { result ≡ whole_row members.now row }
{
    Row {
        request: members[row.request as usize],
        rival: row.rival,
    }
}

/// The rows of a restricted problem with their requests' numbers in the whole problem.
fn whole_rows(alloc: Global, rows: Vec<Row>, members: &[u32]) -> Result<Vec<Row>, OutOfMemory>
    requires { All (λ row. row.request < length members.now) rows.items }
    ensures { IfOk result (λ whole. whole.items ≡ map (whole_row members.now) rows.items) }
{
    let mut whole = Vec::new(alloc);
    for row in rows {
        whole.push(whole_row(row, members))?;
    }
    Ok(whole)
}

/// What is told of a set's tree: the rows that it names, and the tree with their new numbers.
pub(crate) fn tell(alloc: Global, problem: &Problem, set: SetTree) -> Result<Told, OutOfMemory>
    requires { (top : ℕ) × (nodes : ℕ) × IsSetTree problem.now top nodes set }
    ensures { (top nodes : ℕ) → IsSetTree problem.now top nodes set →
        IfOk result (IsSetTreeTold problem.now top nodes set) }
{
    keeps_problem_on_graph(problem);
    let SetTree {
        members,
        pool,
        tree,
    } = set;
    let rows = whole_rows(alloc, pool.into_rows(), members.as_slice())?;
    let PrintedTree { rows, tree } = printed(alloc, rows, &tree)?;
    Ok(Told {
        members: Listed::from_items(members),
        rows: Listed::from_items(rows),
        tree,
    })
}
