//! A conflict that is made smaller.
ghost use Rattle.std.specs.Prelude.{◌≡◌, ◌<◌, ◌++◌, ◌∷◌, ◌==◌, [], length, IfOk, slice_index};
ghost use Rattle.std.specs.List.{list_any, remove};
ghost use Rattle.form_search.specs.AdvisorsAsked.{AreCalled};
ghost use Rattle.least_conflict.specs.Deciding.{AreAskedTrying, IsShrunk, IsMemberTried};

use crate::deciding::{Decided, SetTree, decide_set};
use crate::members::without_one;
use crate::telling::{Told, tell};
use cost_base::{Listed, OutOfMemory};
use cut_advisors::Advisor;
use design_problem::{CostList, Problem, Row, keeps_problem_on_graph};
use std::alloc::Global;
use wide_fraction::Limits;

/// A conflict, the rows of a tree that shows it, and costs for each of its first members that are fit without it.
#[derive(Drop)]
pub(crate) struct Shrunk {
    /// The requests, in rising order.
    pub(crate) members: Listed<u32>,
    /// Rows of some of them, which alone are a conflict.
    pub(crate) rows: Listed<Row>,
    /// Costs for the first members.
    pub(crate) without: Vec<CostList>,
}

/// What comes of leaving out one member.
#[derive(Drop)]
pub(crate) enum Tried {
    /// It stays out, or there are costs without it.
    On(Shrunk),
    /// The budget was used up.
    Undecided(SetTree),
}

impl Shrunk {
    /// With costs that are fit without the next member.
    fn with_costs(self, costs: CostList) -> Result<Shrunk, OutOfMemory>
        ensures members { IfOk result (λ next. next.members ≡ self.members) }
        ensures rows { IfOk result (λ next. next.rows ≡ self.rows) }
        ensures without { IfOk result (λ next. next.without.items ≡
            self.without.items ++ costs ∷ []) }
    {
        let Shrunk {
            members,
            rows,
            mut without,
        } = self;
        without.push(costs)?;
        Ok(Shrunk {
            members,
            rows,
            without,
        })
    }

    /// With fewer members, and the same rows.
    fn with_members(self, members: Vec<u32>) -> Shrunk
        ensures { result ≡ record self { members = members.items } }
    {
        let Shrunk {
            members: _,
            rows,
            without,
        } = self;
        Shrunk {
            members: Listed::from_items(members),
            rows,
            without,
        }
    }

    /// With a smaller conflict, by another tree.
    fn with_told(self, told: Told) -> Shrunk
        ensures { result ≡ record self { members = told.members; rows = told.rows } }
    {
        let Shrunk {
            members: _,
            rows: _,
            without,
        } = self;
        let Told {
            members,
            rows,
            tree: _,
        } = told;
        Shrunk {
            members,
            rows,
            without,
        }
    }
}

/// The members but the next one for which it isn't known whether the others are a conflict without it.
fn without_next(alloc: Global, shrunk: &Shrunk) -> Result<Vec<u32>, OutOfMemory>
    requires { length shrunk.now.without.items < length shrunk.now.members }
    ensures { IfOk result (λ others. others.items ≡ remove shrunk.now.members
        (length shrunk.now.without.items)) }
{
    without_one(alloc, shrunk.members.as_slice(), shrunk.without.len())
}

/// Whether a row is one of a request.
fn has_row_of(rows: &[Row], request: u32) -> bool
    ensures { result ≡ list_any (λ row. row.request == request) rows.now }
{
    for row in rows {
        if row.request == request {
            return true;
        }
    }
    false
}

/// Whether the rows are also of the next member. Without such rows the others are a conflict too.
fn uses_next(shrunk: &Shrunk) -> bool
    requires { length shrunk.now.without.items < length shrunk.now.members }
    ensures { result ≡ list_any (λ row. row.request == slice_index shrunk.now.members
        (length shrunk.now.without.items)) shrunk.now.rows }
{
    let members = shrunk.members.as_slice();
    has_row_of(shrunk.rows.as_slice(), members[shrunk.without.len()])
}

/// Leaves out the next member for which it isn't known whether the others are a conflict without it. Nothing is
/// searched where the rows do without it.
pub(crate) fn leave_out(
    alloc: Global,
    problem: &Problem,
    limits: &Limits,
    shrunk: Shrunk,
    advisors: &mut Vec<Box<dyn Advisor>>,
) -> Result<Tried, OutOfMemory>
    requires shrunk { IsShrunk problem.now shrunk }
    requires left { length shrunk.without.items < length shrunk.members }
    ensures turned { IfOk result (IsMemberTried problem.now limits.now.top limits.now.nodes
        shrunk) }
    ensures asked { IfOk result (λ tried. AreAskedTrying ⟦<dyn Advisor as Advisor>⟧
        (λ b. b.vtable) (λ b. state b) problem.now limits.now.top limits.now.nodes shrunk tried
        advisors.old.items advisors.new.items) }
    ensures advisors { AreCalled ⟦<dyn Advisor as Advisor>⟧ (λ b. b.vtable) (λ b. state b)
        advisors.old.items advisors.new.items }
{
    keeps_problem_on_graph(problem);
    let others = without_next(alloc, &shrunk)?;
    if !uses_next(&shrunk) {
        return Ok(Tried::On(shrunk.with_members(others)));
    }
    match decide_set(alloc, problem, others, limits, advisors)? {
        Decided::Costs(costs) => Ok(Tried::On(shrunk.with_costs(costs)?)),
        Decided::Refuted(conflict) => {
            let told = tell(alloc, problem, conflict)?;
            Ok(Tried::On(shrunk.with_told(told)))
        }
        Decided::Undecided(set) => Ok(Tried::Undecided(set)),
    }
}
